// The string that a name gets by a success.
ghost use Rattle.std.specs.Prelude.{◌≡◌, length};
ghost use Rattle.std.specs.Option.{option_copied};
ghost use Rattle.changes.specs.Told.{told};
ghost use Rattle.changes.specs.Sources.{last_part, new_string, source, value, Cuts};

use crate::success::Success;

impl<'a, T> Success<'a, T> {
    // The part of the last variable of a name.
    fn last_part(&self, name: usize) -> Option<&'a [T]>
        ensures { option_copied result ≡ last_part self.now.subject.now name self.now.start self.now.items.now self.now.ends.now }
    {
        let mut found = None;
        let mut from = self.start;
        for (i, item) in self.items.iter().enumerate() {
            let to = self.ends[i];
            let part = &self.subject[from..to];
            found = item.is_variable_of(name).then_some(part).or(found);
            from = to;
        }
        found
    }

    // The string that a name gets, if it is written at all: the new contents, else the last part that it takes.
    pub fn new_string(&self, name: usize) -> Option<&'a [T]>
        ensures value { option_copied result ≡ new_string (told self.now) name }
        ensures source { option_copied result ≡ value (told self.now) (source (told self.now) name) }
        ensures cuts { Cuts (length self.now.subject.now) (source (told self.now) name) }
    {
        if self.reference == Some(name) {
            return Some(self.contents);
        }
        self.last_part(name)
    }
}
