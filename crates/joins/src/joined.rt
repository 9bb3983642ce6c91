// A string joined piece by piece at the front of an area.
ghost use Rattle.std.specs.Prelude.{◌≡◌, length};
ghost use Rattle.placings.specs.Pattern.{part};
ghost use Rattle.joins.specs.Pieces.{filled, Filled, Filled-prop, appended};

// The string has so many symbols; none once a piece did not fit, as a piece behind it may still be refused.
#[derive(Drop)]
pub struct Joined<'a, T> {
    pub area: &'a mut [T],
    pub at: Option<usize>,
    pub ghost within: { Filled at area.now } by { Filled-prop at area.now },
}

impl<'a, T: Copy> Joined<'a, T> {
    // A string behind the one that is there.
    pub fn append(&mut self, string: &[T])
        ensures value { filled self.new.at self.new.area.now ≡ appended (length self.old.area.now) (filled self.old.at self.old.area.now) string.now }
        ensures room { length self.new.area.now ≡ length self.old.area.now }
        ensures same { self.new.area.ghost_name ≡ self.old.area.ghost_name }
    {
        let Some(used) = self.at else {
            return;
        };
        if string.len() > self.area.len() - used {
            self.at = None;
            return;
        }
        let end = used + string.len();
        self.area[used..end].copy_from_slice(string);
        self.at = Some(end);
    }

    // A literal, by its part of the constants.
    pub fn append_literal(&mut self, constants: &[T], from: usize, to: usize)
        ensures value { filled self.new.at self.new.area.now ≡ appended (length self.old.area.now) (filled self.old.at self.old.area.now) (part constants.now from to) }
        ensures room { length self.new.area.now ≡ length self.old.area.now }
        ensures same { self.new.area.ghost_name ≡ self.old.area.ghost_name }
    {
        let end = to.min(constants.len());
        let start = from.min(end);
        self.append(&constants[start..end]);
    }
}
