// The packed store: strings back to back at the front of one lent area.
#![tactic(auto)]

ghost use Rattle.std.specs.Prelude.{◌≡◌, ℕ, ◌+◌, ◌-◌, ◌<◌, ◌≤◌, length, sum, slice_index_or};
ghost use Rattle.stores.specs.Ranges.{new_names};
ghost use Rattle.stores.specs.Calls.{put_answer, after_put};
ghost use Rattle.stores.specs.Parts.{lengths};
ghost use Rattle.packed.specs.Packs.{packs, packed_names, Found};
ghost use Rattle.packed.specs.Bounds.{packed_bounds};

use stores::copy::{copy_at, copy_front};
use stores::limits::Limits;
use stores::part::Part;
use stores::refusal::StoreRefusal;
use stores::store::{Store, is_outside};

// The host supplies all memory, so that the lengths have an array of a fixed size.
#[derive(Drop)]
pub struct PackedStore<'a, T> {
    area: &'a mut [T],
    lengths: [u16; 64],
    limits: Limits,
}

// How many symbols the first `count` strings have together.
fn total(table: &[u16; 64], longest: usize, count: usize) -> usize
    requires { count ≤ 64 }
    ensures { result ≡ sum (lengths count longest table.now) }
{
    let mut sum = 0;
    for length in &table[..count] {
        sum += usize::from(*length).min(longest);
    }
    sum
}

// Shifts what lies behind the old part, up to `end`, so that `wanted` symbols fit before it.
fn make_room<T>(area: &mut [T], old: Part, end: usize, wanted: usize)
    requires length_bound { old.start + old.length ≤ end }
    requires end_in_bounds { end ≤ length area.old }
    requires wanted_in_bounds { end + wanted ≤ length area.old + old.length }
    ensures before { (j : ℕ) (d : T) → j < old.start → slice_index_or area.new j d ≡ slice_index_or area.old j d }
    ensures behind { (j : ℕ) (d : T) → j < end - old.start - old.length → slice_index_or area.new (old.start + wanted + j) d ≡ slice_index_or area.old (old.start + old.length + j) d }
{
    let start = old.start;
    if wanted >= old.length {
        let more = wanted - old.length;
        let stop = end + more;
        area[start..stop].rotate_right(more);
        return;
    }
    let less = old.length - wanted;
    area[start..end].rotate_left(less);
}

impl<'a, T: Copy> PackedStore<'a, T> {
    // Null strings over the area, or no string where the check refuses.
    pub fn new(area: &'a mut [T], limits: Limits) -> PackedStore<'a, T>
        ensures means { packed_names result ≡ new_names limits.names limits.longest limits.most (length area.old) }
        ensures named { result.area.ghost_name ≡ area.entry.ghost_name }
    {
        PackedStore {
            area,
            lengths: [0; 64],
            limits,
        }
    }

    // Whether the limits are in range and fit the area, and the strings fit the limits.
    fn is_packed(&self) -> bool
        ensures { result ≡ packs self.now.lengths self.now.limits.names self.now.limits.longest self.now.limits.most (length self.now.area.now) }
    {
        let limits = self.limits;
        limits.fits(self.area.len())
            && total(&self.lengths, limits.longest, limits.names) <= limits.most
    }

    // Where the string of a number lies.
    fn find(&self, number: usize) -> Result<Part, StoreRefusal>
        ensures { Found self.now number result }
    {
        if is_outside(number, self.tell().names) {
            return Err(StoreRefusal::OutOfRange);
        }
        let k = number - 1;
        Ok(Part {
            start: total(&self.lengths, self.limits.longest, k),
            length: (self.lengths[k] as usize).min(self.limits.longest),
        })
    }
}

impl<'a, T: Copy> Store for PackedStore<'a, T> {
    type Symbol = T;

    ghost held = { packed_names };

    ghost bounds = { packed_bounds };

    fn put(&mut self, number: usize, string: &[T]) -> Result<(), StoreRefusal>
        ensures answer { result ≡ put_answer (packed_names self.old) number string.now }
        ensures after { packed_names self.new ≡ after_put (packed_names self.old) number string.now }
        ensures named { self.new.area.ghost_name ≡ self.old.area.ghost_name }
    {
        let old = self.find(number)?;
        if string.len() > self.limits.longest {
            return Err(StoreRefusal::TooLong);
        }
        let end = total(&self.lengths, self.limits.longest, self.limits.names);
        if string.len() > self.limits.most - (end - old.length) {
            return Err(StoreRefusal::TooLong);
        }
        let length = string.len() as u16;
        make_room(self.area, old, end, string.len());
        copy_at(self.area, old.start, string);
        self.lengths[number - 1] = length;
        Ok(())
    }

    fn fetch(&self, number: usize, area: &mut [T]) -> Result<usize, StoreRefusal> {
        let part = self.find(number)?;
        copy_front(area, part.of(self.area))
    }

    fn length(&self, number: usize) -> Result<usize, StoreRefusal> {
        let part = self.find(number)?;
        Ok(part.length)
    }

    // No string where the fields do not fit together.
    fn tell(&self) -> Limits {
        if self.is_packed() {
            self.limits
        } else {
            Limits::NONE
        }
    }
}

#[cfg(test)]
mod tests {
    use crate::PackedStore;
    use stores::limits::Limits;
    use stores::refusal::StoreRefusal;
    use stores::store::Store;

    // Three strings of at most four symbols, eight in all: neighbours shift, and the replaced string does not count.
    #[test]
    fn three_strings(rt: HostRuntime) {
        let mut area = [0u8; 9];
        let limits = Limits {
            names: 3,
            longest: 4,
            most: 8,
        };
        assert_eq!(rt; limits.check(9), Ok(()));
        assert_eq!(rt; limits.check(7), Err(StoreRefusal::OutOfRange));
        let mut store = PackedStore::new(&mut area, limits);
        assert_eq!(rt; store.put(2, b"abc"), Ok(()));
        assert_eq!(rt; store.put(3, b"q"), Ok(()));
        assert_eq!(rt; store.put(1, b"wxyz"), Ok(()));
        assert_eq!(rt; store.put(3, b"qr"), Err(StoreRefusal::TooLong));
        assert_eq!(rt; store.put(2, b"abcde"), Err(StoreRefusal::TooLong));
        assert_eq!(rt; store.put(4, b""), Err(StoreRefusal::OutOfRange));
        assert_eq!(rt; store.put(1, b"vw"), Ok(()));
        assert_eq!(rt; store.put(3, b"qrs"), Ok(()));
        let mut out = [9u8; 4];
        assert_eq!(rt; store.fetch(2, &mut out), Ok(3));
        assert!(rt; out[0] == 97 && out[1] == 98 && out[2] == 99 && out[3] == 9);
        assert_eq!(rt; store.fetch(3, &mut out), Ok(3));
        assert!(rt; out[0] == 113 && out[2] == 115);
        assert_eq!(rt;
            store.fetch(3, &mut out[0..2]),
            Err(StoreRefusal::ShortArea)
        );
        assert_eq!(rt; store.length(1), Ok(2));
        assert_eq!(rt; store.tell(), limits);
    }
}
