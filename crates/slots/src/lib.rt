// The slot store: strings in slots of one width, in one lent area.
#![tactic(auto)]

ghost use Rattle.std.specs.Prelude.{◌≡◌, ◌-◌, ◌*◌, ◌^◌, min, length};
ghost use Rattle.symbols.specs.Answers.{answered};
ghost use Rattle.stores.specs.Ranges.{check_refusal, new_names};
ghost use Rattle.stores.specs.Calls.{put_answer, after_put};
ghost use Rattle.slots.specs.Slots.{slot_names, Found};
ghost use Rattle.slots.specs.Bounds.{slot_bounds};

use stores::copy::{copy_at, copy_front};
use stores::limits::Limits;
use stores::part::Part;
use stores::refusal::StoreRefusal;
use stores::store::{Store, is_outside};

// The host supplies all memory, so that the lengths have an array of a fixed size.
#[derive(Drop)]
pub struct SlotStore<'a, T> {
    area: &'a mut [T],
    lengths: [u16; 64],
    names: usize,
    longest: usize,
}

// The limits of so many slots of one width; a most that no usize holds is out of range.
fn slot_limits(names: usize, longest: usize) -> Limits
    ensures names { result.names ≡ names }
    ensures longest { result.longest ≡ longest }
    ensures most { result.most ≡ min (names * longest) (2 ^ 64 - 1) }
{
    Limits {
        names,
        longest,
        most: names.saturating_mul(longest),
    }
}

// The check before a store is made.
#[tactic(auto, using(crate::proofs::Slots::cut_off), unfolding(stores::specs::Ranges::check_refusal))]
pub fn check_slots(names: usize, longest: usize, room: usize) -> Result<(), StoreRefusal>
    ensures { result ≡ answered (check_refusal names longest (names * longest) room) tt }
{
    slot_limits(names, longest).check(room)
}

impl<'a, T: Copy> SlotStore<'a, T> {
    // Null strings over the area, or no string where the check refuses.
    pub fn new(area: &'a mut [T], names: usize, longest: usize) -> SlotStore<'a, T>
        ensures means { slot_names result ≡ new_names names longest (names * longest) (length area.old) }
        ensures named { result.area.ghost_name ≡ area.entry.ghost_name }
    {
        SlotStore {
            area,
            lengths: [0; 64],
            names,
            longest,
        }
    }

    // Where the string of a number lies.
    fn find(&self, number: usize) -> Result<Part, StoreRefusal>
        ensures { Found (slot_names self.now) self.now.area.now self.now.longest number result }
    {
        if is_outside(number, self.tell().names) {
            return Err(StoreRefusal::OutOfRange);
        }
        let k = number - 1;
        Ok(Part {
            start: k * self.longest,
            length: (self.lengths[k] as usize).min(self.longest),
        })
    }
}

impl<'a, T: Copy> Store for SlotStore<'a, T> {
    type Symbol = T;

    ghost held = { slot_names };

    ghost bounds = { slot_bounds };

    fn put(&mut self, number: usize, string: &[T]) -> Result<(), StoreRefusal>
        ensures answer { result ≡ put_answer (slot_names self.old) number string.now }
        ensures after { slot_names self.new ≡ after_put (slot_names self.old) number string.now }
        ensures named { self.new.area.ghost_name ≡ self.old.area.ghost_name }
    {
        let slot = self.find(number)?;
        if string.len() > self.longest {
            return Err(StoreRefusal::TooLong);
        }
        let length = string.len() as u16;
        copy_at(self.area, slot.start, string);
        self.lengths[number - 1] = length;
        Ok(())
    }

    fn fetch(&self, number: usize, area: &mut [T]) -> Result<usize, StoreRefusal> {
        let part = self.find(number)?;
        copy_front(area, part.of(self.area))
    }

    fn length(&self, number: usize) -> Result<usize, StoreRefusal> {
        let part = self.find(number)?;
        Ok(part.length)
    }

    // No string where the fields do not fit the area.
    fn tell(&self) -> Limits {
        let limits = slot_limits(self.names, self.longest);
        if limits.fits(self.area.len()) {
            limits
        } else {
            Limits::NONE
        }
    }
}

#[cfg(test)]
mod tests {
    use crate::{SlotStore, check_slots};
    use stores::limits::Limits;
    use stores::put::{Put, put_all};
    use stores::refusal::StoreRefusal;
    use stores::store::Store;

    // Puts, refusals and fetches on three slots of four symbols, and a store made against the check.
    #[test]
    fn three_slots(rt: HostRuntime) {
        let mut area = [0u8; 12];
        assert_eq!(rt; check_slots(3, 4, 12), Ok(()));
        assert_eq!(rt; check_slots(3, 4, 11), Err(StoreRefusal::OutOfRange));
        let mut store = SlotStore::new(&mut area, 3, 4);
        assert_eq!(rt; store.length(2), Ok(0));
        assert_eq!(rt; store.put(2, b"abc"), Ok(()));
        assert_eq!(rt; store.put(1, b"wxyz"), Ok(()));
        assert_eq!(rt; store.put(1, b"vwxyz"), Err(StoreRefusal::TooLong));
        assert_eq!(rt; store.put(0, b""), Err(StoreRefusal::OutOfRange));
        assert_eq!(rt; store.put(4, b""), Err(StoreRefusal::OutOfRange));
        let puts = [
            Put {
                number: 3,
                string: b"p",
            },
            Put {
                number: 4,
                string: b"q",
            },
            Put {
                number: 3,
                string: b"rs",
            },
        ];
        assert_eq!(rt; put_all(&mut store, &puts), 2);
        let mut out = [9u8; 5];
        assert_eq!(rt;
            store.fetch(2, &mut out[0..2]),
            Err(StoreRefusal::ShortArea)
        );
        assert_eq!(rt; store.fetch(2, &mut out), Ok(3));
        assert!(rt; out[0] == 97 && out[2] == 99 && out[3] == 9);
        assert_eq!(rt; store.fetch(3, &mut out), Ok(2));
        assert!(rt; out[0] == 114 && out[1] == 115 && out[2] == 99);
        let mut small = [0u8; 12];
        let unmade = SlotStore::new(&mut small, 3, 5);
        let none = Limits {
            names: 0,
            longest: 0,
            most: 0,
        };
        assert_eq!(rt; unmade.tell(), none);
        assert_eq!(rt; unmade.length(1), Err(StoreRefusal::OutOfRange));
    }
}
