// The limits of a store, and the check of them before a store is made.
ghost use Rattle.std.specs.Prelude.{◌≡◌};
ghost use Rattle.symbols.specs.Answers.{answered};
ghost use Rattle.stores.specs.Ranges.{in_range, check_refusal};

use crate::refusal::StoreRefusal;

// How many strings there are, the longest that one may be, and the most symbols of all together.
#[derive(Clone, Copy, PartialEq, Eq, Debug)]
pub struct Limits {
    pub names: usize,
    pub longest: usize,
    pub most: usize,
}

impl Limits {
    // What a store tells that was made against the check.
    pub const NONE: Limits = Limits {
        names: 0,
        longest: 0,
        most: 0,
    };

    // Whether the limits are in range, and an area of `room` symbols takes the most.
    #[tactic(auto, unfolding(crate::specs::Ranges::in_range))]
    pub fn fits(self, room: usize) -> bool
        ensures { result ≡ in_range self.names self.longest self.most room }
    {
        let names = (1..=64).contains(&self.names);
        let longest = (1..=4096).contains(&self.longest);
        let most = (1..=65536).contains(&self.most);
        names && longest && most && self.most <= room
    }

    // The check before a store is made.
    #[tactic(auto, unfolding(crate::specs::Ranges::check_refusal))]
    pub fn check(self, room: usize) -> Result<(), StoreRefusal>
        ensures { result ≡ answered (check_refusal self.names self.longest self.most room) tt }
    {
        self.fits(room)
            .then_some(())
            .ok_or(StoreRefusal::OutOfRange)
    }
}
