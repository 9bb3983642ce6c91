// Why a store refuses a call.
ghost use Rattle.std.specs.Prelude.{◌≡◌};
ghost use Rattle.stores.specs.Calls.{store_number};

use thiserror::Error;

#[derive(Clone, Copy, PartialEq, Eq, Debug, Error)]
pub enum StoreRefusal {
    #[error("the area is shorter than the string")]
    ShortArea = 23,
    #[error("a string, or all strings together, would be longer than the limit")]
    TooLong = 26,
    #[error("no string has the number, or a limit is out of range")]
    OutOfRange = 27,
}

impl StoreRefusal {
    // The number by which the outside knows the refusal.
    pub fn number(self) -> u8
        ensures { result ≡ store_number self }
    {
        self as u8
    }
}
