// A log character.
ghost use Rattle.std.specs.Prelude.{◌≡◌, true};
ghost use Rattle.symbols.specs.LogCodes.{log_code};

use std::fmt;

#[derive(Clone, Copy, PartialEq, Eq, Debug)]
pub struct LogChar {
    pub(crate) code: u8,
    ghost printed: { log_code code ≡ true },
}

impl fmt::Display for LogChar {
    ghost use Rattle.std.specs.Prelude.{Some};
    ghost use Rattle.symbols.specs.Log.{log_chars};

    ghost output = { λ x. Some (log_chars x) };

    fn fmt<W: fmt::Write>(&self, f: &mut fmt::Formatter<W>) -> fmt::Result {
        write!(f, "{}", self.code as char)
    }
}
