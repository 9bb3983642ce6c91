// Log characters as a kind of symbols.
ghost use Rattle.std.specs.Prelude.{◌≡◌};
ghost use Rattle.symbols.specs.Log.{log_meant, log_chars, log_equal, log_role};
ghost use Rattle.symbols.specs.LogLaws.{log_back, log_means, log_decides};
ghost use Rattle.std.proofs.Common.{rules};

use crate::fault::{AreaRefusal, SymbolFault};
use crate::kind::Kind;
use crate::log_char::LogChar;
use crate::role::Role;

#[derive(Clone, Copy, Debug)]
pub struct LogChars;

impl Kind for LogChars {
    type Symbol = LogChar;

    const WIDTH: usize = 1;

    ghost WIDTH = { 1 };

    ghost chars = { log_chars };

    ghost meant = { log_meant };

    ghost equal = { log_equal };

    ghost acts = { λ _ x. log_role x };

    ghost wide_some = { Prim.search rules };

    ghost all_wide = { Prim.search rules };

    ghost read_back = { log_back };

    ghost means_them = { log_means };

    ghost decides = { log_decides };

    fn read(&self, text: &[u8]) -> Result<LogChar, SymbolFault> {
        match *text {
            [code @ b' '..=b'~'] if code != b'"' => Ok(LogChar { code }),
            _ => Err(SymbolFault::NoMeaning),
        }
    }

    fn write(&self, symbol: LogChar, area: &mut [u8]) -> Result<(), AreaRefusal> {
        let first = area.first_mut().ok_or(AreaRefusal::ShortArea)?;
        *first = symbol.code;
        Ok(())
    }

    fn same(&self, a: LogChar, b: LogChar) -> bool {
        a == b
    }

    fn role(&self, symbol: LogChar) -> Role {
        match symbol.code {
            b'(' => Role::Opening,
            b')' => Role::Closing,
            _ => Role::Plain,
        }
    }
}
