// The mode of a scan: whether a placing may start anywhere or only at the subject's beginning.
use std::str::FromStr;
use thiserror::Error;

#[derive(Clone, Copy, PartialEq, Eq, Debug)]
pub enum Mode {
    Unanchored,
    Anchored,
}

// A word that chooses no mode.
#[derive(Clone, Copy, PartialEq, Eq, Debug, Error)]
#[error("a mode other than ANCHOR and UNANCHOR")]
pub struct NoMode;

impl FromStr for Mode {
    type Err = NoMode;

    ghost use Rattle.std.specs.Prelude.{◌≡◌};
    ghost use Rattle.std.specs.Result.{result_ok};
    ghost use Rattle.placings.specs.Modes.{mode_word};

    ghost from_str_gives = { λ word mode. result_ok mode ≡ mode_word word };

    fn from_str(word: &str) -> Result<Mode, NoMode> {
        match word {
            "ANCHOR" => Ok(Mode::Anchored),
            "UNANCHOR" => Ok(Mode::Unanchored),
            _ => Err(NoMode),
        }
    }
}
