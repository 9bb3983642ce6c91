// Go-tos: they lead to statements that the sheet has.
ghost use Rattle.std.specs.Prelude.{◌≡◌};
ghost use Rattle.checks.specs.Fits.{next_fits, target_fits};

use crate::fit::Fit;
use tables::row::{Next, Target};
use tables::sheet::Counts;

impl Fit for Next {
    ghost fitting = { next_fits };

    fn fits(&self, counts: Counts) -> bool {
        match self {
            Next::Statement(number) => counts.has_statement(*number),
            Next::End => true,
        }
    }
}

impl Fit for Target {
    ghost fitting = { target_fits };

    fn fits(&self, counts: Counts) -> bool {
        match self {
            Target::To(next) => next.fits(counts),
            Target::Through(number) => counts.has_name(*number),
        }
    }
}
