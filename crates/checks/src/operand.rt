// References and operands: they mean names that the sheet has, and parts of its constants.
ghost use Rattle.std.specs.Prelude.{◌≡◌};
ghost use Rattle.checks.specs.Fits.{reference_fits, operand_fits};

use crate::fit::Fit;
use tables::row::{Operand, Reference};
use tables::sheet::Counts;

impl Fit for Reference {
    ghost fitting = { reference_fits };

    fn fits(&self, counts: Counts) -> bool {
        counts.has_name(self.number())
    }
}

impl Fit for Operand {
    ghost fitting = { operand_fits };

    fn fits(&self, counts: Counts) -> bool {
        match self {
            Operand::Literal(from, to) => from <= to && *to <= counts.constants,
            Operand::Contents(reference) => reference.fits(counts),
        }
    }
}
