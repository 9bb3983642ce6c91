// Patterns and right sides: at most eight parts, each of which fits.
ghost use Rattle.std.specs.Prelude.{◌≡◌};
ghost use Rattle.checks.specs.Fits.{form_fits, item_fits, pattern_fits, side_fits};

use crate::fit::{Fit, all_fit};
use tables::limits::{LONGEST_PART, MOST_ELEMENTS, MOST_OPERANDS};
use tables::row::{Form, Item, Pattern, RightSide};
use tables::sheet::Counts;

impl Fit for Form {
    ghost fitting = { λ _ form. form_fits form };

    fn fits(&self, _counts: Counts) -> bool {
        match self {
            Form::Arbitrary | Form::Balanced => true,
            Form::Fixed(size) => *size <= LONGEST_PART,
        }
    }
}

impl Fit for Item {
    ghost fitting = { item_fits };

    fn fits(&self, counts: Counts) -> bool {
        match self {
            Item::Operand(operand) => operand.fits(counts),
            Item::Variable(variable) => {
                counts.has_name(variable.name) && variable.form.fits(counts)
            }
        }
    }
}

impl Fit for Pattern {
    ghost fitting = { pattern_fits };

    fn fits(&self, counts: Counts) -> bool {
        self.count <= MOST_ELEMENTS && all_fit(self.items(), counts)
    }
}

impl Fit for RightSide {
    ghost fitting = { side_fits };

    fn fits(&self, counts: Counts) -> bool {
        self.count <= MOST_OPERANDS && all_fit(self.operands(), counts)
    }
}
