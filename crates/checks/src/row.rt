// Rows and their labels.
ghost use Rattle.std.specs.Prelude.{◌≡◌};
ghost use Rattle.checks.specs.Fits.{name_fits, row_fits};

use crate::fit::Fit;
use tables::limits::LONGEST_NAME;
use tables::name::Name;
use tables::row::Row;
use tables::sheet::Counts;

impl Fit for Name {
    ghost fitting = { λ _ name. name_fits name };

    fn fits(&self, _counts: Counts) -> bool {
        self.length <= LONGEST_NAME
    }
}

impl Fit for Row {
    ghost fitting = { row_fits };

    fn fits(&self, counts: Counts) -> bool {
        self.label.fits(counts)
            && self.reference.fits(counts)
            && self.pattern.fits(counts)
            && self.right_side.fits(counts)
            && self.on_success.fits(counts)
            && self.on_failure.fits(counts)
    }
}
