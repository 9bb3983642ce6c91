// What is checked against the counts of a sheet.
ghost use Rattle.std.specs.Prelude.{◌≡◌, Bool};
ghost use Rattle.std.specs.List.{list_all};
ghost use Rattle.tables.specs.declared.sheet.Counts.{Counts};
ghost use Rattle.checks.specs.Fits.{if_given};

use tables::sheet::Counts;

pub trait Fit {
    // Whether it points inside the counts, and is within the limits of a sheet.
    ghost fitting: { Counts → Self → Bool };

    fn fits(&self, counts: Counts) -> bool
        ensures { result ≡ fitting counts self.now };
}

impl<T: Fit> Fit for Option<T> {
    ghost fitting = { λ counts given. if_given (T.Fit.fitting counts) given };

    fn fits(&self, counts: Counts) -> bool {
        self.as_ref().is_none_or(|given| given.fits(counts))
    }
}

// Whether all of them fit.
pub fn all_fit<T: Fit>(parts: &[T], counts: Counts) -> bool
    ensures { result ≡ list_all (T.Fit.fitting counts) parts.now }
{
    parts.iter().all(|part| part.fits(counts))
}
