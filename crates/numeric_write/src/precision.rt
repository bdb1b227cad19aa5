// How many fractional digits are written at most.
ghost use Rattle.std.specs.Prelude.{◌≡◌, ◌<◌, ◌≤◌};
ghost use Rattle.numeric.specs.Package.{precision_in_force};

use numeric::layout::PG_MAX_PRECISION;

#[derive(Clone, Copy)]
pub(crate) struct Precision {
    pub(crate) digits: u16,
    ghost some: { 0 < digits },
    ghost most: { digits ≤ 16383 },
}

impl Precision {
    // The given precision, at most the greatest, and 0 as 1.
    pub(crate) fn in_force(given: usize) -> Precision
        ensures { result.digits ≡ precision_in_force given }
    {
        Precision {
            digits: given.min(PG_MAX_PRECISION).max(1) as u16,
        }
    }
}
