// A fraction below 1, whose digits come one after another.
ghost use Rattle.std.specs.Prelude.{◌<◌};

use crate::fault::DivisionFault;
use generic::integer::GenericInteger;

#[derive(Drop)]
pub(crate) struct Proper<T: GenericInteger> {
    pub(crate) remainder: T,
    pub(crate) divisor: T,
    ghost below: { T.number remainder < T.number divisor },
}

impl<T: GenericInteger> Proper<T> {
    ghost use Rattle.division.specs.Proper.{Judged};

    // Refused with 7 where the divisor is 0, and else with 8 where the remainder is not below it.
    pub(crate) fn new(remainder: T, divisor: T) -> Result<Proper<T>, DivisionFault>
        ensures { Judged T.CountingNumber remainder divisor result }
    {
        if divisor.is_zero() {
            return Err(DivisionFault::ZeroDivisor);
        }
        if remainder.compare(divisor).is_ge() {
            return Err(DivisionFault::RemainderNotBelow);
        }
        Ok(Proper { remainder, divisor })
    }
}
