// The numbers of a fraction.
ghost use Rattle.std.specs.Prelude.{◌≡◌};

use generic::divisor::gcd;
use generic::integer::GenericInteger;
use std::cmp::Ordering;

// A numerator over a denominator. Only this module makes one, and never over 0.
#[derive(Clone, Copy, PartialEq, Eq, Debug)]
pub struct Ratio<T> {
    numer: T,
    denom: T,
}

impl<T: GenericInteger> Ratio<T> {
    ghost use Rattle.fraction.specs.Ratios.{Keeps, Reduced};

    // As they are; None exactly where the denominator is 0.
    pub(crate) fn new(numer: T, denom: T) -> Option<Ratio<T>>
        ensures { Keeps T.number numer denom result }
    {
        if denom.is_zero() {
            return None;
        }
        Some(Ratio { numer, denom })
    }

    // In lowest terms; None exactly where the denominator is 0. Where they already are, nothing is divided.
    pub(crate) fn lowest(numer: T, denom: T) -> Option<Ratio<T>>
        ensures { Reduced T.number numer denom result }
    {
        let common = gcd(numer, denom);
        match common.compare(T::one()) {
            Ordering::Equal => Ratio::new(numer, denom),
            _ => Ratio::new(numer.checked_div(common)?, denom.checked_div(common)?),
        }
    }
}

impl<T: Copy> Ratio<T> {
    pub fn numer(&self) -> T
        ensures { result ≡ self.now.numer }
    {
        self.numer
    }

    pub fn denom(&self) -> T
        ensures { result ≡ self.now.denom }
    {
        self.denom
    }
}
