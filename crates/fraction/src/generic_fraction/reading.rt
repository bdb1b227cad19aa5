// What is read from a fraction, by the source's names.
ghost use Rattle.std.specs.Prelude.{◌≡◌, Decides};
ghost use Rattle.std.specs.Option.{option_map};
ghost use Rattle.fraction.specs.Meaning.{nan, meant, numerator, denominator, signed, Zero, Infinite};

use crate::generic_fraction::GenericFraction;
use generic::integer::GenericInteger;
use generic::sign::Sign;

impl<T: GenericInteger> GenericFraction<T> {
    // None for an infinity and for NaN.
    pub fn numer(&self) -> Option<T>
        ensures { option_map T.number result ≡ numerator (meant T.number self.now) }
    {
        match *self {
            GenericFraction::Rational(_, ratio) => Some(ratio.numer()),
            _ => None,
        }
    }

    // None for an infinity and for NaN.
    pub fn denom(&self) -> Option<T>
        ensures { option_map T.number result ≡ denominator (meant T.number self.now) }
    {
        match *self {
            GenericFraction::Rational(_, ratio) => Some(ratio.denom()),
            _ => None,
        }
    }

    // None for NaN.
    pub fn sign(&self) -> Option<Sign>
        ensures { result ≡ signed (meant T.number self.now) }
    {
        match *self {
            GenericFraction::Rational(sign, _) | GenericFraction::Infinity(sign) => Some(sign),
            GenericFraction::NaN => None,
        }
    }

    pub fn is_zero(&self) -> bool
        ensures { Decides result (Zero (meant T.number self.now)) }
    {
        match *self {
            GenericFraction::Rational(_, ratio) => ratio.numer().is_zero(),
            _ => false,
        }
    }

    pub fn is_nan(&self) -> bool
        ensures { Decides result (meant T.number self.now ≡ nan) }
    {
        matches!(self, GenericFraction::NaN)
    }

    pub fn is_infinite(&self) -> bool
        ensures { Decides result (Infinite (meant T.number self.now)) }
    {
        matches!(self, GenericFraction::Infinity(_))
    }
}
