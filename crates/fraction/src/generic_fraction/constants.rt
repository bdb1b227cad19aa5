// The fractions that take no number, by their source's names.
ghost use Rattle.std.specs.Prelude.{◌≡◌};
ghost use Rattle.generic.specs.declared.sign.Sign.TheVariants.{Plus, Minus};
ghost use Rattle.fraction.specs.Meaning.{rational, infinity, nan, meant, Sound};

use crate::generic_fraction::GenericFraction;
use crate::ratio::Ratio;
use generic::integer::GenericInteger;
use generic::sign::Sign;

impl<T: GenericInteger> GenericFraction<T> {
    // A whole number.
    fn over_one(sign: Sign, num: T) -> GenericFraction<T>
        ensures means { meant T.number result ≡ rational sign (T.number num) 1 }
        ensures sound { Sound (meant T.number result) }
    {
        GenericFraction::Rational(sign, Ratio::new(num, T::one()).unwrap())
    }

    pub fn zero() -> GenericFraction<T>
        ensures means { meant T.number result ≡ rational Plus 0 1 }
        ensures sound { Sound (meant T.number result) }
    {
        Self::over_one(Sign::Plus, T::zero())
    }

    pub fn neg_zero() -> GenericFraction<T>
        ensures means { meant T.number result ≡ rational Minus 0 1 }
        ensures sound { Sound (meant T.number result) }
    {
        Self::over_one(Sign::Minus, T::zero())
    }

    pub fn nan() -> GenericFraction<T>
        ensures means { meant T.number result ≡ nan }
        ensures sound { Sound (meant T.number result) }
    {
        GenericFraction::NaN
    }

    pub fn infinity() -> GenericFraction<T>
        ensures means { meant T.number result ≡ infinity Plus }
        ensures sound { Sound (meant T.number result) }
    {
        GenericFraction::Infinity(Sign::Plus)
    }

    pub fn neg_infinity() -> GenericFraction<T>
        ensures means { meant T.number result ≡ infinity Minus }
        ensures sound { Sound (meant T.number result) }
    {
        GenericFraction::Infinity(Sign::Minus)
    }
}
