// Fractions of integers, with a sign, the two infinities and what is no number.
ghost use Rattle.std.specs.Prelude.{◌≡◌, IfOk};
ghost use Rattle.generic.specs.declared.sign.Sign.TheVariants.{Plus, Minus};
ghost use Rattle.fraction.specs.Made.{Made, MadeRaw, Only, raw};
ghost use Rattle.fraction.specs.Meaning.{meant, Sound};

use crate::fault::FractionFault;
pub use crate::ratio::Ratio;
use generic::integer::GenericInteger;
use generic::sign::Sign;

mod constants;
mod reading;

#[derive(Clone, Copy, PartialEq, Eq, Debug)]
pub enum GenericFraction<T> {
    Rational(Sign, Ratio<T>),
    Infinity(Sign),
    NaN,
}

impl<T: GenericInteger> GenericFraction<T> {
    // The sign and num over den, in lowest terms; NaN for 0 over 0, and an infinity for the rest over 0. Inlined, so that a fraction
    // over 0 costs no more than to see the 0.
    #[inline(always)]
    fn new_signed(sign: Sign, num: T, den: T) -> GenericFraction<T>
        ensures made { Made sign (T.number num) (T.number den) (meant T.number result) }
        ensures only { Only sign (T.number num) (T.number den) (meant T.number result) }
        ensures sound { Sound (meant T.number result) }
    {
        if !den.is_zero() {
            GenericFraction::Rational(sign, Ratio::lowest(num, den).unwrap())
        } else if num.is_zero() {
            GenericFraction::NaN
        } else {
            GenericFraction::Infinity(sign)
        }
    }

    // Each maker of the source has its own name; what they share is one function.
    pub fn new(num: T, den: T) -> GenericFraction<T>
        ensures made { Made Plus (T.number num) (T.number den) (meant T.number result) }
        ensures only { Only Plus (T.number num) (T.number den) (meant T.number result) }
        ensures sound { Sound (meant T.number result) }
    {
        Self::new_signed(Sign::Plus, num, den)
    }

    pub fn new_neg(num: T, den: T) -> GenericFraction<T>
        ensures made { Made Minus (T.number num) (T.number den) (meant T.number result) }
        ensures only { Only Minus (T.number num) (T.number den) (meant T.number result) }
        ensures sound { Sound (meant T.number result) }
    {
        Self::new_signed(Sign::Minus, num, den)
    }

    // Not reduced; refused with 7 exactly when den is 0.
    pub fn new_raw(num: T, den: T) -> Result<GenericFraction<T>, FractionFault>
        ensures made { MadeRaw T.number Plus (T.number num) (T.number den) result }
        ensures kept { IfOk result (λ f. f ≡ raw Plus num den) }
        ensures sound { IfOk result (λ f. Sound (meant T.number f)) }
    {
        Self::new_raw_signed(Sign::Plus, num, den)
    }

    // Not reduced; refused with 7 exactly when den is 0.
    pub fn new_raw_signed(sign: Sign, num: T, den: T) -> Result<GenericFraction<T>, FractionFault>
        ensures made { MadeRaw T.number sign (T.number num) (T.number den) result }
        ensures kept { IfOk result (λ f. f ≡ raw sign num den) }
        ensures sound { IfOk result (λ f. Sound (meant T.number f)) }
    {
        let ratio = Ratio::new(num, den).ok_or(FractionFault::ZeroDenominator)?;
        Ok(GenericFraction::Rational(sign, ratio))
    }
}
