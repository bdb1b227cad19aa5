// The depth that a record holds.
ghost use Rattle.std.specs.Prelude.{◌≡◌};
ghost use Rattle.fraction.specs.Meaning.{meant, Sound};
ghost use Rattle.record.specs.Depths.{depth};

use fraction::generic_fraction::GenericFraction;
use generic::counting::CountingNumber;
use generic::sign::Sign;

// The terms as they came. Over 0, a numerator is an infinity of the sign, and 0 is no number.
pub fn depth_of(sign: Sign, numerator: u64, denominator: u64) -> GenericFraction<u64>
    ensures value { result ≡ depth sign numerator denominator }
    ensures sound { Sound (meant ⟦<u64 as CountingNumber>⟧.number result) }
{
    match GenericFraction::new_raw_signed(sign, numerator, denominator) {
        Ok(fraction) => fraction,
        Err(_) if numerator == 0 => GenericFraction::NaN,
        Err(_) => GenericFraction::Infinity(sign),
    }
}
