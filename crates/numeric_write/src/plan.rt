// What is written of a fraction, worked out before anything is put.
use crate::header::{Header, put_header};
use crate::measured::Measured;
use crate::precision::Precision;
use crate::put::put_groups;
use fraction::generic_fraction::GenericFraction;
use fraction::ratio::Ratio;
use generic::integer::GenericInteger;
use generic::sign::Sign;
use numeric::sign_word::SignWord;

// A case of its own for no groups is plainer than an Option of a measure beside the sign.
#[derive(Drop)]
pub(crate) enum Plan<T: GenericInteger> {
    // A sign word and else zeros: zero, no number and the infinities.
    Bare(SignWord),
    Groups(SignWord, Measured<T>),
}

impl<T: GenericInteger> Plan<T> {
    ghost use Rattle.std.specs.Prelude.{◌≡◌, ◌<◌, ◌≤◌, length};
    ghost use Rattle.fraction.specs.Meaning.{meant, rational, Sound};
    ghost use Rattle.numeric.specs.Buffer.{bytes_needed, placed};
    ghost use Rattle.numeric.specs.Bytes.{package_bytes};
    ghost use Rattle.numeric.specs.Package.{written};
    ghost use Rattle.numeric_write.specs.Plans.{planned};

    pub(crate) fn new(source: &GenericFraction<T>, precision: Precision) -> Plan<T>
        requires { Sound (meant T.number source.now) }
        ensures { planned result ≡ written (meant T.number source.now) precision.digits }
    {
        match *source {
            GenericFraction::Rational(sign, ratio) => Plan::of_ratio(sign, ratio, precision),
            GenericFraction::Infinity(sign) => Plan::Bare(SignWord::of_infinity(sign)),
            GenericFraction::NaN => Plan::Bare(SignWord::NaN),
        }
    }

    // A zero of either sign is plus.
    fn of_ratio(sign: Sign, ratio: Ratio<T>, precision: Precision) -> Plan<T>
        requires { 0 < T.number ratio.denom }
        ensures { planned result ≡ written (rational sign (T.number ratio.numer) (T.number ratio.denom)) precision.digits }
    {
        if ratio.numer().is_zero() {
            return Plan::Bare(SignWord::Plus);
        }
        Plan::Groups(SignWord::of_number(sign), Measured::new(ratio, precision))
    }

    pub(crate) fn bytes_needed(&self) -> usize
        ensures { result ≡ bytes_needed (planned self.now) }
    {
        match self {
            Plan::Bare(_) => 8,
            Plan::Groups(_, measured) => 8 + 2 * usize::from(measured.extent.groups),
        }
    }

    // Puts the package at the front of a part of a buffer that has room for it.
    pub(crate) fn put(self, part: &mut [u8])
        requires { bytes_needed (planned self) ≤ length part.old }
        ensures { part.new ≡ placed part.old 0 (package_bytes (planned self)) }
    {
        match self {
            Plan::Bare(sign) => put_header(part, Header::bare(sign)),
            Plan::Groups(sign, measured) => {
                put_header(part, Header::new(sign, measured.extent));
                put_groups(&mut part[8..], measured);
            }
        }
    }
}
