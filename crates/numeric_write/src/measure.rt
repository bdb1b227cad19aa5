// What a package takes of a fraction, measured before anything is written.
ghost use Rattle.std.specs.Prelude.{◌≡◌, ℕ, suc, ◌+◌, ◌-◌, ◌/◌, ◌%◌, ◌<◌, ◌≤◌, pos, negsuc};
ghost use Rattle.division.specs.Expansion.{coming};
ghost use Rattle.division.specs.Whole.{Width};
ghost use Rattle.numeric.specs.Cut.{scale_of};
ghost use Rattle.numeric.specs.Package.{fours};
ghost use Rattle.numeric_write.specs.Measure.{Sized, SizedBy, Ending};
ghost use Rattle.numeric_write.specs.declared.shape.Shape.TheVariants.{Mixed};

use crate::extent::Extent;
use crate::precision::Precision;
use crate::shape::Shape;
use division::counter::Counter;
use division::fraction::divide_rem;
use division::sink::DigitSink;
use division::whole::open;
use fraction::ratio::Ratio;
use generic::integer::GenericInteger;

// No expansion that ends is longer, since no denominator passes 2^64.
const LONGEST_EXPANSION: u16 = 64;

// Of a fraction that is not 0, of whose whole part `places` digits come.
pub(crate) fn measure<T: GenericInteger>(
    ratio: Ratio<T>,
    places: u8,
    precision: Precision,
) -> Extent
    requires some { 0 < T.number ratio.numer }
    requires denom { 0 < T.number ratio.denom }
    requires places { Width (T.number ratio.numer) (T.number ratio.denom) places }
    ensures scale { result.scale ≡ scale_of (T.number ratio.numer) (T.number ratio.denom) precision.digits }
    ensures sized { SizedBy (T.number ratio.numer) (T.number ratio.denom) places result }
{
    let (n, d) = (ratio.numer(), ratio.denom());
    let (whole, remainder) = n.div_rem(d).unwrap();
    let scale = fraction_length(remainder, d, precision.digits);
    if whole.is_zero() {
        return below_one(n, d, scale);
    }
    if scale == 0 {
        return whole_number(whole, places);
    }
    mixed(places, scale)
}

// How many fractional digits come, if at most `most` are wanted.
fn fraction_length<T: GenericInteger>(remainder: T, divisor: T, most: u16) -> u16
    requires { T.number remainder < T.number divisor }
    ensures { result ≡ coming (T.number divisor) (T.number remainder) most }
{
    let mut counter = Counter::new(most.min(LONGEST_EXPANSION));
    let resumed = divide_rem(remainder, divisor, &mut counter).unwrap();
    if resumed.state.remainder().is_zero() {
        counter.taken()
    } else {
        most
    }
}

// How many zeros stand before the first other digit of a fraction below 1: one less than the whole digits of (d - 1) over n.
// Here and in below_one a clause says that n is below d: the division's type for it is private.
fn leading_zeros<T: GenericInteger>(n: T, d: T) -> u8
    requires { (0 < T.number n) × (T.number n < T.number d) }
    ensures { Width (T.number d - 1) (T.number n) (suc result) }
{
    let below = d.checked_sub(T::one()).unwrap();
    open(below, n).unwrap().place() - 1
}

// How many zero groups a whole number ends with.
fn trailing_zero_groups<T: GenericInteger>(whole: T) -> u8
    requires { 0 < T.number whole }
    ensures { Ending (T.number whole) result }
{
    let base = T::from_u16(10_000);
    let mut rest = whole;
    let mut zeros = 0;
    'groups: loop {
        let (above, group) = rest.div_rem(base).unwrap();
        if !group.is_zero() {
            break;
        }
        rest = above;
        zeros += 1;
    }
    zeros
}

// How many groups hold so many digits.
fn groups_for(digits: u16) -> u16
    ensures { result ≡ fours digits }
{
    digits.div_ceil(4)
}

// The weight of a fraction below 1 of which so many full groups are left out.
fn below_weight(left_out: u16) -> i16
    requires { left_out < 5000 }
    ensures { result ≡ negsuc left_out }
{
    -1 - left_out as i16
}

// A fraction below 1.
fn below_one<T: GenericInteger>(n: T, d: T, scale: u16) -> Extent
    requires fraction { (0 < T.number n) × (T.number n < T.number d) }
    requires scale { (0 < scale) × (scale ≤ 16383) }
    ensures { (result.scale ≡ scale) × ((w : ℕ) → Sized (T.number n) (T.number d) w scale result.shape result.groups result.weight) }
{
    let zeros = leading_zeros(n, d);
    let shape = Shape::Below {
        passed: zeros - zeros % 4,
    };
    if scale <= u16::from(zeros) {
        return Extent {
            shape,
            scale,
            groups: 0,
            weight: below_weight(scale / 4),
        };
    }
    let left_out = u16::from(zeros / 4);
    Extent {
        shape,
        scale,
        groups: groups_for(scale) - left_out,
        weight: below_weight(left_out),
    }
}

// A fraction above 1 that is no whole number, of whose whole part `places` digits come.
fn mixed(places: u8, scale: u16) -> Extent
    requires { (0 < places) × (scale ≤ 16383) }
    ensures { (result.shape ≡ Mixed) × (result.scale ≡ scale) × (result.groups ≡ fours places + fours scale) × (result.weight ≡ pos (fours places - 1)) }
{
    let whole = groups_for(u16::from(places));
    Extent {
        shape: Shape::Mixed,
        scale,
        groups: whole + groups_for(scale),
        weight: whole as i16 - 1,
    }
}

// A whole number of so many digits.
fn whole_number<T: GenericInteger>(whole: T, places: u8) -> Extent
    requires { (0 < T.number whole) × (Width (T.number whole) 1 places) }
    ensures { (result.scale ≡ 0) × Sized (T.number whole) 1 places 0 result.shape result.groups result.weight }
{
    let zeros = trailing_zero_groups(whole);
    let groups = groups_for(u16::from(places));
    Extent {
        shape: Shape::Whole { zeros },
        scale: 0,
        groups: groups - u16::from(zeros),
        weight: groups as i16 - 1,
    }
}
