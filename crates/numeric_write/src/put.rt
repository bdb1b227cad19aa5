// The groups of a package, from the division of its fraction into the caller's buffer.
ghost use Rattle.std.specs.Prelude.{◌≡◌, ◌-◌, ◌*◌, ◌%◌, ◌<◌, ◌≤◌, length};
ghost use Rattle.std.specs.List.{flat_map};
ghost use Rattle.division.specs.Expansion.{coming, rest, Went};
ghost use Rattle.division.specs.Sink.{tally};
ghost use Rattle.division.specs.Sound.{SoundState};
ghost use Rattle.division.specs.Whole.{Width};
ghost use Rattle.numeric.specs.Buffer.{placed};
ghost use Rattle.numeric.specs.Bytes.{word_bytes};
ghost use Rattle.numeric_write.specs.Plans.{groups_in};
ghost use Rattle.numeric_write.specs.declared.shape.Shape.TheVariants.{Below, Mixed, Whole};

use crate::group_sink::GroupSink;
use crate::measured::Measured;
use crate::shape::Shape;
use division::counter::Counter;
use division::fraction::divide_rem_resume;
use division::sink::DigitSink;
use division::state::{Division, DivisionState, IntegralState};
use division::whole::divide_integral;
use generic::integer::GenericInteger;

// How many places of the first group stand before the first of so many whole digits.
fn places_before(digits: u8) -> u8
    ensures { result ≡ (4 - digits % 4) % 4 }
{
    (4 - digits % 4) % 4
}

// The fraction of a division whose whole part is the lone 0, with so many zeros of it passed over.
fn after_zeros<T: GenericInteger>(state: IntegralState<T>, passed: u8) -> DivisionState<T>
    requires sound { SoundState T.CountingNumber state }
    requires opened { Width (T.number state.rest) (T.number state.divisor) state.place }
    requires below { T.number state.rest < T.number state.divisor }
    requires some { coming (T.number state.divisor) (T.number state.rest) passed ≡ passed }
    ensures { (result.divisor ≡ state.divisor) × (T.number result.remainder ≡ rest (T.number state.divisor) (T.number state.rest) 0 passed) }
{
    let mut zeros = Counter::new(1 + u16::from(passed));
    let fraction = fraction_after(state, &mut zeros);
    if passed == 0 {
        return fraction;
    }
    divide_rem_resume(fraction, &mut zeros).unwrap().state
}

// The fraction after all digits of the whole part, which go into a sink that takes as many.
fn fraction_after<T: GenericInteger, S: DigitSink>(
    state: IntegralState<T>,
    sink: &mut S,
) -> DivisionState<T>
    requires sound { SoundState T.CountingNumber state }
    requires room { state.place ≤ S.left sink.old }
    ensures divisor { (result.divisor ≡ state.divisor) × (T.number result.remainder < T.number result.divisor) }
    ensures went { Went S.step (T.number state.divisor) (T.number state.rest) state.place state.place (tally S.DigitSink sink.old) (tally S.DigitSink sink.new) (T.number result.remainder) 0 }
    ensures on { S.on sink.old sink.new }
{
    // The sink takes all digits, so the whole part ends.
    match divide_integral(state, sink) {
        Division::Fraction { state } => state,
        Division::Whole { .. } => unreachable(),
    }
}

// The groups of a fraction below 1, with so many zeros of it passed over. Room and result are said again in the next three: a type
// of part and measure together would serve one call.
fn put_below<T: GenericInteger>(part: &mut [u8], measured: Measured<T>, passed: u8)
    requires shape { measured.extent.shape ≡ Below passed }
    requires some { 0 < measured.extent.groups }
    requires room { 2 * measured.extent.groups ≤ length part.old }
    ensures { part.new ≡ placed part.old 0 (flat_map word_bytes (groups_in measured)) }
{
    let scale = measured.extent.scale;
    let fraction = after_zeros(measured.state, passed);
    let mut sink = GroupSink::new(part, 0, scale - u16::from(passed));
    let _resumed = divide_rem_resume(fraction, &mut sink).unwrap();
    sink.finish();
}

// The groups of a whole part and a fraction.
fn put_mixed<T: GenericInteger>(part: &mut [u8], measured: Measured<T>)
    requires shape { measured.extent.shape ≡ Mixed }
    requires room { 2 * measured.extent.groups ≤ length part.old }
    ensures { part.new ≡ placed part.old 0 (flat_map word_bytes (groups_in measured)) }
{
    let whole = measured.state.place();
    let mut sink = GroupSink::new(
        part,
        places_before(whole),
        u16::from(whole) + measured.extent.scale,
    );
    let fraction = fraction_after(measured.state, &mut sink);
    let _resumed = divide_rem_resume(fraction, &mut sink).unwrap();
    sink.finish();
}

// The groups of a whole number without so many zero groups at its end.
fn put_whole<T: GenericInteger>(part: &mut [u8], measured: Measured<T>, zeros: u8)
    requires shape { measured.extent.shape ≡ Whole zeros }
    requires room { 2 * measured.extent.groups ≤ length part.old }
    ensures { part.new ≡ placed part.old 0 (flat_map word_bytes (groups_in measured)) }
{
    let digits = measured.state.place() - 4 * zeros;
    let mut sink = GroupSink::new(part, places_before(digits), u16::from(digits));
    let _rest = divide_integral(measured.state, &mut sink);
    sink.finish();
}

// The groups of a measured fraction, into the front of a part with room for them; nothing else changes.
pub(crate) fn put_groups<T: GenericInteger>(part: &mut [u8], measured: Measured<T>)
    requires { 2 * measured.extent.groups ≤ length part.old }
    ensures { part.new ≡ placed part.old 0 (flat_map word_bytes (groups_in measured)) }
{
    if measured.extent.groups == 0 {
        return;
    }
    match measured.extent.shape {
        Shape::Below { passed } => put_below(part, measured, passed),
        Shape::Mixed => put_mixed(part, measured),
        Shape::Whole { zeros } => put_whole(part, measured, zeros),
    }
}
