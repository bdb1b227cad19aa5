// The whole part of a division.
ghost use Rattle.std.specs.Prelude.{◌≡◌, ◌-◌, ◌*◌, ◌^◌, ◌<◌, ◌≤◌};
ghost use Rattle.division.specs.Sound.{SoundState};
ghost use Rattle.division.specs.Whole.{Begun, Opens, Integrates, Follows};

use crate::block::put_all;
use crate::fault::DivisionFault;
use crate::sink::{Answer, DigitSink};
use crate::state::{Division, DivisionState, IntegralState};
use generic::integer::GenericInteger;

// Begins the division of n by d, with all digits of its whole part to come. Refused with 7 exactly when d is 0.
pub fn open<T: GenericInteger>(n: T, d: T) -> Result<IntegralState<T>, DivisionFault>
    ensures { Opens T.CountingNumber n d result }
{
    if d.is_zero() {
        Err(DivisionFault::ZeroDivisor)
    } else {
        Ok(begun(n, d))
    }
}

// The unit of the first digit is the greatest that n reaches, or the divisor itself.
fn begun<T: GenericInteger>(n: T, d: T) -> IntegralState<T>
    requires { 0 < T.number d }
    ensures { Begun T.CountingNumber n d result }
{
    let ten = T::ten();
    let mut unit = d;
    let mut place = 1;
    'widen: while let Some(next) = ten.checked_mul(unit) {
        if n.compare(next).is_lt() {
            break;
        }
        unit = next;
        place += 1;
    }
    IntegralState {
        rest: n,
        divisor: d,
        unit,
        place,
    }
}

// The state after a digit, with what it leaves of the rest.
fn after<T: GenericInteger>(state: IntegralState<T>, rest: T) -> Division<T>
    requires sound { SoundState T.CountingNumber state }
    requires rest { T.number rest < T.number state.unit }
    ensures { Follows T.CountingNumber state rest result }
{
    let divisor = state.divisor;
    if state.place == 1 {
        Division::Fraction {
            state: DivisionState {
                remainder: rest,
                divisor,
            },
        }
    } else {
        let (unit, _) = state.unit.div_rem(T::ten()).unwrap();
        Division::Whole {
            state: IntegralState {
                rest,
                divisor,
                unit,
                place: state.place - 1,
            },
        }
    }
}

// Goes on with the whole part, and hands back the state after the digits taken: paused while digits of it are to come.
pub fn divide_integral<T: GenericInteger, S: DigitSink>(
    state: IntegralState<T>,
    sink: &mut S,
) -> Division<T>
    requires { SoundState T.CountingNumber state }
    ensures { Integrates T.CountingNumber S.DigitSink state sink.old sink.new result }
{
    // One digit or two cost less one by one.
    if state.place > 2 && u16::from(state.place) <= sink.left() {
        at_once(state, sink)
    } else {
        advance(state, sink)
    }
}

// Offers all digits of the whole part that are still to come, from one division, to a sink that takes as many.
fn at_once<T: GenericInteger, S: DigitSink>(state: IntegralState<T>, sink: &mut S) -> Division<T>
    requires sound { SoundState T.CountingNumber state }
    requires some { state.place ≤ S.left sink.old }
    ensures { Integrates T.CountingNumber S.DigitSink state sink.old sink.new result }
{
    let (quotient, remainder) = state.rest.div_rem(state.divisor).unwrap();
    put_all(sink, quotient.to_u64(), state.place);
    Division::Fraction {
        state: DivisionState {
            remainder,
            divisor: state.divisor,
        },
    }
}

// Offers the next digits of the whole part one by one until it ends or the sink wants no more.
fn advance<T: GenericInteger, S: DigitSink>(first: IntegralState<T>, sink: &mut S) -> Division<T>
    requires { SoundState T.CountingNumber first }
    ensures { Integrates T.CountingNumber S.DigitSink first sink.old sink.new result }
{
    let mut state = first;
    'digits: loop {
        let (digit, rest) = state.rest.div_rem(state.unit).unwrap();
        match sink.offer(digit.to_u8().unwrap()) {
            // No digit of a whole part is above 9.
            Answer::NotDigit => unreachable(),
            Answer::Full => return Division::Whole { state },
            Answer::Enough => return after(state, rest),
            Answer::More => match after(state, rest) {
                Division::Whole { state: next } => state = next,
                ended => return ended,
            },
        }
    }
}
