// The fraction of a division.
ghost use Rattle.std.specs.Prelude.{◌≡◌, ◌≤◌, OnErr};
ghost use Rattle.division.specs.Proper.{Block, Continues};
ghost use Rattle.division.specs.Resume.{Resumes};

use crate::block::put_four;
use crate::proper::Proper;
use crate::sink::{Answer, DigitSink};
use crate::state::{DivisionState, Refused, Resumed};
use generic::integer::GenericInteger;

// Offers the next four digits, from one division, where others follow them.
fn offer_four<T: GenericInteger, S: DigitSink>(
    fraction: &Proper<T>,
    sink: &mut S,
) -> Option<Proper<T>>
    requires { 4 ≤ S.left sink.old }
    ensures { Block S.DigitSink fraction.now sink.old sink.new result }
{
    let (four, after) = fraction.next_four();
    if after.remainder.is_zero() {
        return None;
    }
    put_four(sink, four);
    Some(after)
}

// Offers the next digits one by one until the fraction ends or the sink wants no more, and answers the fraction then.
fn ones<T: GenericInteger, S: DigitSink>(first: Proper<T>, sink: &mut S) -> Proper<T>
    ensures { Continues S.DigitSink first sink.old sink.new result }
{
    let mut fraction = first;
    'digits: while !fraction.remainder.is_zero() {
        let (digit, after) = fraction.next_digit();
        match sink.offer(digit) {
            Answer::More => fraction = after,
            Answer::Enough => {
                fraction = after;
                break;
            }
            Answer::Full => break,
            // No digit of a fraction is above 9.
            Answer::NotDigit => unreachable(),
        }
    }
    fraction
}

// The same, with four digits from one division while the sink takes as many and others follow them.
fn advance<T: GenericInteger, S: DigitSink>(first: Proper<T>, sink: &mut S) -> Proper<T>
    ensures { Continues S.DigitSink first sink.old sink.new result }
{
    let mut fraction = first;
    'fours: while sink.left() >= 4 {
        match offer_four(&fraction, sink) {
            Some(after) => fraction = after,
            None => break,
        }
    }
    ones(fraction, sink)
}

// Goes on with the fraction, and hands back the state after the digits taken. Refused with 7 where the divisor is 0, and else
// with 8 where the remainder is not below it: nothing is then offered, and the very state is handed back.
pub fn divide_rem_resume<T: GenericInteger, S: DigitSink>(
    state: DivisionState<T>,
    sink: &mut S,
) -> Result<Resumed<T>, Refused<T>>
    ensures resumes { Resumes T.CountingNumber S.DigitSink state.remainder state.divisor sink.old sink.new result }
    ensures unchanged { OnErr result (sink.new ≡ sink.old) }
{
    match Proper::new(state.remainder, state.divisor) {
        Ok(fraction) => {
            let Proper { remainder, divisor } = advance(fraction, sink);
            Ok(Resumed {
                state: DivisionState { remainder, divisor },
            })
        }
        // No `?`: the state goes back with the fault.
        Err(fault) => Err(Refused { state, fault }),
    }
}

// Begins the division of the remainder by the divisor, with no whole part, and goes on with it.
pub fn divide_rem<T: GenericInteger, S: DigitSink>(
    remainder: T,
    divisor: T,
    sink: &mut S,
) -> Result<Resumed<T>, Refused<T>>
    ensures resumes { Resumes T.CountingNumber S.DigitSink remainder divisor sink.old sink.new result }
    ensures unchanged { OnErr result (sink.new ≡ sink.old) }
{
    divide_rem_resume(DivisionState::new(remainder, divisor), sink)
}
