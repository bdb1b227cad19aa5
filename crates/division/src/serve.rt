// Sinks served one after another by one division.
ghost use Rattle.division.specs.Laws.{NoDigitLost};
ghost use Rattle.division.specs.Serve.{SoundDivision, Steps, Served, Leads, ServedWhole};
ghost use Rattle.division.specs.Sound.{SoundState};
ghost use Rattle.division.specs.declared.state.Division.TheVariants.{Fraction};

use crate::fault::DivisionFault;
use crate::fraction::divide_rem_resume;
use crate::sink::DigitSink;
use crate::state::{Division, DivisionState, IntegralState};
use crate::whole::{divide_integral, open};
use generic::integer::GenericInteger;

// Serves the sinks, one after another, with the digits of n over d: one call for each, on the state that the one before handed
// back. Refused with 7 exactly when d is 0. No run of calls loses a digit, and neither does this one.
#[tactic(auto, using(crate::proofs::Lost::no_digit_lost))]
pub fn serve<T: GenericInteger, S: DigitSink>(
    n: T,
    d: T,
    sinks: &mut [S],
) -> Result<Division<T>, DivisionFault>
    ensures law { NoDigitLost }
    ensures run { ServedWhole T.CountingNumber S.DigitSink n d sinks.old sinks.new result }
{
    Ok(serve_opened(open(n, d)?, sinks))
}

// The same with a division begun without a whole part. Where 7 or 8 refuses its calls, no sink and no number changes.
#[tactic(auto, using(crate::proofs::Lost::no_digit_lost))]
pub fn serve_rem<T: GenericInteger, S: DigitSink>(
    remainder: T,
    divisor: T,
    sinks: &mut [S],
) -> Division<T>
    ensures law { NoDigitLost }
    ensures run { Served T.CountingNumber S.DigitSink (Fraction (record { remainder = remainder; divisor = divisor })) sinks.old sinks.new result }
{
    let state = DivisionState::new(remainder, divisor);
    serve_on(Division::Fraction { state }, sinks)
}

// From a state in the whole part on.
fn serve_opened<T: GenericInteger, S: DigitSink>(
    state: IntegralState<T>,
    sinks: &mut [S],
) -> Division<T>
    requires { SoundState T.CountingNumber state }
    ensures { Leads T.CountingNumber S.DigitSink state sinks.old sinks.new result }
{
    serve_on(Division::Whole { state }, sinks)
}

// One call on a division, wherever it stands. This and the next are inlined, so that a run of refused calls, or of sinks that want
// nothing, doesn't move the division from call to call.
#[inline(always)]
fn next<T: GenericInteger, S: DigitSink>(division: Division<T>, sink: &mut S) -> Division<T>
    requires { SoundDivision T.CountingNumber division }
    ensures { Steps T.CountingNumber S.DigitSink division sink.old sink.new result }
{
    match division {
        Division::Whole { state } => divide_integral(state, sink),
        Division::Fraction { state } => match divide_rem_resume(state, sink) {
            Ok(resumed) => Division::Fraction {
                state: resumed.state,
            },
            Err(refused) => Division::Fraction {
                state: refused.state,
            },
        },
    }
}

// One call for each sink, in order, on the state that the one before handed back.
#[inline(always)]
fn serve_on<T: GenericInteger, S: DigitSink>(start: Division<T>, sinks: &mut [S]) -> Division<T>
    requires { SoundDivision T.CountingNumber start }
    ensures { Served T.CountingNumber S.DigitSink start sinks.old sinks.new result }
{
    let mut division = start;
    for sink in sinks {
        division = next(division, sink);
    }
    division
}
