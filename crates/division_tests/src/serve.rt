// Sinks served one after another.
use division::counter::Counter;
use division::fault::DivisionFault;
use division::serve::{serve, serve_rem};
use division::sink::DigitSink;
use division::state::Division;
use std::test::Fail;

// 101 over 8 is 12.625: its whole part is paused after a digit and meets a full sink, and its fraction is paused too.
#[test]
fn pauses(rt: HostRuntime) -> Result<(), Fail> {
    let mut sinks = [
        Counter::new(1),
        Counter::new(0),
        Counter::new(9),
        Counter::new(2),
        Counter::new(9),
    ];
    match serve(101u16, 8u16, &mut sinks) {
        Ok(Division::Fraction { state }) => {
            assert_eq!(rt; sinks[0].taken(), 1);
            assert_eq!(rt; sinks[1].taken(), 0);
            assert_eq!(rt; sinks[2].taken(), 1);
            assert_eq!(rt; sinks[3].taken(), 2);
            assert_eq!(rt; sinks[4].taken(), 1);
            assert_eq!(rt; state.remainder(), 0);
            Ok(())
        }
        Ok(Division::Whole { state: _ }) => Err(Fail::new("still in the whole part")),
        Err(_) => Err(Fail::new("refused")),
    }
}

#[test]
fn zero_divisor(rt: HostRuntime) -> Result<(), Fail> {
    let mut sinks = [Counter::new(3)];
    match serve(101u16, 0u16, &mut sinks) {
        Ok(_) => Err(Fail::new("divided by 0")),
        Err(fault) => {
            assert_eq!(rt; fault, DivisionFault::ZeroDivisor);
            assert_eq!(rt; sinks[0].left(), 3);
            Ok(())
        }
    }
}

// Every call is refused, and nothing changes.
#[test]
fn not_below(rt: HostRuntime) -> Result<(), Fail> {
    let mut sinks = [Counter::new(3), Counter::new(1)];
    match serve_rem(7u16, 7u16, &mut sinks) {
        Division::Fraction { state } => {
            assert_eq!(rt; sinks[0].taken(), 0);
            assert_eq!(rt; sinks[1].left(), 1);
            assert_eq!(rt; state.remainder(), 7);
            assert_eq!(rt; state.divisor(), 7);
            Ok(())
        }
        Division::Whole { state: _ } => Err(Fail::new("a whole part")),
    }
}
