// Fractions.
use division::counter::Counter;
use division::fault::DivisionFault;
use division::fraction::{divide_rem, divide_rem_resume};
use division::sink::DigitSink;
use division::state::DivisionState;
use division::text::TextSink;
use std::test::Fail;

// The digit of r over d, in ASCII, and the remainder after it.
fn one_digit(r: u16, d: u16) -> (u8, u16) {
    let mut text = [0u8; 1];
    let mut sink = TextSink::new(&mut text);
    match divide_rem(r, d, &mut sink) {
        Ok(resumed) => (text[0], resumed.state.remainder()),
        Err(refused) => (text[0], refused.state.remainder()),
    }
}

#[test]
fn ten_times_the_remainder_passes_the_type(rt: HostRuntime) {
    assert_eq!(rt; one_digit(65533, 65535), (b'9', 65515));
    assert_eq!(rt; one_digit(58981, 65535), (b'8', 65530));
}

// Four digits at a time, and then two: ten thousand times the remainder passes the type.
#[test]
fn close_to_one(rt: HostRuntime) -> Result<(), Fail> {
    let mut text = [0u8; 22];
    let mut sink = TextSink::new(&mut text);
    match divide_rem(
        18_446_744_073_709_551_556u64,
        18_446_744_073_709_551_557u64,
        &mut sink,
    ) {
        Ok(resumed) => {
            assert_eq!(rt; resumed.state.remainder(), 16_582_032_024_286_495_451);
            assert_eq!(rt; text, *b"9999999999999999999457");
            Ok(())
        }
        Err(_) => Err(Fail::new("refused")),
    }
}

#[test]
fn an_eighth(rt: HostRuntime) -> Result<(), Fail> {
    let mut text = [0u8; 6];
    let mut sink = TextSink::new(&mut text);
    match divide_rem(1u16, 8u16, &mut sink) {
        Ok(resumed) => {
            assert_eq!(rt; sink.taken(), 3);
            assert_eq!(rt; sink.left(), 3);
            assert_eq!(rt; resumed.state.remainder(), 0);
            assert_eq!(rt; text, *b"125\0\0\0");
            Ok(())
        }
        Err(_) => Err(Fail::new("refused")),
    }
}

#[test]
fn a_third_goes_on(rt: HostRuntime) -> Result<(), Fail> {
    let mut count = Counter::new(40);
    match divide_rem(1u16, 3u16, &mut count) {
        Ok(resumed) => {
            assert_eq!(rt; count.taken(), 40);
            assert_eq!(rt; count.left(), 0);
            assert_eq!(rt; resumed.state.remainder(), 1);
            Ok(())
        }
        Err(_) => Err(Fail::new("refused")),
    }
}

// A sink that is full from the start loses no digit, and the next sink has them all.
#[test]
fn none_left(rt: HostRuntime) -> Result<(), Fail> {
    let mut none = Counter::new(0);
    let mut text = [0u8; 4];
    match divide_rem(3u16, 16u16, &mut none) {
        Ok(resumed) => {
            assert_eq!(rt; none.taken(), 0);
            assert_eq!(rt; resumed.state.remainder(), 3);
            let mut sink = TextSink::new(&mut text);
            let _ = divide_rem_resume(resumed.state, &mut sink);
            assert_eq!(rt; sink.taken(), 4);
            assert_eq!(rt; text, *b"1875");
            Ok(())
        }
        Err(_) => Err(Fail::new("refused")),
    }
}

// A refused call offers nothing and hands back its state, as often as it is made.
#[test]
fn refused(rt: HostRuntime) -> Result<(), Fail> {
    let mut count = Counter::new(9);
    match divide_rem(5u16, 0u16, &mut count) {
        Ok(_) => Err(Fail::new("divided by 0")),
        Err(first) => {
            assert_eq!(rt; first.fault, DivisionFault::ZeroDivisor);
            match divide_rem_resume(first.state, &mut count) {
                Ok(_) => Err(Fail::new("divided by 0")),
                Err(second) => {
                    assert_eq!(rt; second.fault, DivisionFault::ZeroDivisor);
                    assert_eq!(rt; second.state.remainder(), 5);
                    assert_eq!(rt; second.state.divisor(), 0);
                    assert_eq!(rt; count.taken(), 0);
                    assert_eq!(rt; count.left(), 9);
                    Ok(())
                }
            }
        }
    }
}

#[test]
fn not_below(rt: HostRuntime) -> Result<(), Fail> {
    let mut count = Counter::new(9);
    match divide_rem_resume(DivisionState::new(5u16, 5u16), &mut count) {
        Ok(_) => Err(Fail::new("not refused")),
        Err(refused) => {
            assert_eq!(rt; refused.fault, DivisionFault::RemainderNotBelow);
            assert_eq!(rt; refused.state.remainder(), 5);
            assert_eq!(rt; refused.state.divisor(), 5);
            assert_eq!(rt; count.taken(), 0);
            Ok(())
        }
    }
}
