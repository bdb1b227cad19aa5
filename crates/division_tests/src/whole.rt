// Whole parts.
use division::counter::Counter;
use division::fault::DivisionFault;
use division::fraction::divide_rem_resume;
use division::sink::DigitSink;
use division::state::Division;
use division::text::TextSink;
use division::whole::{divide_integral, open};
use generic::counting::CountingNumber;
use packed::packed_decimal::PackedDecimal;
use std::test::Fail;

#[test]
fn thirty_over_two(rt: HostRuntime) -> Result<(), Fail> {
    let mut text = [0u8; 1];
    let mut sink = TextSink::new(&mut text);
    let state = open(30u16, 2u16)?;
    assert_eq!(rt; state.place(), 2);
    match divide_integral(state, &mut sink) {
        Division::Whole { state } => {
            assert_eq!(rt; text, *b"1");
            assert_eq!(rt; state.rest(), 10);
            assert_eq!(rt; state.place(), 1);
            Ok(())
        }
        Division::Fraction { .. } => Err(Fail::new("ended")),
    }
}

// The whole part of 101 over 1 pauses after its first digit, and goes on with the zero.
#[test]
fn paused_and_resumed(rt: HostRuntime) -> Result<(), Fail> {
    let mut front = [0u8; 1];
    let mut back = [0u8; 2];
    let mut first = TextSink::new(&mut front);
    let mut second = TextSink::new(&mut back);
    match divide_integral(open(101u16, 1u16)?, &mut first) {
        Division::Whole { state } => match divide_integral(state, &mut second) {
            Division::Fraction { state } => {
                assert_eq!(rt; front, *b"1");
                assert_eq!(rt; back, *b"01");
                assert_eq!(rt; state.remainder(), 0);
                Ok(())
            }
            Division::Whole { .. } => Err(Fail::new("paused")),
        },
        Division::Fraction { .. } => Err(Fail::new("ended")),
    }
}

// All twenty digits of the greatest u64, and all seventeen of it over 700.
#[test]
fn all_at_once(rt: HostRuntime) -> Result<(), Fail> {
    let mut twenty = [0u8; 20];
    let mut less = [0u8; 20];
    let _ = divide_integral(open(u64::MAX, 1u64)?, &mut TextSink::new(&mut twenty));
    assert_eq!(rt; twenty, *b"18446744073709551615");
    match divide_integral(open(u64::MAX, 700u64)?, &mut TextSink::new(&mut less)) {
        Division::Fraction { state } => {
            assert_eq!(rt; less, *b"26352491533870788\0\0\0");
            assert_eq!(rt; state.remainder(), 15);
            Ok(())
        }
        Division::Whole { .. } => Err(Fail::new("paused")),
    }
}

// A sink that is full from the start loses no digit.
#[test]
fn none_left(rt: HostRuntime) -> Result<(), Fail> {
    let mut none = Counter::new(0);
    match divide_integral(open(7u16, 9u16)?, &mut none) {
        Division::Whole { state } => {
            assert_eq!(rt; state.rest(), 7);
            assert_eq!(rt; state.place(), 1);
            assert_eq!(rt; none.taken(), 0);
            Ok(())
        }
        Division::Fraction { .. } => Err(Fail::new("ended")),
    }
}

#[test]
fn refused(rt: HostRuntime) -> Result<(), Fail> {
    match open(30u16, 0u16) {
        Ok(_) => Err(Fail::new("opened")),
        Err(fault) => {
            assert_eq!(rt; fault, DivisionFault::ZeroDivisor);
            Ok(())
        }
    }
}

// 1001 over 8 is 125.125, in packed decimals too.
#[test]
fn packed(rt: HostRuntime) -> Result<(), Fail> {
    let mut front = [0u8; 3];
    let mut back = [0u8; 3];
    let mut whole = TextSink::new(&mut front);
    let mut fraction = TextSink::new(&mut back);
    let n = PackedDecimal::from_word(0x1001)?;
    let d = PackedDecimal::from_word(0x8)?;
    match divide_integral(open(n, d)?, &mut whole) {
        Division::Fraction { state } => {
            assert_eq!(rt; state.remainder().to_u64(), 1);
            match divide_rem_resume(state, &mut fraction) {
                Ok(resumed) => {
                    assert_eq!(rt; front, *b"125");
                    assert_eq!(rt; back, *b"125");
                    assert!(rt; resumed.state.remainder().is_zero());
                    Ok(())
                }
                Err(_) => Err(Fail::new("refused")),
            }
        }
        Division::Whole { .. } => Err(Fail::new("paused")),
    }
}
