// Digits that their caller knows a sink to take.
ghost use Rattle.std.specs.Prelude.{◌≡◌, ◌*◌, ◌/◌, ◌%◌, ◌^◌, ◌<◌, ◌≤◌, [], ◌∷◌};
ghost use Rattle.division.specs.Expansion.{digits};
ghost use Rattle.division.specs.Sink.{Takes};

use crate::sink::{Answer, DigitSink};

// Offers a digit that the sink takes. A digit is a u8 with a clause, here and in the sinks, since the interface offers any u8.
pub(crate) fn put<S: DigitSink>(sink: &mut S, digit: u8)
    requires digit { digit < 10 }
    requires some { 0 < S.left sink.old }
    ensures { Takes S.DigitSink sink.old (digit ∷ []) sink.new }
{
    // That it is taken is said to the compiler too: with `let _`, a digit of the fraction costs up to two thirds more.
    if let Answer::NotDigit | Answer::Full = sink.offer(digit) {
        unreachable()
    }
}

// The four digits of a number below ten thousand, highest first, each from what those above it leave.
pub(crate) fn put_four<S: DigitSink>(sink: &mut S, number: u16)
    requires number { number < 10_000 }
    requires some { 4 ≤ S.left sink.old }
    ensures { Takes S.DigitSink sink.old (digits 1 number 4 4) sink.new }
{
    let hundreds = number % 1000;
    let tens = hundreds % 100;
    put(sink, (number / 1000) as u8);
    put(sink, (hundreds / 100) as u8);
    put(sink, (tens / 10) as u8);
    put(sink, (tens % 10) as u8);
}

// As many digits of a number below ten to their count, one to four, highest first. Each count is written out, as in split.
fn put_group<S: DigitSink>(sink: &mut S, number: u16, count: u8)
    requires any { 0 < count }
    requires few { count ≤ 4 }
    requires number { number < 10 ^ count }
    requires some { count ≤ S.left sink.old }
    ensures { Takes S.DigitSink sink.old (digits 1 number count count) sink.new }
{
    match count {
        1 => put(sink, number as u8),
        2 => {
            put(sink, (number / 10) as u8);
            put(sink, (number % 10) as u8);
        }
        3 => {
            put(sink, (number / 100) as u8);
            put(sink, (number / 10 % 10) as u8);
            put(sink, (number % 10) as u8);
        }
        _ => put_four(sink, number),
    }
}

// A number split above its last groups of four digits. Each divisor is a constant, by which the compiler makes no division:
// with a power that is computed, twenty digits take two and a half times as long.
fn split(number: u64, groups: u8) -> (u16, u64)
    requires groups { groups ≤ 4 }
    requires high { number / 10 ^ (4 * groups) < 10_000 }
    ensures { (result.0 ≡ number / 10 ^ (4 * groups)) × (result.1 ≡ number % 10 ^ (4 * groups)) }
{
    match groups {
        0 => (number as u16, 0),
        1 => ((number / 10_000) as u16, number % 10_000),
        2 => ((number / 100_000_000) as u16, number % 100_000_000),
        3 => (
            (number / 1_000_000_000_000) as u16,
            number % 1_000_000_000_000,
        ),
        _ => (
            (number / 10_000_000_000_000_000) as u16,
            number % 10_000_000_000_000_000,
        ),
    }
}

// As many digits of a number below ten to their count, one to twenty, in groups of four after the first.
pub(crate) fn put_all<S: DigitSink>(sink: &mut S, number: u64, count: u8)
    requires any { 0 < count }
    requires few { count ≤ 20 }
    requires number { number < 10 ^ count }
    requires some { count ≤ S.left sink.old }
    ensures { Takes S.DigitSink sink.old (digits 1 number count count) sink.new }
{
    let groups = (count - 1) / 4;
    let (first, mut rest) = split(number, groups);
    put_group(sink, first, count - 4 * groups);
    for groups in (0..groups).rev() {
        let (four, below) = split(rest, groups);
        put_group(sink, four, 4);
        rest = below;
    }
}
