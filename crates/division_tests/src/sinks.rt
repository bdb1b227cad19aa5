// Sinks by themselves.
use division::counter::Counter;
use division::cut::Cut;
use division::fraction::divide_rem;
use division::sink::{Answer, DigitSink};
use division::text::TextSink;

#[test]
fn answers(rt: HostRuntime) {
    let mut count = Counter::new(2);
    assert_eq!(rt; count.offer(10), Answer::NotDigit);
    assert_eq!(rt; count.offer(9), Answer::More);
    assert_eq!(rt; count.offer(0), Answer::Enough);
    assert_eq!(rt; count.offer(0), Answer::Full);
    assert_eq!(rt; count.offer(10), Answer::NotDigit);
    assert_eq!(rt; count.taken(), 2);
}

#[test]
fn text(rt: HostRuntime) {
    let mut buffer = *b"....";
    let mut sink = TextSink::new(&mut buffer);
    assert_eq!(rt; sink.offer(4), Answer::More);
    assert_eq!(rt; sink.offer(2), Answer::More);
    assert_eq!(rt; sink.taken(), 2);
    assert_eq!(rt; sink.left(), 2);
    let _ = sink.finish();
    assert_eq!(rt; buffer, *b"42..");
}

// Two digits of a seventh: 0.142857..
#[test]
fn cut_over_text(rt: HostRuntime) {
    let mut buffer = *b"....";
    let mut cut = Cut::new(TextSink::new(&mut buffer), 2);
    assert_eq!(rt; cut.left(), 2);
    let _ = divide_rem(1u16, 7u16, &mut cut);
    assert_eq!(rt; cut.offer(5), Answer::Full);
    let below = cut.into_below();
    assert_eq!(rt; below.taken(), 2);
    assert_eq!(rt; below.left(), 2);
    assert_eq!(rt; buffer, *b"14..");
}
