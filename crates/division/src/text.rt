// A sink that writes ASCII digits into a buffer of the caller's, from its front on.
ghost use Rattle.std.specs.Prelude.{◌≡◌, ◌<◌, min, length, take, [], ◌∷◌};
ghost use Rattle.std.proofs.Common.{arith};
ghost use Rattle.division.specs.Order.{text_stays, text_joins};
ghost use Rattle.division.specs.Digits.{ascii_number};
ghost use Rattle.division.specs.Sink.{Takes};
ghost use Rattle.division.specs.Sinks.{text, Stands};

use crate::sink::{Answer, DigitSink};

#[derive(Drop)]
pub struct TextSink<'a> {
    // The caller's own.
    buffer: &'a mut [u8],
    taken: u16,
}

impl<'a> TextSink<'a> {
    pub fn new(buffer: &'a mut [u8]) -> TextSink<'a>
        ensures begins { Stands text result 0 (min (length buffer.old) 65535) 0 }
        ensures buffer { (result.buffer.now ≡ buffer.old) × (result.buffer.ghost_name ≡ buffer.entry.ghost_name) × (result.taken ≡ 0) }
    {
        TextSink { buffer, taken: 0 }
    }

    pub fn finish(self) -> &'a mut [u8]
        ensures buffer { (result.now ≡ self.entry.buffer.now) × (result.ghost_name ≡ self.entry.buffer.ghost_name) }
        ensures number { ascii_number (take (text.taken self.entry) result.now) ≡ text.held self.entry }
    {
        let TextSink { buffer, taken: _ } = self;
        buffer
    }

    // Writes one more digit, for which there is room.
    fn put(&mut self, digit: u8)
        requires digit { digit < 10 }
        requires room { 0 < text.left self.old }
        ensures { Takes text self.old (digit ∷ []) self.new }
    {
        self.buffer[self.taken as usize] = b'0' + digit;
        self.taken += 1;
    }
}

impl<'a> DigitSink for TextSink<'a> {
    ghost taken = { text.taken };

    ghost left = { text.left };

    ghost held = { text.held };

    ghost step = { text.step };

    ghost on = { text.on };

    // As the counter's but for the put: a default in the trait would need one more member, for what taking does.
    fn offer(&mut self, digit: u8) -> Answer {
        if digit > 9 {
            return Answer::NotDigit;
        }
        let left = self.left();
        if left == 0 {
            return Answer::Full;
        }
        self.put(digit);
        Answer::taking(left)
    }

    fn taken(&self) -> u16 {
        self.taken
    }

    fn left(&self) -> u16 {
        (self.buffer.len().min(65535) as u16).saturating_sub(self.taken)
    }

    ghost bounded = { λ s. Prim.omega arith };

    ghost order = { record { stays = λ s. text_stays _ _ _; joins = λ s t u. text_joins _ _ _ _ _ _ _ _ _ } };
}
