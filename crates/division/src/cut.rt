// A layer over any sink, with a limit of its own.
ghost use Rattle.std.specs.Prelude.{◌≡◌, min};
ghost use Rattle.std.proofs.Common.{arith};
ghost use Rattle.division.specs.Sinks.{cut, Stands};

use crate::sink::{Answer, DigitSink};

#[derive(Drop)]
pub struct Cut<S> {
    below: S,
    // How many digits the layer still lets through.
    limit: u16,
}

impl<S: DigitSink> Cut<S> {
    pub fn new(below: S, limit: u16) -> Cut<S>
        ensures begins { Stands (cut S.DigitSink) result (S.taken below) (min limit (S.left below)) (S.held below) }
        ensures below { result.below ≡ below }
    {
        Cut { below, limit }
    }

    pub fn into_below(self) -> S
        ensures stands { (S.taken result ≡ (cut S.DigitSink).taken self) × (S.held result ≡ (cut S.DigitSink).held self) }
        ensures below { result ≡ self.below }
    {
        let Cut { below, limit: _ } = self;
        below
    }
}

impl<S: DigitSink> DigitSink for Cut<S> {
    ghost taken = { (cut S.DigitSink).taken };

    ghost left = { (cut S.DigitSink).left };

    ghost held = { (cut S.DigitSink).held };

    ghost step = { (cut S.DigitSink).step };

    ghost on = { (cut S.DigitSink).on };

    fn offer(&mut self, digit: u8) -> Answer {
        if digit > 9 {
            return Answer::NotDigit;
        }
        if self.limit == 0 {
            return Answer::Full;
        }
        let answer = self.below.offer(digit);
        if let Answer::NotDigit | Answer::Full = answer {
            return answer;
        }
        self.limit -= 1;
        if self.limit == 0 {
            Answer::Enough
        } else {
            answer
        }
    }

    fn taken(&self) -> u16 {
        self.below.taken()
    }

    fn left(&self) -> u16 {
        self.below.left().min(self.limit)
    }

    ghost bounded = { λ s. Prim.omega (arith, S.bounded s.below) };

    ghost order = { record { stays = λ s. S.order.stays s.below; joins = λ s t u. S.order.joins s.below t.below u.below } };
}
