// A sink that only counts.
ghost use Rattle.std.proofs.Common.{arith};
ghost use Rattle.division.specs.Sinks.{counter, Stands};

use crate::sink::{Answer, DigitSink};

#[derive(Drop)]
pub struct Counter {
    taken: u16,
    limit: u16,
}

impl Counter {
    pub fn new(left: u16) -> Counter
        ensures { Stands counter result 0 left 0 }
    {
        Counter {
            taken: 0,
            limit: left,
        }
    }
}

impl DigitSink for Counter {
    ghost taken = { counter.taken };

    ghost left = { counter.left };

    ghost held = { counter.held };

    ghost step = { counter.step };

    ghost on = { counter.on };

    fn offer(&mut self, digit: u8) -> Answer {
        if digit > 9 {
            return Answer::NotDigit;
        }
        let left = self.left();
        if left == 0 {
            return Answer::Full;
        }
        self.taken += 1;
        Answer::taking(left)
    }

    fn taken(&self) -> u16 {
        self.taken
    }

    fn left(&self) -> u16 {
        self.limit.saturating_sub(self.taken)
    }

    ghost bounded = { λ s. Prim.omega arith };

    ghost order = { record { stays = λ s. tt; joins = λ s t u p q. tt } };
}
