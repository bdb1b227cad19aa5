// Where the digits of a division go.
ghost use Rattle.std.specs.Prelude.{◌≡◌, ℕ, ◌+◌, ◌≤◌, if◌then◌else◌, nat_eq};
ghost use Rattle.division.specs.Order.{Preorder};
ghost use Rattle.division.specs.Tally.{Offered, tally_by};

// What a sink answers to an offered digit: the four cases that the interface fixes, of which Full is no refusal.
#[derive(Clone, Copy, PartialEq, Eq, Debug)]
pub enum Answer {
    // What was offered is above 9.
    NotDigit,
    // No digit is left to take.
    Full,
    // The digit is taken, and was the last.
    Enough,
    // The digit is taken, and more may follow.
    More,
}

impl Answer {
    ghost use Rattle.division.specs.declared.sink.Answer.TheVariants.{Enough, More};

    // The answer that takes a digit, with that many left before it.
    pub fn taking(left: u16) -> Answer
        ensures { result ≡ (if nat_eq left 1 then Enough else More) }
    {
        if left == 1 {
            Answer::Enough
        } else {
            Answer::More
        }
    }
}

pub trait DigitSink {
    // How many digits the sink has taken, and how many it may still take.
    ghost taken: { Self → ℕ };

    ghost left: { Self → ℕ };

    // A number that the sink makes of its digits, and what one more digit makes of it.
    ghost held: { Self → ℕ };

    ghost step: { ℕ → ℕ → ℕ };

    // How the sink goes on as digits come, beyond its numbers.
    ghost on: { Self → Self → Type 0 };

    fn offer(&mut self, digit: u8) -> Answer
        ensures on { on self.old self.new }
        ensures offered { Offered step (tally_by taken left held self.old) digit (tally_by taken left held self.new) result };

    fn taken(&self) -> u16
        ensures { result ≡ taken self.now };

    fn left(&self) -> u16
        ensures { result ≡ left self.now };

    ghost bounded: { (s : Self) → taken s + left s ≤ 65535 };

    ghost order: { Preorder on };
}
