// Sixteen decimal digits in a word of 64 bits, four bits for each, highest first.
ghost use Rattle.std.specs.Prelude.{◌≡◌, [], Decides};
ghost use Rattle.generic.specs.Refusals.{OrRefused, refuses};
ghost use Rattle.packed.specs.Digits.{AllDigits};
ghost use Rattle.packed.specs.Faults.{refusal};

use crate::fault::PackedFault;

mod arithmetic;
mod conversion;
pub mod integer;

#[derive(Clone, Copy, PartialEq, Eq, PartialOrd, Ord, Debug)]
pub struct PackedDecimal {
    word: u64,
    // No four bits are above 9.
    ghost digits: { AllDigits 16 word },
}

// Four bits are above 9 where their 8 stands together with their 4 or their 2.
#[tactic(auto, using(crate::proofs::Flags::tells_digits), unfolding(crate::proofs::Flags::above_nine))]
fn all_digits(word: u64) -> bool
    ensures { Decides result (AllDigits 16 word) }
{
    (word >> 3) & ((word >> 2) | (word >> 1)) & 0x1111_1111_1111_1111 == 0
}

impl PackedDecimal {
    // The packed decimal of this word; refused with 10 exactly when four of its bits are above 9. No TryFrom: a u64 may be a
    // word or a number.
    pub fn from_word(word: u64) -> Result<PackedDecimal, PackedFault>
        ensures { OrRefused (λ p. p.word) refusal result (AllDigits 16 word) word (refuses 10 []) }
    {
        if all_digits(word) {
            Ok(PackedDecimal { word })
        } else {
            Err(PackedFault::NotDecimal)
        }
    }

    pub fn word(self) -> u64
        ensures { result ≡ self.word }
    {
        self.word
    }
}
