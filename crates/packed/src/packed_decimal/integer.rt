// The packed decimal as an integer for generic code.
ghost use Rattle.packed.specs.Digits.{decimal};
ghost use Rattle.std.proofs.Common.{arith, rules};
ghost use Rattle.packed.specs.Decimals.{decimal_lt};

use super::PackedDecimal;
use super::conversion::sixteen;
use generic::counting::CountingNumber;
use generic::integer::GenericInteger;
use std::cmp::Ordering;

const GREATEST: u64 = 9_999_999_999_999_999;

const TEN: u64 = 0x10;

// 6 in each digit but the highest: with it a digit above 9 carries into the next four bits.
const SIXES: u64 = 0x0666_6666_6666_6666;

// The lowest bit of each digit but the highest.
const LOWEST: u64 = 0x0111_1111_1111_1111;

impl CountingNumber for PackedDecimal {
    ghost number = { λ p. decimal 16 p.word };

    ghost greatest = { 9_999_999_999_999_999 };

    ghost within = { λ x. omega (arith, decimal_lt 16 x.word x.digits) };

    ghost widest = { Prim.search rules };

    ghost one_fits = { Prim.search rules };

    fn to_u64(self) -> u64 {
        sixteen(self.word)
    }

    fn from_u64(n: u64) -> Option<PackedDecimal> {
        if n > GREATEST {
            None
        } else {
            Some(PackedDecimal::pack(n))
        }
    }

    // The words stand in the order of their numbers.
    #[tactic(auto, using(crate::proofs::Decimals::decimal_ranked))]
    fn compare(self, other: PackedDecimal) -> Ordering {
        self.cmp(&other)
    }

    // Sixteen digits write 0 only where each is 0.
    #[tactic(auto, using(crate::proofs::Sixteen::tells_zero))]
    fn is_zero(self) -> bool {
        self.word == 0
    }

    fn checked_add(self, other: PackedDecimal) -> Option<PackedDecimal> {
        let biased = self.word + SIXES;
        let sum = biased.checked_add(other.word)?;
        if sum >> 60 > 9 {
            return None;
        }
        // Where a digit carried, the bit above it is not the one that adding without carries would give.
        let carried = ((biased ^ other.word ^ sum) >> 4) & LOWEST;
        Some(PackedDecimal {
            word: sum - (SIXES - 6 * carried),
        })
    }
}

impl GenericInteger for PackedDecimal {
    ghost words = { Prim.search rules };

    fn checked_sub(self, other: PackedDecimal) -> Option<PackedDecimal> {
        let difference = self.word.checked_sub(other.word)?;
        let borrowed = ((self.word ^ other.word ^ difference) >> 4) & LOWEST;
        Some(PackedDecimal {
            word: difference - 6 * borrowed,
        })
    }

    // Times ten is a shift.
    fn checked_mul(self, other: PackedDecimal) -> Option<PackedDecimal> {
        if other.word == TEN {
            return self.tenfold();
        }
        if self.word == TEN {
            return other.tenfold();
        }
        PackedDecimal::from_u64(self.to_u64().checked_mul(other.to_u64())?)
    }

    // A number below the divisor is the remainder as it stands, and a quotient below ten leaves the digits packed.
    #[tactic(auto, using(crate::specs::Decimals::decimal_lt))]
    fn div_rem(self, by: PackedDecimal) -> Option<(PackedDecimal, PackedDecimal)> {
        if self < by {
            return Some((PackedDecimal::zero(), self));
        }
        if by.is_zero() {
            return None;
        }
        if self.below_ten_times(by) {
            return Some(self.few_times(by));
        }
        let n = self.to_u64();
        let d = by.to_u64();
        Some((PackedDecimal::pack(n / d), PackedDecimal::pack(n % d)))
    }
}
