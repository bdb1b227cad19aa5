// A packed decimal's number, by all pairs of its digits at once, and the digits of a number, by halves.
ghost use Rattle.std.specs.Prelude.{◌≡◌, ◌+◌, ◌*◌, ◌/◌, ◌^◌, ◌<◌, ◌≤◌};
ghost use Rattle.packed.specs.Digits.{Writes, decimal};
ghost use Rattle.packed.specs.Parts.{lower_halves, written};

use super::PackedDecimal;

// In a word of parts of `bits` bits, each two neighbouring parts become one that holds the number which both write.
// The mask picks the lower half of each such part.
fn join(word: u64, bits: u32, base: u64, mask: u64) -> u64
    requires shifts { bits < 64 }
    requires fits { base ≤ 2 ^ bits }
    requires lower { mask ≡ lower_halves bits (32 / bits) }
    ensures { let pairs = 32 / bits in written (bits + bits) (base * base) pairs result ≡ written bits base (pairs + pairs) word }
{
    word - ((1 << bits) - base) * ((word >> bits) & mask)
}

// The number that sixteen digits write: digits in pairs, pairs in fours, fours in eights.
#[tactic(auto, using(crate::proofs::Parts::written_digits), unfolding(crate::specs::Parts::written, crate::specs::Parts::lower_halves))]
pub(super) fn sixteen(word: u64) -> u64
    ensures { result ≡ decimal 16 word }
{
    let pairs = join(word, 4, 10, 0x0f0f_0f0f_0f0f_0f0f);
    let fours = join(pairs, 8, 100, 0x00ff_00ff_00ff_00ff);
    let eights = join(fours, 16, 10_000, 0x0000_ffff_0000_ffff);
    join(eights, 32, 100_000_000, 0x0000_0000_ffff_ffff)
}

// The digits of n, by halves: all at once they cannot come, since a division splits one number. A function that calls itself takes
// almost six times as long (in C), and one with the half as a parameter leaves each size its own clauses.
#[tactic(auto, using(crate::proofs::Halves::writes_two))]
fn pack_two(n: u64) -> u64
    requires { n < 100 }
    ensures { Writes 2 result n }
{
    n + 6 * (n / 10)
}

fn pack_four(n: u64) -> u64
    requires { n < 10_000 }
    ensures { Writes 4 result n }
{
    pack_two(n / 100) * 0x100 + pack_two(n % 100)
}

fn pack_eight(n: u64) -> u64
    requires { n < 100_000_000 }
    ensures { Writes 8 result n }
{
    pack_four(n / 10_000) * 0x1_0000 + pack_four(n % 10_000)
}

fn pack_sixteen(n: u64) -> u64
    requires { n ≤ 9_999_999_999_999_999 }
    ensures { Writes 16 result n }
{
    pack_eight(n / 100_000_000) * 0x1_0000_0000 + pack_eight(n % 100_000_000)
}

impl PackedDecimal {
    // The sixteen digits of a number that has a place.
    pub(super) fn pack(n: u64) -> PackedDecimal
        requires { n ≤ 9_999_999_999_999_999 }
        ensures { decimal 16 result.word ≡ n }
    {
        PackedDecimal {
            word: pack_sixteen(n),
        }
    }
}
