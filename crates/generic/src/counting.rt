// A counting number means a whole number from 0 to its type's own greatest.
ghost use Rattle.std.specs.Prelude.{◌≡◌, ℕ, ◌+◌, ◌^◌, ◌<◌, ◌≤◌, Decides};
ghost use Rattle.std.specs.Ordering.{MatchOrdering};
ghost use Rattle.generic.specs.Exact.{Exactly};

use std::cmp::Ordering;

pub trait CountingNumber: Copy {
    // The whole number that a value means.
    ghost number: { Self → ℕ };

    // The greatest number that the type holds.
    ghost greatest: { ℕ };

    // This and the next are the interface's own: From and TryFrom say nothing of `number`.
    fn to_u64(self) -> u64
        ensures { result ≡ number self };

    // None exactly when the number passes the greatest.
    fn from_u64(n: u64) -> Option<Self>
        ensures { Exactly number result (n ≤ greatest) n };

    fn zero() -> Self
        ensures { number result ≡ 0 }
    {
        Self::from_u64(0).unwrap()
    }

    fn one() -> Self
        ensures { number result ≡ 1 }
    {
        Self::from_u64(1).unwrap()
    }

    // A call of the interface and no bound `Ord`: it is by the numbers meant, as a type's own order need not be.
    fn compare(self, other: Self) -> Ordering
        ensures { MatchOrdering result (number self < number other) (number self ≡ number other) (number other < number self) }
    {
        self.to_u64().cmp(&other.to_u64())
    }

    fn is_zero(self) -> bool
        ensures { Decides result (number self ≡ 0) }
    {
        self.to_u64() == 0
    }

    // None exactly when the sum passes the greatest.
    fn checked_add(self, other: Self) -> Option<Self>
        ensures { Exactly number result (number self + number other ≤ greatest) (number self + number other) }
    {
        Self::from_u64(self.to_u64().checked_add(other.to_u64())?)
    }

    ghost within: { (x : Self) → number x ≤ greatest };

    ghost widest: { greatest < 2 ^ 64 };

    ghost one_fits: { 1 ≤ greatest };
}
