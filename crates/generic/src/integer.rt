// Integers for generic code: each operation is exact, and None exactly where the result has no place in the type.
ghost use Rattle.std.specs.Prelude.{◌≡◌, ◌-◌, ◌*◌, ◌/◌, ◌<◌, ◌≤◌};
ghost use Rattle.generic.specs.Exact.{Exactly, Divided, Scaled};

use crate::counting::CountingNumber;

pub trait GenericInteger: CountingNumber {
    fn ten() -> Self
        ensures { Self.number result ≡ 10 }
    {
        Self::from_u16(10)
    }

    // This and to_u8 are the interface's own, as to_u64 and from_u64 are.
    fn from_u16(word: u16) -> Self
        ensures { Self.number result ≡ word }
    {
        Self::from_u64(u64::from(word)).unwrap()
    }

    // None exactly when the difference is below 0. Compared first, the difference is known to have a place: from checked_sub of
    // two u64 it isn't, and two equal u16 or u32 take half as long again.
    fn checked_sub(self, other: Self) -> Option<Self>
        ensures { Exactly Self.number result (Self.number other ≤ Self.number self) (Self.number self - Self.number other) }
    {
        let n = self.to_u64();
        let m = other.to_u64();
        if n < m {
            return None;
        }
        Self::from_u64(n - m)
    }

    // None exactly when the product passes the greatest.
    fn checked_mul(self, other: Self) -> Option<Self>
        ensures { Exactly Self.number result (Self.number self * Self.number other ≤ Self.greatest) (Self.number self * Self.number other) }
    {
        Self::from_u64(self.to_u64().checked_mul(other.to_u64())?)
    }

    // Rounded down; None exactly when the divisor is 0.
    fn checked_div(self, by: Self) -> Option<Self>
        ensures { Exactly Self.number result (0 < Self.number by) (Self.number self / Self.number by) }
    {
        Self::from_u64(self.to_u64().checked_div(by.to_u64())?)
    }

    // The quotient and the remainder; None exactly when the divisor is 0.
    fn div_rem(self, by: Self) -> Option<(Self, Self)>
        ensures { Divided Self.number result (Self.number self) (Self.number by) }
    {
        let n = self.to_u64();
        let d = by.to_u64();
        if d == 0 {
            return None;
        }
        let quotient = Self::from_u64(n / d).unwrap();
        let remainder = Self::from_u64(n % d).unwrap();
        Some((quotient, remainder))
    }

    // The quotient and the remainder of the word times the number over a divisor above it, whether or not the product has a
    // place in the type; None exactly when the number is not below the divisor.
    // In 128 bits only where the product wants them, since there a division is slow.
    fn scaled(self, word: u16, by: Self) -> Option<(u16, Self)>
        ensures { Scaled Self.number result word (Self.number self) (Self.number by) }
    {
        let n = self.to_u64();
        let d = by.to_u64();
        if n >= d {
            return None;
        }
        match u64::from(word).checked_mul(n) {
            Some(product) => Some(((product / d) as u16, Self::from_u64(product % d).unwrap())),
            None => {
                let product = u128::from(word) * u128::from(n);
                let d = u128::from(d);
                let remainder = (product % d) as u64;
                Some(((product / d) as u16, Self::from_u64(remainder).unwrap()))
            }
        }
    }

    // None exactly when the number is above 255.
    fn to_u8(self) -> Option<u8>
        ensures { Exactly (λ b. b) result (Self.number self ≤ 255) (Self.number self) }
    {
        u8::try_from(self.to_u64()).ok()
    }

    // Every word has a place.
    ghost words: { 65_535 ≤ Self.greatest };
}
