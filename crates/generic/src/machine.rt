// The machine's unsigned numbers as counting numbers and as integers for generic code: each means itself.
// Each writes these few lines, since no macro may write an impl. `itself` says what `meaning` leaves open: no value is cut.
ghost use Rattle.std.specs.Prelude.{◌≡◌, min};
ghost use Rattle.std.proofs.Common.{rules};

use crate::counting::CountingNumber;
use crate::integer::GenericInteger;

impl CountingNumber for u8 {
    // No value of the type passes the greatest.
    ghost number = { λ x. min x 255 };

    ghost greatest = { 255 };

    ghost within = { Prim.search rules };

    ghost widest = { Prim.search rules };

    ghost one_fits = { Prim.search rules };

    fn to_u64(self) -> u64
        ensures meaning { result ≡ min self 255 }
        ensures itself { result ≡ self }
    {
        u64::from(self)
    }

    fn from_u64(n: u64) -> Option<u8> {
        u8::try_from(n).ok()
    }
}

impl CountingNumber for u16 {
    ghost number = { λ x. min x 65_535 };

    ghost greatest = { 65_535 };

    ghost within = { Prim.search rules };

    ghost widest = { Prim.search rules };

    ghost one_fits = { Prim.search rules };

    fn to_u64(self) -> u64
        ensures meaning { result ≡ min self 65_535 }
        ensures itself { result ≡ self }
    {
        u64::from(self)
    }

    fn from_u64(n: u64) -> Option<u16> {
        u16::try_from(n).ok()
    }
}

impl CountingNumber for u32 {
    ghost number = { λ x. min x 0xffff_ffff };

    ghost greatest = { 0xffff_ffff };

    ghost within = { Prim.search rules };

    ghost widest = { Prim.search rules };

    ghost one_fits = { Prim.search rules };

    fn to_u64(self) -> u64
        ensures meaning { result ≡ min self 0xffff_ffff }
        ensures itself { result ≡ self }
    {
        self.into()
    }

    fn from_u64(n: u64) -> Option<u32> {
        u32::try_from(n).ok()
    }
}

impl CountingNumber for u64 {
    ghost number = { λ x. min x 0xffff_ffff_ffff_ffff };

    ghost greatest = { 0xffff_ffff_ffff_ffff };

    ghost within = { Prim.search rules };

    ghost widest = { Prim.search rules };

    ghost one_fits = { Prim.search rules };

    fn to_u64(self) -> u64
        ensures meaning { result ≡ min self 0xffff_ffff_ffff_ffff }
        ensures itself { result ≡ self }
    {
        u64::from(self)
    }

    fn from_u64(n: u64) -> Option<u64> {
        Some(n)
    }
}

impl GenericInteger for u16 {
    ghost words = { Prim.search rules };
}

impl GenericInteger for u32 {
    ghost words = { Prim.search rules };
}

impl GenericInteger for u64 {
    ghost words = { Prim.search rules };
}
