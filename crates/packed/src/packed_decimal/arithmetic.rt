// Tenfolds of packed decimals, and quotients below ten, on whole words.
ghost use Rattle.std.specs.Prelude.{◌≡◌, ◌*◌, ◌/◌, ◌%◌, ◌<◌, ◌≤◌, true};
ghost use Rattle.generic.specs.Exact.{Exactly};
ghost use Rattle.packed.specs.Digits.{decimal};

use super::PackedDecimal;
use generic::integer::GenericInteger;

impl PackedDecimal {
    // None exactly when ten times the number passes the greatest.
    pub(super) fn tenfold(self) -> Option<PackedDecimal>
        ensures { Exactly (λ p. decimal 16 p.word) result (decimal 16 self.word * 10 ≤ 9_999_999_999_999_999) (decimal 16 self.word * 10) }
    {
        if self.word >> 60 != 0 {
            return None;
        }
        Some(PackedDecimal {
            word: self.word << 4,
        })
    }

    // Whether the quotient by a divisor that is not 0 is below ten.
    #[tactic(auto, using(crate::specs::Decimals::decimal_lt))]
    pub(super) fn below_ten_times(self, by: PackedDecimal) -> bool
        ensures { result ≡ true → decimal 16 self.word < decimal 16 by.word * 10 }
    {
        match by.tenfold() {
            Some(tenfold) => self < tenfold,
            None => true,
        }
    }

    // The quotient, which is below ten, and the remainder: by subtraction, which leaves the digits packed.
    pub(super) fn few_times(self, by: PackedDecimal) -> (PackedDecimal, PackedDecimal)
        requires some { 0 < decimal 16 by.word }
        requires few { decimal 16 self.word < decimal 16 by.word * 10 }
        ensures quotient { decimal 16 result.0.word ≡ decimal 16 self.word / decimal 16 by.word }
        ensures remainder { decimal 16 result.1.word ≡ decimal 16 self.word % decimal 16 by.word }
    {
        let mut times = 0;
        let mut rest = self;
        while let Some(less) = rest.checked_sub(by) {
            rest = less;
            times += 1;
        }
        (PackedDecimal { word: times }, rest)
    }
}
