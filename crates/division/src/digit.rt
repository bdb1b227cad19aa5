// The next digits of a fraction below 1.
ghost use Rattle.std.specs.Prelude.{◌*◌, ◌<◌};
ghost use Rattle.division.specs.Proper.{Next};

use crate::proper::Proper;
use generic::integer::GenericInteger;

impl<T: GenericInteger> Proper<T> {
    // The next digit, and the fraction after it.
    pub(crate) fn next_digit(&self) -> (u8, Proper<T>)
        ensures next { Next 10 self.now result.0 result.1 }
        ensures small { result.0 < 10 }
    {
        let divisor = self.divisor;
        match T::ten().checked_mul(self.remainder) {
            Some(tenfold) => {
                let (digit, remainder) = tenfold.div_rem(divisor).unwrap();
                (digit.to_u8().unwrap(), Proper { remainder, divisor })
            }
            None => self.corrected_digit(),
        }
    }

    // The next four digits, as one number, and the fraction after them.
    pub(crate) fn next_four(&self) -> (u16, Proper<T>)
        ensures { Next 10_000 self.now result.0 result.1 }
    {
        let divisor = self.divisor;
        let (four, remainder) = self.remainder.scaled(10_000, divisor).unwrap();
        (four, Proper { remainder, divisor })
    }

    // The next digit where ten times the remainder passes the type's greatest: a trial digit, the remainder over the tenth of
    // the divisor, is lowered until it fits.
    fn corrected_digit(&self) -> (u8, Proper<T>)
        requires { T.greatest < 10 * T.number self.now.remainder }
        ensures next { Next 10 self.now result.0 result.1 }
        ensures small { result.0 < 10 }
    {
        let divisor = self.divisor;
        let ten = T::ten();
        let (tenth, unit) = divisor.div_rem(ten).unwrap();
        let unit = unit.to_u8().unwrap();
        let (trial, mut rest) = self.remainder.div_rem(tenth).unwrap();
        let mut digit = trial.to_u8().unwrap();
        // digit × divisor is at most 10 × remainder exactly where digit × unit is at most 10 × rest.
        'trial: loop {
            let owed = digit * unit;
            let tens = (owed + 9) / 10;
            let whole = T::from_u16(u16::from(tens));
            if rest.compare(whole).is_lt() {
                digit -= 1;
                rest = rest.checked_add(tenth).unwrap();
            } else {
                let over = T::from_u16(u16::from(tens * 10 - owed));
                let tenfold = rest.checked_sub(whole).unwrap().checked_mul(ten).unwrap();
                let remainder = tenfold.checked_add(over).unwrap();
                break (digit, Proper { remainder, divisor });
            }
        }
    }
}
