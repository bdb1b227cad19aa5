// The word of a package that has its sign, or says that it is no number.
ghost use Rattle.std.specs.Prelude.{◌≡◌};
ghost use Rattle.numeric.specs.Package.{sign_word, infinity_word};
ghost use Rattle.numeric.specs.Words.{word_of};

use crate::layout::{PG_NAN, PG_NEG, PG_NINF, PG_PINF, PG_POS};
use generic::sign::Sign;

#[derive(Clone, Copy, PartialEq, Eq, Debug)]
pub enum SignWord {
    Plus,
    Minus,
    NaN,
    PlusInfinity,
    MinusInfinity,
}

// One sign has two words, so there is no From<Sign>.
impl SignWord {
    // Of a number with the sign.
    pub fn of_number(sign: Sign) -> SignWord
        ensures { word_of result ≡ sign_word sign }
    {
        match sign {
            Sign::Plus => SignWord::Plus,
            Sign::Minus => SignWord::Minus,
        }
    }

    // Of an infinity with the sign.
    pub fn of_infinity(sign: Sign) -> SignWord
        ensures { word_of result ≡ infinity_word sign }
    {
        match sign {
            Sign::Plus => SignWord::PlusInfinity,
            Sign::Minus => SignWord::MinusInfinity,
        }
    }
}

impl From<SignWord> for u16 {
    ghost from_gives = { λ s w. w ≡ word_of s };

    fn from(sign: SignWord) -> u16 {
        match sign {
            SignWord::Plus => PG_POS,
            SignWord::Minus => PG_NEG,
            SignWord::NaN => PG_NAN,
            SignWord::PlusInfinity => PG_PINF,
            SignWord::MinusInfinity => PG_NINF,
        }
    }
}
