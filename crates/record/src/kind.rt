// The integer types of a record's numbers.
ghost use Rattle.std.specs.Prelude.{◌≡◌};
ghost use Rattle.record.specs.Numbers.{up_to, packed_number, number_of};
ghost use Rattle.record.specs.Kinds.{kind_of};

use crate::fault::{InputFault, RecordFault};
use generic::counting::CountingNumber;
use generic::integer::GenericInteger;
use packed::packed_decimal::PackedDecimal;

#[derive(Clone, Copy, PartialEq, Eq, Debug)]
pub enum Kind {
    U16,
    U32,
    U64,
    Packed,
}

// The type that a record's first byte names.
impl TryFrom<u8> for Kind {
    type Error = RecordFault;

    ghost try_from_gives = { λ byte r. r ≡ kind_of byte };

    fn try_from(byte: u8) -> Result<Kind, RecordFault> {
        match byte {
            1 => Ok(Kind::U16),
            2 => Ok(Kind::U32),
            3 => Ok(Kind::U64),
            4 => Ok(Kind::Packed),
            _ => Err(RecordFault::Bad),
        }
    }
}

impl Kind {
    // The number that a word of 64 bits writes in this type, which is known only from the record.
    pub fn read(self, word: u64) -> Result<u64, InputFault>
        ensures { result ≡ number_of self word }
    {
        match self {
            Kind::U16 => read_number::<u16>(word),
            Kind::U32 => read_number::<u32>(word),
            Kind::U64 => read_number::<u64>(word),
            Kind::Packed => read_packed(word),
        }
    }
}

// The word itself, where the type has a place for it.
fn read_number<T: GenericInteger>(word: u64) -> Result<u64, InputFault>
    ensures { result ≡ up_to T.CountingNumber.greatest word }
{
    let number = T::from_u64(word).ok_or(InputFault::DoesNotFit)?;
    Ok(number.to_u64())
}

// The number that sixteen decimal digits write.
#[tactic(auto, using(crate::proofs::PackedWords::packed_number_lem, crate::proofs::PackedWords::no_packed_number))]
fn read_packed(word: u64) -> Result<u64, InputFault>
    ensures { result ≡ packed_number word }
{
    Ok(PackedDecimal::from_word(word)?.to_u64())
}
