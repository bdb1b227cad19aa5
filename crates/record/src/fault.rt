// Why a record asks for no package.
ghost use Rattle.std.specs.Prelude.{◌≡◌};
ghost use Rattle.record.specs.Faults.{refusal};
ghost use Rattle.record.specs.declared.fault.InputFault.TheVariants.{NotDecimal};
ghost use Rattle.record.specs.declared.fault.RecordFault.TheVariants.{Refused};

use packed::fault::PackedFault;
use std::error::Error;
use std::fmt;

// Why the numbers of a record are refused.
#[derive(Clone, Copy, PartialEq, Eq, Debug)]
pub enum InputFault {
    // Four bits of a packed decimal are above 9.
    NotDecimal,
    // A number passes the greatest of the record's type.
    DoesNotFit,
}

#[derive(Clone, Copy, PartialEq, Eq, Debug)]
pub enum RecordFault {
    Refused(InputFault),
    // No type or no sign of the format.
    Bad,
    // Fewer bytes than a record has.
    Short,
}

impl InputFault {
    // The number of the refusal, which its line shows.
    pub fn number(self) -> u8
        ensures { result ≡ (refusal self).number }
    {
        match self {
            InputFault::NotDecimal => 10,
            InputFault::DoesNotFit => 11,
        }
    }
}

impl From<PackedFault> for InputFault {
    ghost from_gives = { λ f r. r ≡ NotDecimal };

    fn from(fault: PackedFault) -> InputFault {
        match fault {
            PackedFault::NotDecimal => InputFault::NotDecimal,
        }
    }
}

impl From<InputFault> for RecordFault {
    ghost from_gives = { λ f r. r ≡ Refused f };

    fn from(fault: InputFault) -> RecordFault {
        RecordFault::Refused(fault)
    }
}

impl fmt::Display for RecordFault {
    ghost use Rattle.std.specs.Prelude.{Some};
    ghost use Rattle.record.specs.Faults.{line_of};

    ghost output = { λ fault. Some (line_of fault) };

    fn fmt<W: fmt::Write>(&self, f: &mut fmt::Formatter<W>) -> fmt::Result {
        match self {
            RecordFault::Refused(input) => write!(f, "refused {}", input.number()),
            RecordFault::Bad => f.write_str("bad record"),
            RecordFault::Short => f.write_str("short record"),
        }
    }
}

impl Error for RecordFault {}
