// The output line of a record.
ghost use Rattle.std.specs.Prelude.{◌≡◌, ◌≤◌, [], ◌∷◌, ◌++◌, IfErr, take};
ghost use Rattle.record.specs.Faults.{line_of};
ghost use Rattle.record.specs.declared.fault.RecordFault.TheVariants.{Refused};

use crate::plain::{LONGEST, package_line};
use record::fault::{InputFault, RecordFault};
use record::request::Request;

// Puts the package that is asked for, or why there is none, at the start of `text`, and answers how many bytes the line has.
pub fn put_line(text: &mut [u8; LONGEST], judged: Result<Request, RecordFault>) -> usize
    ensures refused { IfErr judged (λ fault. take result text.new ≡ line_of fault ++ 10 ∷ []) }
    ensures bound { result ≤ 16_421 }
{
    match judged {
        Ok(request) => package_line(text, request).len(),
        Err(fault) => fault_line(text, fault),
    }
}

// What the fault displays, as a text of known length: a formatter takes more time than the whole record.
fn fault_line(text: &mut [u8; LONGEST], fault: RecordFault) -> usize
    ensures line { take result text.new ≡ line_of fault ++ 10 ∷ [] }
    ensures bound { result ≤ 16_421 }
{
    match fault {
        RecordFault::Refused(input) => refused_line(text, input),
        RecordFault::Bad => put_text(text, b"bad record\n"),
        RecordFault::Short => put_text(text, b"short record\n"),
    }
}

fn refused_line(text: &mut [u8; LONGEST], fault: InputFault) -> usize
    ensures line { take result text.new ≡ line_of (Refused fault) ++ 10 ∷ [] }
    ensures bound { result ≤ 16_421 }
{
    match fault {
        InputFault::NotDecimal => put_text(text, b"refused 10\n"),
        InputFault::DoesNotFit => put_text(text, b"refused 11\n"),
    }
}

fn put_text<const N: usize>(text: &mut [u8; LONGEST], line: &[u8; N]) -> usize
    requires { N ≤ 13 }
    ensures line { take result text.new ≡ line.now }
    ensures bound { result ≤ 16_421 }
{
    text[..N].copy_from_slice(line);
    N
}
