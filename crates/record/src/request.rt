// What a record asks for.
ghost use Rattle.std.specs.Prelude.{◌≡◌, ◌+◌, ◌≤◌, take, drop, IfOk};
ghost use Rattle.fraction.specs.Meaning.{meant, Sound};
ghost use Rattle.record.specs.Bytes.{bytes_number};
ghost use Rattle.record.specs.Kinds.{sign_of};
ghost use Rattle.record.specs.Requests.{request};

use crate::depth::depth_of;
use crate::fault::RecordFault;
use crate::kind::Kind;
use fraction::generic_fraction::GenericFraction;
use generic::counting::CountingNumber;
use generic::sign::Sign;

// A depth to pack, and how many fractional digits are asked for.
#[derive(Clone, Copy, PartialEq, Eq, Debug)]
pub struct Request {
    pub depth: GenericFraction<u64>,
    pub precision: u16,
}

// The bytes of a record: type, sign, precision (2), numerator (8), denominator (8).
pub const RECORD_BYTES: usize = 20;

// Bytes beyond the record are not looked at. The numerator is judged before the denominator.
pub fn judge(bytes: &[u8]) -> Result<Request, RecordFault>
    ensures value { result ≡ request bytes.now }
    ensures sound { IfOk result (λ r. Sound (meant ⟦<u64 as CountingNumber>⟧.number r.depth)) }
{
    let record: &[u8; RECORD_BYTES] = bytes.first_chunk().ok_or(RecordFault::Short)?;
    let kind = Kind::try_from(record[0])?;
    let sign = read_sign(record[1])?;
    let numerator = kind.read(number_at(record, 4))?;
    let denominator = kind.read(number_at(record, 12))?;
    Ok(Request {
        depth: depth_of(sign, numerator, denominator),
        precision: word_at(record, 2),
    })
}

// The sign that a record's second byte names. No TryFrom: the type is another crate's.
fn read_sign(byte: u8) -> Result<Sign, RecordFault>
    ensures { result ≡ sign_of byte }
{
    match byte {
        0 => Ok(Sign::Plus),
        1 => Ok(Sign::Minus),
        _ => Err(RecordFault::Bad),
    }
}

// The 16 bits at byte k; this and the next say in what type the bytes are read.
fn word_at(record: &[u8; RECORD_BYTES], k: usize) -> u16
    requires { k + 2 ≤ 20 }
    ensures { result ≡ bytes_number 2 k record.now }
{
    u16::from_be_bytes(bytes_at(record, k))
}

// The 64 bits at byte k.
fn number_at(record: &[u8; RECORD_BYTES], k: usize) -> u64
    requires { k + 8 ≤ 20 }
    ensures { result ≡ bytes_number 8 k record.now }
{
    u64::from_be_bytes(bytes_at(record, k))
}

// The N bytes at byte k.
fn bytes_at<const N: usize>(record: &[u8; RECORD_BYTES], k: usize) -> [u8; N]
    requires { k + N ≤ 20 }
    ensures { result ≡ take N (drop k record.now) }
{
    record[k..k + N].try_into().unwrap()
}
