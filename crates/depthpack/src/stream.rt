// Records in, lines out, in constant memory.
ghost use Rattle.std.specs.Prelude.{◌≤◌, length, IfOk, IfErr};
ghost use Rattle.depthpack.specs.Failures.{OfRun};

use crate::failure::Failure;
use crate::line::put_line;
use crate::plain::LONGEST;
use crate::tally::Tally;
use record::request::{RECORD_BYTES, judge};
use std::io;
use std::io::{Read, Write};

// Whole records, so that none is cut between two chunks.
const CHUNK: usize = 65_520;

const PAGE: usize = 131_072;

// The line of each record of the input, and how many came of each kind.
// Where reading fails, the whole records before the failure still have their lines. It fails by reading or writing alone.
pub fn pack_records<R: Read, W: Write>(input: &mut R, output: &mut W) -> Result<Tally, Failure>
    ensures { IfErr result OfRun }
{
    let mut chunk = [0; CHUNK];
    let mut page = [0; PAGE];
    let mut tally = Tally::new();
    // Until the input ends: a loop without a bound would need a handle.
    for _ in 0..u64::MAX {
        let (filled, read) = fill(input, &mut chunk);
        let bytes = if read.is_err() {
            filled - filled % RECORD_BYTES
        } else {
            filled
        };
        pack_chunk(&chunk[0..bytes], &mut page, &mut tally, output).map_err(Failure::Write)?;
        read.map_err(Failure::Read)?;
        if filled < CHUNK {
            break;
        }
    }
    Ok(tally)
}

// Reads until the chunk is full, the input ends or reading fails, and answers how many bytes there are. Each read asks for all
// that the chunk has room for: of a message longer than a read asks for, a socket drops the rest.
fn fill<R: Read>(input: &mut R, chunk: &mut [u8; CHUNK]) -> (usize, io::Result<()>)
    ensures { result.0 ≤ 65_520 }
{
    let mut filled = 0;
    while filled < CHUNK {
        match read_some(input, &mut chunk[filled..]) {
            Ok(0) => break,
            Ok(n) => filled += n,
            Err(error) => return (filled, Err(error)),
        }
    }
    (filled, Ok(()))
}

// One read, begun again where a signal interrupts it.
fn read_some<R: Read>(input: &mut R, chunk: &mut [u8]) -> io::Result<usize>
    ensures { IfOk result (λ n. n ≤ length chunk.new) }
{
    for _ in 0..u64::MAX {
        match input.read(chunk) {
            Err(error) if error.kind() == io::ErrorKind::Interrupted => {}
            read => return read,
        }
    }
    Err(io::Error::from(io::ErrorKind::Interrupted))
}

// The records of a chunk, the last of which may be cut. Each write is of whole lines, and none follows one that failed.
fn pack_chunk<W: Write>(
    records: &[u8],
    page: &mut [u8; PAGE],
    tally: &mut Tally,
    output: &mut W,
) -> io::Result<()> {
    let mut used = 0;
    for bytes in records.chunks(RECORD_BYTES) {
        if PAGE - used < LONGEST {
            output.write_all(&page[..used])?;
            used = 0;
        }
        let judged = judge(bytes);
        tally.count(judged);
        used += put_line(page[used..].first_chunk_mut().unwrap(), judged);
    }
    output.write_all(&page[..used])
}
