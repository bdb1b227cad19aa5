// A fraction as a package in the caller's buffer.
ghost use Rattle.std.specs.Prelude.{◌≡◌, ◌<◌, ◌≤◌, [], ◌∷◌, OnOk, OnErr, IfErr};
ghost use Rattle.generic.specs.Refusals.{refuses};
ghost use Rattle.fraction.specs.Meaning.{meant, Sound};
ghost use Rattle.numeric.specs.Buffer.{Outcome, free};
ghost use Rattle.numeric.specs.Faithful.{WritingFaithful};
ghost use Rattle.numeric.specs.Faults.{refusal};
ghost use Rattle.numeric.specs.Package.{written};

use crate::plan::Plan;
use crate::precision::Precision;
use fraction::generic_fraction::GenericFraction;
use generic::integer::GenericInteger;
use numeric::fault::PackageFault;
use numeric::layout::PG_MAX_PRECISION;

// Writes the package of a fraction behind the used bytes of the buffer, and counts its bytes as used. Refused with 9, and the
// bytes needed, exactly where they exceed what is free; then nothing changes. Buffer and count are the caller's own; the count may be any.
pub fn fraction_to_sql_buf<T: GenericInteger>(
    source: &GenericFraction<T>,
    buffer: &mut [u8],
    used: &mut usize,
    precision: usize,
) -> Result<(), PackageFault>
    requires { Sound (meant T.number source.now) }
    ensures outcome { Outcome (written (meant T.number source.now) precision) buffer.old used.old buffer.new used.new result }
    ensures faithful { WritingFaithful }
{
    let plan = Plan::new(source, Precision::in_force(precision));
    let start = *used;
    let needed = plan.bytes_needed();
    check_room(buffer, start, needed)?;
    plan.put(&mut buffer[start..]);
    *used = start + needed;
    Ok(())
}

// The same at the greatest precision.
pub fn to_sql<T: GenericInteger>(
    source: &GenericFraction<T>,
    buffer: &mut [u8],
    used: &mut usize,
) -> Result<(), PackageFault>
    requires { Sound (meant T.number source.now) }
    ensures outcome { Outcome (written (meant T.number source.now) 16383) buffer.old used.old buffer.new used.new result }
    ensures faithful { WritingFaithful }
{
    fraction_to_sql_buf(source, buffer, used, PG_MAX_PRECISION)
}

// Refused where the bytes needed exceed those that are free behind the used ones.
fn check_room(buffer: &[u8], used: usize, needed: usize) -> Result<(), PackageFault>
    ensures fits { OnOk result (needed ≤ free buffer.now used) }
    ensures tight { OnErr result (free buffer.now used < needed) }
    ensures fault { IfErr result (λ f. refusal f ≡ refuses 9 (needed ∷ [])) }
{
    if buffer.len().saturating_sub(used) < needed {
        return Err(PackageFault::NoSpace(needed));
    }
    Ok(())
}
