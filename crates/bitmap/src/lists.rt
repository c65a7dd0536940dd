// The calls over a slice of ids: a set from a list of ids, and the ids of a set written into lent bytes.

ghost use Rattle.std.specs.Prelude.{◌≡◌, ◌≤◌, length};
ghost use Rattle.bitmap.specs.Sets.{count_where};
ghost use Rattle.bitmap.specs.Bitmaps.{is_one};
ghost use Rattle.bitmap.specs.Operations.{outside, listed, from_ids_of, ids_below, laid_over, ones_of, bytes_after_ones};
ghost use Rattle.bitmap.specs.Numbers.{answer_number, list_refusal, ones_refusal};

use crate::pass::{build, tally};
use crate::{Bitmap, BitmapError, check_size, is_one};

// Whether some id of the list is not below the size.
fn has_outside(size: u8, ids: &[u8]) -> bool
    ensures { result ≡ outside size ids.now }
{
    ids.iter().any(|id| size <= *id)
}

// Whether the list has the id.
fn is_listed(ids: &[u8], i: usize) -> bool
    ensures { result ≡ listed ids.now i }
{
    ids.iter().any(|id| i == usize::from(*id))
}

/// The set of the ids of the list (rule 2.5). An id may stand in it twice.
pub fn from_ids(size: u8, ids: &[u8]) -> Result<Bitmap, BitmapError>
    ensures value { result ≡ from_ids_of size ids.now }
    ensures refusal { answer_number result ≡ list_refusal size ids.now }
{
    check_size(size)?;
    if has_outside(size, ids) {
        return Err(BitmapError::BadId);
    }
    build(size, |i| is_listed(ids, i))
}

// Writes the ids of the ones of b, ascending, from the start of the slice.
fn write_ones(b: Bitmap, out: &mut [u8])
    requires { count_where (is_one b) b.size ≤ length out.old }
    ensures { out.new ≡ laid_over (ids_below (is_one b) b.size) out.old }
{
    for (at, i) in (0..b.size)
        .filter(|i| is_one(b, usize::from(*i)))
        .enumerate()
    {
        out[at] = i;
    }
}

/// How many ones the set has; their ids, ascending, are written into the slice from its start (rule 2.14). The bytes
/// past them, and on a refusal all, keep their contents (rule 2.15).
pub fn ones(b: Bitmap, out: &mut [u8]) -> Result<u8, BitmapError>
    ensures value { result ≡ ones_of b out.old }
    ensures refusal { answer_number result ≡ ones_refusal b out.old }
    ensures out_after { out.new ≡ bytes_after_ones b out.old }
{
    check_size(b.size)?;
    let count = tally(b);
    if out.len() < usize::from(count) {
        return Err(BitmapError::ShortSlice);
    }
    write_ones(b, out);
    Ok(count)
}
