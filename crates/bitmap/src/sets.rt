// The calls about sets as a whole: flip, union, superset, clear, and the set of a range of ids. On any set and any
// argument each answers as specs/Operations says, and its refusal has the number that specs/Numbers gives.

ghost use Rattle.std.specs.Prelude.{◌≡◌};
ghost use Rattle.bitmap.specs.Operations.{flip_of, union_of, is_superset_of, clear_of, from_range_of};
ghost use Rattle.bitmap.specs.Numbers.{answer_number, size_refusal, union_refusal, superset_refusal, range_refusal};

use crate::pass::{build, choose};
use crate::{Bitmap, BitmapError, check_size, is_one};

/// The set of the zeros (rule 2.10).
pub fn flip(b: Bitmap) -> Result<Bitmap, BitmapError>
    ensures value { result ≡ flip_of b }
    ensures refusal { answer_number result ≡ size_refusal b.size }
{
    build(b.size, |i| !is_one(b, i))
}

/// The ones of either set, which have one size (rule 2.11).
pub fn union(b: Bitmap, other: Bitmap) -> Result<Bitmap, BitmapError>
    ensures value { result ≡ union_of b other }
    ensures refusal { answer_number result ≡ union_refusal b other }
{
    check_size(b.size)?;
    check_size(other.size)?;
    if b.size != other.size {
        return Err(BitmapError::SizesDiffer);
    }
    build(b.size, |i| is_one(b, i) || is_one(other, i))
}

/// Whether every one of the other set is a one of b; sizes may differ (rule 2.12).
pub fn is_superset(b: Bitmap, other: Bitmap) -> Result<bool, BitmapError>
    ensures value { result ≡ is_superset_of b other }
    ensures refusal { answer_number result ≡ superset_refusal b other }
{
    check_size(b.size)?;
    check_size(other.size)?;
    let missing = choose(other.size, |i| is_one(other, i) && !is_one(b, i));
    Ok(missing.count == 0)
}

/// The set of that size with no id (rule 2.13).
pub fn clear(b: Bitmap) -> Result<Bitmap, BitmapError>
    ensures value { result ≡ clear_of b }
    ensures refusal { answer_number result ≡ size_refusal b.size }
{
    build(b.size, |_| false)
}

/// The set of the ids from start to below end: none where start is not below end (rule 2.4).
pub fn from_range(size: u8, start: usize, end: usize) -> Result<Bitmap, BitmapError>
    ensures value { result ≡ from_range_of size start end }
    ensures refusal { answer_number result ≡ range_refusal size start end }
{
    check_size(size)?;
    if start < end && usize::from(size) < end {
        return Err(BitmapError::BadId);
    }
    build(size, |i| (start..end).contains(&i))
}
