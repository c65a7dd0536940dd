// The calls on one set and an id of it. On any set and any argument each answers as specs/Operations says, and
// its refusal has the number that specs/Numbers gives.

ghost use Rattle.std.specs.Prelude.{◌≡◌, cond};
ghost use Rattle.bitmap.specs.Operations.{bad_id, new_of, set_of, get_of, size_of, count_of};
ghost use Rattle.bitmap.specs.Numbers.{answer_number, size_refusal, id_refusal};

use crate::pass::{build, tally};
use crate::{Bitmap, BitmapError, check_size, is_one};

// Refuses an id that is not below the set's size.
fn check_id(b: Bitmap, id: usize) -> Result<(), BitmapError>
    ensures { result ≡ cond (bad_id b.size id) (Err BitmapError.BadId) (Ok tt) }
{
    if usize::from(b.size) <= id {
        return Err(BitmapError::BadId);
    }
    Ok(())
}

/// The set of every id below the size, or of none (rule 2.3).
pub fn new(size: u8, ones: bool) -> Result<Bitmap, BitmapError>
    ensures value { result ≡ new_of size ones }
    ensures refusal { answer_number result ≡ size_refusal size }
{
    build(size, |_| ones)
}

/// The set with the id put in or taken out by the flag (rule 2.6).
pub fn set(b: Bitmap, id: usize, flag: bool) -> Result<Bitmap, BitmapError>
    ensures value { result ≡ set_of b id flag }
    ensures refusal { answer_number result ≡ id_refusal b id }
{
    check_size(b.size)?;
    check_id(b, id)?;
    build(b.size, |i| if i == id { flag } else { is_one(b, i) })
}

/// Whether the set has the id (rule 2.7).
pub fn get(b: Bitmap, id: usize) -> Result<bool, BitmapError>
    ensures value { result ≡ get_of b id }
    ensures refusal { answer_number result ≡ id_refusal b id }
{
    check_size(b.size)?;
    check_id(b, id)?;
    Ok(is_one(b, id))
}

/// The set's size (rule 2.8).
pub fn size(b: Bitmap) -> Result<u8, BitmapError>
    ensures value { result ≡ size_of b }
    ensures refusal { answer_number result ≡ size_refusal b.size }
{
    check_size(b.size)?;
    Ok(b.size)
}

/// How many ones the set has (rule 2.9).
pub fn count(b: Bitmap) -> Result<u8, BitmapError>
    ensures value { result ≡ count_of b }
    ensures refusal { answer_number result ≡ size_refusal b.size }
{
    check_size(b.size)?;
    Ok(tally(b))
}
