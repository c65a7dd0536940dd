// Sets of ids: the type, the refusals, and the leaf functions by which every set is made and read (rules 2.1, 2.2).
// The calls stand in bitmap::calls, bitmap::sets and bitmap::lists; specs/Operations says what each answers.
#![tactic(auto)]

pub mod calls;
pub mod laws;
pub mod lists;
pub mod pass;
pub mod sets;

ghost use Rattle.std.specs.Prelude.{◌≡◌, ◌+◌, ◌^◌, ◌<◌, ◌≤◌, OnOk};
ghost use Rattle.bitmap.specs.Sets.{member, weight};
ghost use Rattle.bitmap.specs.Bitmaps.{capacity, number, bitmap_of, is_one};
ghost use Rattle.bitmap.specs.Operations.{bitmap_refusal_number, bad_size, size_checked};

use thiserror::Error;

/// How many ids a set has room for: a size is 1 to 64 (rule 2.1).
pub const CAPACITY: u8 = 64;

/// A set of ids. A host may hand in any: a size that is out of range is refused by the calls, and ones at or
/// above the size count as zeros (rule 2.2).
#[derive(Clone, Copy)]
pub struct Bitmap {
    /// Each id of the set is below it.
    pub size: u8,
    /// The id i is a one where this number has 2 to the i.
    pub bits: u64,
}

/// Why a call is refused, in the order of the numbers.
#[derive(Clone, Copy, PartialEq, Eq, Debug, Error)]
pub enum BitmapError {
    /// Rule 10.10.
    #[error("id not below the size")]
    BadId,
    /// Rule 10.11.
    #[error("union of different sizes")]
    SizesDiffer,
    /// Rule 10.12.
    #[error("size not 1 to 64")]
    BadSize,
    /// Rule 10.13.
    #[error("lent slice shorter than the count")]
    ShortSlice,
}

impl BitmapError {
    /// The number of the refusal, 10 to 13 (rules 10.10 to 10.13).
    pub fn number(self) -> u8
        ensures { result ≡ bitmap_refusal_number self }
    {
        match self {
            BitmapError::BadId => 10,
            BitmapError::SizesDiffer => 11,
            BitmapError::BadSize => 12,
            BitmapError::ShortSlice => 13,
        }
    }
}

// Whether the set has the id i.
fn has(bits: u64, i: usize) -> bool
    requires { i < capacity }
    ensures { result ≡ member bits i }
{
    (bits >> i) & 1 == 1
}

// What the id i adds to a set.
fn weight_of(on: bool, i: usize) -> u64
    requires { i < capacity }
    ensures { result ≡ weight on i }
{
    u64::from(on) << i
}

/// The set of no id.
pub fn none(size: u8) -> Bitmap
    ensures { result ≡ bitmap_of size 0 }
{
    Bitmap { size, bits: 0 }
}

/// The set with the id i added if `on`. The id is above every id of the set.
pub fn with_id(set: Bitmap, on: bool, i: usize) -> Bitmap
    requires i_lt_capacity { i < capacity }
    requires set_bound { number set < 2 ^ i }
    ensures { result ≡ bitmap_of set.size (number set + weight on i) }
{
    Bitmap {
        bits: set.bits + weight_of(on, i),
        ..set
    }
}

/// Whether the id i is a one of b: ones at or above its size count as zeros (rule 2.2).
#[tactic(auto, using(crate::proofs::Bitmaps::is_one_past))]
pub fn is_one(b: Bitmap, i: usize) -> bool
    ensures { result ≡ is_one b i }
{
    i < usize::from(b.size.min(CAPACITY)) && has(b.bits, i)
}

/// Whether the size is not 1 to 64 (rule 10.12).
#[tactic(auto, unfolding(crate::specs::Operations::bad_size))]
pub fn bad_size(size: u8) -> bool
    ensures { result ≡ bad_size size }
{
    !(1..=CAPACITY).contains(&size)
}

/// Refuses a size that is not 1 to 64 (rule 10.12).
#[tactic(auto, unfolding(crate::specs::Operations::bad_size))]
pub fn check_size(size: u8) -> Result<(), BitmapError>
    ensures checked { result ≡ size_checked size }
    ensures sized { OnOk result (size ≤ capacity) }
{
    if bad_size(size) {
        return Err(BitmapError::BadSize);
    }
    Ok(())
}
