// The calls on sets of ids (section 2). No enum crosses to C, so an answer is a record of numbers; a set is taken as its size and its number.

ghost use Rattle.std.specs.Prelude.{◌≡◌};
ghost use Rattle.bitmap.specs.Bitmaps.{bitmap_of};
ghost use Rattle.bitmap.specs.Operations.{new_of, set_of, get_of, size_of, count_of, flip_of, union_of, is_superset_of, clear_of, from_range_of, from_ids_of, ones_of, bytes_after_ones};
ghost use Rattle.leaves_c.specs.Flat.{flat_set, flat_flag, flat_count};

use bitmap::{Bitmap, BitmapError};

/// A set, or the number of the refusal with zeros beside it.
#[repr(C)]
#[derive(Clone, Copy)]
pub struct SetC {
    /// 0, or the refusal's number (rules 10.10 to 10.13).
    pub refused: u8,
    /// `bitmap::calls::size`: the set's size (rule 2.8).
    pub size: u8,
    /// Its number: id i as 2 to the i.
    pub bits: u64,
}

/// A count, or a flag as 1 or 0; or the number of the refusal with 0 beside it.
#[repr(C)]
#[derive(Clone, Copy)]
pub struct ValueC {
    /// 0, or the refusal's number (rules 10.10 to 10.13).
    pub refused: u8,
    /// The count, or the flag.
    pub value: u8,
}

// An answer with a set, with a count and with a flag, as specs/Flat says.
impl From<Result<Bitmap, BitmapError>> for SetC {
    ghost from_gives = { λ answer c. c ≡ flat_set answer };

    fn from(answer: Result<Bitmap, BitmapError>) -> SetC {
        match answer {
            Ok(b) => SetC {
                refused: 0,
                size: b.size,
                bits: b.bits,
            },
            Err(e) => SetC {
                refused: e.number(),
                size: 0,
                bits: 0,
            },
        }
    }
}

impl From<Result<u8, BitmapError>> for ValueC {
    ghost from_gives = { λ answer c. c ≡ flat_count answer };

    fn from(answer: Result<u8, BitmapError>) -> ValueC {
        match answer {
            Ok(n) => ValueC {
                refused: 0,
                value: n,
            },
            Err(e) => ValueC {
                refused: e.number(),
                value: 0,
            },
        }
    }
}

impl From<Result<bool, BitmapError>> for ValueC {
    ghost from_gives = { λ answer c. c ≡ flat_flag answer };

    fn from(answer: Result<bool, BitmapError>) -> ValueC {
        ValueC::from(answer.map(u8::from))
    }
}

/// `bitmap::calls::new`: the set of every id below the size, or of none (rule 2.3).
#[unsafe(no_mangle)]
pub extern "C" fn bitmap_new(size: u8, ones: bool) -> SetC
    ensures { result ≡ flat_set (new_of size ones) }
{
    SetC::from(bitmap::calls::new(size, ones))
}

/// `bitmap::calls::set`: the set with the id put in or taken out by the flag (rule 2.6).
#[unsafe(no_mangle)]
pub extern "C" fn bitmap_set(size: u8, bits: u64, id: usize, flag: bool) -> SetC
    ensures { result ≡ flat_set (set_of (bitmap_of size bits) id flag) }
{
    SetC::from(bitmap::calls::set(Bitmap { size, bits }, id, flag))
}

/// `bitmap::calls::get`: whether the set has the id (rule 2.7).
#[unsafe(no_mangle)]
pub extern "C" fn bitmap_get(size: u8, bits: u64, id: usize) -> ValueC
    ensures { result ≡ flat_flag (get_of (bitmap_of size bits) id) }
{
    ValueC::from(bitmap::calls::get(Bitmap { size, bits }, id))
}

/// `bitmap::calls::size`: the set's size (rule 2.8).
#[unsafe(no_mangle)]
pub extern "C" fn bitmap_size(size: u8, bits: u64) -> ValueC
    ensures { result ≡ flat_count (size_of (bitmap_of size bits)) }
{
    ValueC::from(bitmap::calls::size(Bitmap { size, bits }))
}

/// `bitmap::calls::count`: how many ones the set has (rule 2.9).
#[unsafe(no_mangle)]
pub extern "C" fn bitmap_count(size: u8, bits: u64) -> ValueC
    ensures { result ≡ flat_count (count_of (bitmap_of size bits)) }
{
    ValueC::from(bitmap::calls::count(Bitmap { size, bits }))
}

/// `bitmap::sets::flip`: the set of the zeros (rule 2.10).
#[unsafe(no_mangle)]
pub extern "C" fn bitmap_flip(size: u8, bits: u64) -> SetC
    ensures { result ≡ flat_set (flip_of (bitmap_of size bits)) }
{
    SetC::from(bitmap::sets::flip(Bitmap { size, bits }))
}

/// `bitmap::sets::clear`: the set of that size with no id (rule 2.13).
#[unsafe(no_mangle)]
pub extern "C" fn bitmap_clear(size: u8, bits: u64) -> SetC
    ensures { result ≡ flat_set (clear_of (bitmap_of size bits)) }
{
    SetC::from(bitmap::sets::clear(Bitmap { size, bits }))
}

/// `bitmap::sets::union`: the ones of either set, which have one size (rule 2.11).
#[unsafe(no_mangle)]
pub extern "C" fn bitmap_union(size: u8, bits: u64, other_size: u8, other_bits: u64) -> SetC
    ensures { result ≡ flat_set (union_of (bitmap_of size bits) (bitmap_of other_size other_bits)) }
{
    let b = Bitmap { size, bits };
    let other = Bitmap {
        size: other_size,
        bits: other_bits,
    };
    SetC::from(bitmap::sets::union(b, other))
}

/// `bitmap::sets::is_superset`: whether every one of the other set is a one of the first (rule 2.12).
#[unsafe(no_mangle)]
pub extern "C" fn bitmap_is_superset(size: u8, bits: u64, other_size: u8, other_bits: u64) -> ValueC
    ensures { result ≡ flat_flag (is_superset_of (bitmap_of size bits) (bitmap_of other_size other_bits)) }
{
    let b = Bitmap { size, bits };
    let other = Bitmap {
        size: other_size,
        bits: other_bits,
    };
    ValueC::from(bitmap::sets::is_superset(b, other))
}

/// `bitmap::sets::from_range`: the set of the ids from start to below end (rule 2.4).
#[unsafe(no_mangle)]
pub extern "C" fn bitmap_range(size: u8, start: usize, end: usize) -> SetC
    ensures { result ≡ flat_set (from_range_of size start end) }
{
    SetC::from(bitmap::sets::from_range(size, start, end))
}

/// `bitmap::lists::from_ids`: the set of the ids of the list (rule 2.5).
#[unsafe(no_mangle)]
pub extern "C" fn bitmap_list(size: u8, ids: &[u8]) -> SetC
    ensures { result ≡ flat_set (from_ids_of size ids.now) }
{
    SetC::from(bitmap::lists::from_ids(size, ids))
}

/// `bitmap::lists::ones`: how many ones the set has; their ids, ascending, are written into the lent bytes (rules 2.14, 2.15).
#[unsafe(no_mangle)]
pub extern "C" fn bitmap_ones(size: u8, bits: u64, out: &mut [u8]) -> ValueC
    ensures value { result ≡ flat_count (ones_of (bitmap_of size bits) out.old) }
    ensures out_after { out.new ≡ bytes_after_ones (bitmap_of size bits) out.old }
{
    ValueC::from(bitmap::lists::ones(Bitmap { size, bits }, out))
}
