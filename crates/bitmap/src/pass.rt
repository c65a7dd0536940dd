// The one pass over the ids below a size, for any test on an id: which ids it takes, as a set, and how many they are.

ghost use Rattle.std.specs.Prelude.{◌≡◌, ◌+◌, ◌^◌, ◌<◌, ◌≤◌, ℕ, Bool};
ghost use Rattle.bitmap.specs.Sets.{count_where};
ghost use Rattle.bitmap.specs.Bitmaps.{capacity, number, is_one};
ghost use Rattle.bitmap.specs.Operations.{built};
ghost use Rattle.bitmap.specs.Numbers.{answer_number, size_refusal};
ghost use Rattle.bitmap.specs.Tests.{Computes, chosen_where, chosen_with};

use crate::{Bitmap, BitmapError, check_size, is_one, none, with_id};

/// The ids that a pass takes.
#[derive(Clone, Copy)]
pub struct Chosen {
    /// They as a set.
    pub set: Bitmap,
    /// How many they are.
    pub count: u8,
}

// Adds the id i, which is above all that were chosen, if `on`: `bitmap::with_id`, with its bounds, and the count.
fn chosen_with(chosen: Chosen, on: bool, i: usize) -> Chosen
    requires i_lt_capacity { i < capacity }
    requires set_bound { number chosen.set < 2 ^ i }
    requires count_le_i { chosen.count ≤ i }
    ensures value { result ≡ chosen_with chosen on i }
    ensures set_bound { number result.set < 2 ^ (i + 1) }
    ensures count_le { result.count ≤ i + 1 }
{
    Chosen {
        set: with_id(chosen.set, on, i),
        count: chosen.count + u8::from(on),
    }
}

/// The ids below the size that the test takes.
pub fn choose<F: Fn(usize) -> bool>(size: u8, takes: F) -> Chosen
    requires size_le { size ≤ capacity }
    requires callable { F.IsAlwaysCallable takes }
    ensures { (p : ℕ → Bool) → Computes (F.post takes) size p → result ≡ chosen_where size p }
{
    let mut chosen = Chosen {
        set: none(size),
        count: 0,
    };
    for i in 0..usize::from(size) {
        chosen = chosen_with(chosen, takes(i), i);
    }
    chosen
}

/// How many ones the set has.
pub fn tally(b: Bitmap) -> u8
    requires { b.size ≤ capacity }
    ensures { result ≡ count_where (is_one b) b.size }
{
    choose(b.size, |i| is_one(b, i)).count
}

/// The set of the ids below the size that the test takes; a size that is not 1 to 64 is refused (rule 10.12).
pub fn build<F: Fn(usize) -> bool>(size: u8, takes: F) -> Result<Bitmap, BitmapError>
    requires callable { F.IsAlwaysCallable takes }
    ensures value { (p : ℕ → Bool) → Computes (F.post takes) size p → result ≡ built size p }
    ensures refusal { answer_number result ≡ size_refusal size }
{
    check_size(size)?;
    Ok(choose(size, takes).set)
}
