// What holds of the definitions of sets for every set. Each function has an empty body: its contract is the claim.

ghost use Rattle.bitmap.specs.Claims.{NoOneAbove, OnesAreTaken, MadeOfOnes, OnesAndZeros, SupersetHasAll, NoRange, ListedCount, ListedOnes, ListedAscending};
ghost use Rattle.bitmap.specs.Examples.{Sizes, OnesAbove, RangesAndLists, LentBytes};

/// A set and its ones: a set handed back has zeros at and above its size and below it what made it, a set is made
/// by its ones, and ones and zeros together are as many as the size says (rules 2.1, 2.2, 2.10).
pub fn sets_are_their_ones()
    ensures no_one_above { NoOneAbove }
    ensures ones_are_taken { OnesAreTaken }
    ensures made_of_ones { MadeOfOnes }
    ensures ones_and_zeros { OnesAndZeros }
{}

/// A superset has every one of the other set; a range that ends at or below its start is empty (rules 2.4, 2.12).
pub fn supersets_and_ranges()
    ensures superset_has_all { SupersetHasAll }
    ensures no_range { NoRange }
{}

/// The list of the ids of the ones has each once, ascending, and no other (rule 2.14).
pub fn ones_are_listed()
    ensures as_many { ListedCount }
    ensures the_ones { ListedOnes }
    ensures ascending { ListedAscending }
{}

/// The calls at small sets.
pub fn worked_examples()
    ensures sizes { Sizes }
    ensures ones_above { OnesAbove }
    ensures ranges_and_lists { RangesAndLists }
    ensures lent_bytes { LentBytes }
{}
