// What is claimed of the definitions that this crate's contracts cite.

ghost use Rattle.peer_rows.specs.ClearingClaims.{SaysAll, RulesClear, OnlyRules, Raised, AllCleared};
ghost use Rattle.peer_rows.specs.ClearingExamples.{OnTheWay, NotOneFewer, NotOneMore, NotOneTable, NotWithoutMark};

/// Rule 7.3: `ClearedBelow` determines the rows, the rules' pass leaves exactly those, and at the
/// population they are the rows of the record raised to the number, in which no id has an entry.
pub fn clearing_is_the_rules()
    ensures one_outcome { SaysAll }
    ensures pass_clears { RulesClear }
    ensures pass_alone_clears { OnlyRules }
    ensures raised_is_cleared { Raised }
    ensures no_entry_left { AllCleared }
{}

/// Rule 7.3 on three rows: the rows on the way through the pass are cleared below 0, 1, 2 and 3;
/// rows with one id too few or too many done, a promise left, or a mark dropped are not.
pub fn clearing_examples()
    ensures on_the_way { OnTheWay }
    ensures not_one_fewer { NotOneFewer }
    ensures not_one_more { NotOneMore }
    ensures not_one_table { NotOneTable }
    ensures not_without_mark { NotWithoutMark }
{}
