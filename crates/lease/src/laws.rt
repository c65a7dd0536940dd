// What holds of the rules for every record. Each function does nothing: its contract is the claim.

ghost use Rattle.lease.specs.FiredClaims.{ListedOnce, ListedInOrder, ListedCount, FiredOnce, FiredRoom, FiredListed, FiredDue};
ghost use Rattle.lease.specs.LeftClaims.{NoneLeft, ZeroLeft, LeftLeased};
ghost use Rattle.lease.specs.RuleClaims.{AtMostThree, RefusedCallsKeep, RefusedSetUp};

/// The list of fired timers (rule 8.3). Of any rows and any two sets it has exactly the timers of
/// the sets, each once, in the firing order, as many as the sets have ids. Of an advance it has
/// exactly the timers that fire, fits into its places, is what advance answers, and each deadline
/// in it is above the reading before and not above the new one.
pub fn fired_list_is_exact()
    ensures each_of_the_sets_once { ListedOnce }
    ensures in_firing_order { ListedInOrder }
    ensures as_many_as_ids { ListedCount }
    ensures each_that_fires_once { FiredOnce }
    ensures has_room { FiredRoom }
    ensures answered_by_advance { FiredListed }
    ensures just_due { FiredDue }
{}

/// Time left (rule 9.4) is none exactly without a held promise, 0 exactly where the promise has run
/// out, and above 0 exactly where the peer is in the lease set.
pub fn time_left_is_exact()
    ensures none_without_promise { NoneLeft }
    ensures zero_when_over { ZeroLeft }
    ensures some_in_lease_set { LeftLeased }
{}

/// A notice gives at most three lines (rule 7.14).
pub fn lines_are_at_most_three()
    ensures { AtMostThree }
{}

/// A refused call answers the record that went in (rule 10.31), and a refused set-up one that every
/// call refuses (rule 6.3).
pub fn refusals_change_nothing()
    ensures calls_keep_the_record { RefusedCallsKeep }
    ensures set_up_gives_no_manager { RefusedSetUp }
{}
