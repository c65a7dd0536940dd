// What is claimed of reachable records. Each function has no parameters and an empty body: its
// clauses are the claims.

ghost use Rattle.reachable.specs.Claims.{ListsReach, ReachedByLists, ReachableValid, Never15, HowFar, NoticesKeep, AdvancesKeep, QuietStartsKeep, DriftSettingsKeep, RefreshesKeep, NearStays, RefreshNeedsNear};

/// The reachable records are those that lists of calls from accepted set-ups lead to. None is
/// refused with 15 (rule 5.4), and a sent deadline is at most 2,000 s past now if its peer is
/// marked, else 3,000 s, a held one 1,000 s, the end of quiet time 2,000 s.
pub fn reachable()
    ensures lists_reach { ListsReach }
    ensures reached_by_lists { ReachedByLists }
    ensures valid { ReachableValid }
    ensures never_refused_with_15 { Never15 }
    ensures how_far_deadlines_reach { HowFar }
{}

/// Of any record that refusal 15 lets through (rule 5.3), reachable or not, each call leaves one
/// that refusal 15 lets through: no session has to look twice. A refresh (rule 8.5) does so where
/// deadlines sent to marked peers are at most 2,000 s past now, which stays so, and may fail to else.
pub fn valid_stays_valid()
    ensures notices { NoticesKeep }
    ensures advances { AdvancesKeep }
    ensures quiet_starts { QuietStartsKeep }
    ensures drift_settings { DriftSettingsKeep }
    ensures refreshes { RefreshesKeep }
    ensures near_stays_near { NearStays }
    ensures refresh_needs_near_deadlines { RefreshNeedsNear }
{}
