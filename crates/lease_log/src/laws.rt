// What is claimed of the log. Each function has no parameters and an empty body: its clauses are the
// claims.

ghost use Rattle.lease_log.specs.LogTheorem.{LogTheorem};
ghost use Rattle.lease_log.specs.Program.{LogTheoremOfRuled};
ghost use Rattle.lease_log.specs.Counts.{Counts};
ghost use Rattle.lease_log.specs.Edges.{OneCounts};
ghost use Rattle.lease_log.specs.WrongManagers.{ObeyingMeets, UntouchedFails, RepliesFalseFails, RepliesFalseBreaks, FakesLaterFails, InventsCountFails};

/// The log theorem (rule 11.5). After any list of calls from an accepted set-up, refused ones and
/// questions included, the log decides the grant set, the lease set and the lease count: of the
/// rules, and of any manager that obeys them. In quiet time too it decides how many promises are
/// sent and how many leases are held.
pub fn log_theorem()
    ensures rules { LogTheorem }
    ensures any_that_obeys { LogTheoremOfRuled }
    ensures counts { Counts }
{}

/// The line that an advance gives as quiet time ends stays out of the log by where it comes from
/// (rule 11.1): it ends no promise, and the same line of a notice ends one.
pub fn quiet_end_line()
    ensures not_logged { OneCounts }
{}

/// The log theorem tells managers apart (rule 20.3). From one small set-up a manager that obeys the
/// rules meets it. One that keeps its record, as one that turns all notices down does, one that
/// replies PromiseReply{held:false} to everything, one that obeys the first notice and fakes the
/// later ones, and one that invents its lease count do not.
pub fn wrong_managers()
    ensures obeying_meets_it { ObeyingMeets }
    ensures untouched_fails { UntouchedFails }
    ensures replies_false_fails { RepliesFalseFails }
    ensures replies_false_breaks_the_rules { RepliesFalseBreaks }
    ensures fakes_later_fails { FakesLaterFails }
    ensures invents_count_fails { InventsCountFails }
{}
