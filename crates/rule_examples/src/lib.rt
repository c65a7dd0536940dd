// Lists of examples of the rules, each with one claim about the whole. A function stands for each
// list: it does nothing, and its contract is the claim.
#![tactic(auto)]

ghost use Rattle.rule_examples.specs.Branches.{HeldBranches, SentBranches, NumberBranches, WrongRecords, RightRecords};
ghost use Rattle.rule_examples.specs.Edges.{FarReached, FarAccepted, BeyondRefused, CallRefusals, SetUpRefusals};
ghost use Rattle.rule_examples.specs.Firing.{FiringExamples};
ghost use Rattle.rule_examples.specs.Mistakes.{MistakesAvoided, MistakesShow};
ghost use Rattle.rule_examples.specs.Worked.{WorkedExamples};

/// The worked examples (rule 20.1): each answer of the list is the rules' answer.
pub fn worked_examples()
    ensures { WorkedExamples }
{}

/// The common mistakes (rule 20.2): what the rules answer to calls at which one of the four
/// mistakes shows, and what each mistake makes of one of these calls.
pub fn common_mistakes()
    ensures rules_answer { MistakesAvoided }
    ensures mistakes_differ { MistakesShow }
{}

/// The edges (rule 20.4). Calls lead to a deadline 3,000 s past the reading, such a record is a
/// manager's, and one ns more is refused with 15. Each refusal of a call comes at its limit and not
/// before it. Set-up's refusals come in their order.
pub fn edges()
    ensures deadline_reached { FarReached }
    ensures deadline_accepted { FarAccepted }
    ensures later_deadline_refused { BeyondRefused }
    ensures call_refusals { CallRefusals }
    ensures set_up_refusals { SetUpRefusals }
{}

/// The branches (rule 20.4) of the rules on the held side, on the sent side, and about numbers and
/// quiet time; and of the record check (rule 5.3): records that are wrong in one respect each, and
/// records that are right at a limit.
pub fn branches()
    ensures held_side { HeldBranches }
    ensures sent_side { SentBranches }
    ensures numbers_and_quiet_time { NumberBranches }
    ensures wrong_records { WrongRecords }
    ensures right_records { RightRecords }
{}

/// The firing order (rule 8.3) on one record with equal deadlines on both sides: what fires at four
/// readings, in order.
pub fn firing_order()
    ensures { FiringExamples }
{}
