// Calls, events, answers and the manager's record as plain numbers, both ways: one codec under the C interface (rule 13) and the event
// cards (rule 14).
#![tactic(auto)]

pub mod answers;
pub mod calls;
pub mod events;
pub mod flat;
pub mod laws;
pub mod lines;
