// When a call is refused (rules 10.1 to 10.31): set-up's limits, the record check, each call's own
// refusals.
#![tactic(auto)]

pub mod calls;
pub mod entries;
pub mod limits;
pub mod records;
pub mod rows;
