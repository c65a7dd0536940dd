// Calls on a flat record where it stands: a row is read as a manager's, changed by the rules of `peer_rows`, and written back (rule 13.1).
#![tactic(auto)]

pub mod calls;
pub mod clearing;
pub mod clock;
pub mod fired;
pub mod notices;
pub mod questions;
pub mod rows;
pub mod set_up;
