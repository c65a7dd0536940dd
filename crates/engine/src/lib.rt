// The record in place: what a call that is not refused does to it, each call with its refusals on a
// lent record, and set-up.
#![tactic(auto)]

pub mod calls;
pub mod clock;
pub mod due;
pub mod lines;
pub mod notices;
pub mod questions;
pub mod set_up;
pub mod valid;
