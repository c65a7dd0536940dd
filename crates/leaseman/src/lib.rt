// The calls of a manager with the Rust's names, by value and lent (rule 8.7). Each looks for a
// refusal first, and none has a `requires`.
#![tactic(auto)]

pub mod clock;
pub mod lent;
pub mod notice;
pub mod outer;
pub mod questions;
