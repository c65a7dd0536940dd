// The rows of a record: every rule on one id's row, and the loops that take the rules over the
// rows.
#![tactic(auto)]

pub mod clearing;
pub mod deadlines;
pub mod due;
pub mod each_row;
pub mod entries;
pub mod exploding;
pub mod firing;
pub mod handlers;
pub mod held;
pub mod laws;
pub mod pass;
pub mod sent;
