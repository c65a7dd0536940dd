// The manager's record as plain numbers, both ways, and which plain numbers are a manager's record (rule 13.1).
#![tactic(auto)]

pub mod form;
pub mod from_flat;
pub mod sound;
pub mod to_flat;
