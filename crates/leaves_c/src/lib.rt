// The calls of the crates bitmap and drift under C names: a static library for the runs beside the Rust, which compare each answer.
#![tactic(auto)]

pub mod bitmaps;
pub mod drifts;
