// The log of the rules' actions, and the log theorem (rule 11.5): definitions in specs/, claimed by
// the functions of `laws`.
#![tactic(auto)]

pub mod laws;
