// Which records set-up's calls lead to (rules 5.3, 5.4): definitions in specs/, claimed by the
// functions of `laws`.
#![tactic(auto)]

pub mod laws;
