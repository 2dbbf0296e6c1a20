// The first refusal that applies to a call, and what the calls look up.
#![tactic(auto)]

pub mod check;
pub mod lookup;
pub mod refusal;
pub mod verdict;
