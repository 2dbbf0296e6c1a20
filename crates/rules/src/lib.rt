// The rules of refusal over the lent tables, each as a test that is true where the rule is kept.
#![tactic(auto)]

pub mod lanes;
pub mod marks;
pub mod parts;
pub mod sizes;
pub mod worded;
