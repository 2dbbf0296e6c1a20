// Reversal of the reference lines of the marked roads.
#![tactic(auto)]

pub mod call;
mod lanes;
mod links;
mod marks;
mod roads;
