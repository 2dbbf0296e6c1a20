// The gap check: the lane links whose ends do not meet.
#![tactic(auto)]

pub mod call;
mod links;
mod lists;
