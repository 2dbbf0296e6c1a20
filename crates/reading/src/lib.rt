// Attribute reading: lane numbers, targets, lanes and junctions from attributes as a file has them; and the length
// check.
#![tactic(auto)]

mod attributes;
mod connections;
pub mod junctions;
mod laid;
pub mod lanes;
pub mod length;
mod links;
pub mod numbers;
pub mod raw;
pub mod targets;
mod warning;
