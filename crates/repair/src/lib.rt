// Repair: the links to a junction that its incoming roads leave out, and a direct junction's connections the other way.
#![tactic(auto)]

mod along;
pub mod call;
mod junction;
mod junctions;
mod laid;
mod laying;
mod links;
mod reads;
mod reversed;
mod roads;
mod targets;
