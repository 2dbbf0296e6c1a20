// Succession: the lanes onward of each lane, and the lanes before.
#![tactic(auto)]

mod back;
pub mod call;
mod converse;
mod entries;
mod follow;
mod junction;
mod list;
pub mod lists;
mod meeting;
mod names;
mod own;
mod sections;
mod step;
mod walk;
