// The lowest code: rows and words of tables, names in a text, lane numbers, and rows found by a key.
#![tactic(auto)]

pub mod by_key;
pub mod chain;
pub mod kinds;
pub mod map;
pub mod name;
pub mod names;
pub mod numbers;
pub mod rows;
pub mod target;
