// The exported functions: what C and Rust call. A slice is a pointer and a length in elements, an array by reference
// one pointer. C hands over no struct or enum of ours: tables come one by one, a choice is a number, a part two words.
#![tactic(auto)]

mod answers;
pub mod calls;
pub mod measures;
pub mod parts;
pub mod readings;
