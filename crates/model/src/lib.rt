// The definitions that every contract cites stand under specs/; there is no code to call.
#![tactic(auto)]

pub fn nothing() -> u32 {
    0
}
