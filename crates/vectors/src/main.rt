// Worked cases of every call, in print: `stdout` has what they must be.
#![tactic(auto)]

mod attributes;
mod cards;
mod chain;
mod print;
mod refusals;
mod sequence;

use std::io;

// The first word of a name that is absent.
pub const NO: u32 = 4294967295;

fn main(rt: HostRuntime) -> io::Result<()> {
    cards::show(&rt)?;
    refusals::show(&rt)?;
    attributes::show(&rt)?;
    let map = chain::show(&rt)?;
    sequence::show(&rt, map)
}
