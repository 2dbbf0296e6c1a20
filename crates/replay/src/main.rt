// Recorded answers of the original, run through the proved calls: how many come out as recorded.
#![tactic(auto)]

mod calls;
mod compare;
mod convert;
mod outcome;
mod readings;
mod stream;
mod walk;

use crate::outcome::report;
use crate::stream::words;
use crate::walk::walk;
use std::io;
use std::io::Read;

// How many bytes are read at most.
const MOST: u64 = 1048576;

fn main(rt: HostRuntime) -> io::Result<()> {
    let mut text = Vec::new(rt.alloc());
    rt.reader().take(MOST).read_to_end(&mut text)?;
    let words = words(rt.alloc(), text.as_slice())?;
    let outcomes = walk(&rt, words.as_slice())?;
    report(&rt, outcomes.as_slice())
}
