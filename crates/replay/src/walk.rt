// The steps of the stream, run one after the other.
use crate::calls::Map;
use crate::compare::Record;
use crate::convert::bytes;
use crate::outcome::{Call, Kind, Outcome, UnknownKind};
use crate::readings::{Raw, length_again};
use crate::stream::{Lists, Step, Steps, front};
use std::alloc::{AllocError, Global};
use std::io;

// Runs a call again, over a text and the tables after it.
fn again(call: Call, text: &[u8], tables: Lists, record: Record) -> Result<Outcome, AllocError> {
    let well = match call {
        Call::Repair => Map::read(text, tables).repair(record),
        Call::Succession => Map::read(text, tables).succession(record),
        Call::Gaps => Map::read(text, tables).gaps(record),
        Call::Reversal => Map::read(text, tables).reverse(record),
        Call::Targets => Raw::read(text, tables).targets(record),
        Call::Lanes => Raw::read(text, tables).lanes(record),
        Call::Junctions => Raw::read(text, tables).junctions(record),
        Call::Length => length_again(record),
    };
    Ok(if well? {
        record.outcome()
    } else {
        Outcome::Other
    })
}

fn print_other(rt: &impl Print, step: Step) -> io::Result<()> {
    println!(rt; "not as recorded: the step at word {}", step.at)
}

// How many bytes of a text are lent at most.
const MOST: usize = 512;

// What the steps so far came to, and over what calls are run after them.
#[derive(Drop)]
struct Replay<'a> {
    outcomes: Vec<(Call, Outcome)>,
    text: Vec<u8>,
    tables: Lists<'a>,
}

impl<'a> Replay<'a> {
    // The text and the tables for the calls that follow.
    fn set_tables(&mut self, alloc: Global, lists: Lists<'a>) -> Result<(), AllocError> {
        self.tables = lists;
        self.text = bytes(alloc, front(self.tables.list(), MOST))?;
        Ok(())
    }

    // Takes the text and the tables of a step, or runs its call again and says where it is not as recorded.
    fn take<R: Print + AllocGlobal>(&mut self, rt: &R, step: Step<'a>) -> io::Result<()> {
        match step.kind {
            Ok(Kind::Tables) => {
                self.set_tables(rt.alloc(), step.lists)?;
                Ok(())
            }
            Ok(Kind::Call(call)) => {
                let record = Record::of(rt.alloc(), step.lists);
                let outcome = again(call, self.text.as_slice(), self.tables, record)?;
                self.outcomes.push((call, outcome))?;
                if outcome == Outcome::Other {
                    return print_other(rt, step);
                }
                Ok(())
            }
            Err(UnknownKind) => print_other(rt, step),
        }
    }
}

// Runs each call again over the tables of the last step that has some, or before one those of the list that the stream
// begins with.
pub fn walk<R: Print + AllocGlobal>(rt: &R, words: &[u32]) -> io::Result<Vec<(Call, Outcome)>> {
    let mut replay = Replay {
        outcomes: Vec::new(rt.alloc()),
        text: Vec::new(rt.alloc()),
        tables: Lists(&[]),
    };
    let mut all = Lists(words);
    replay.set_tables(rt.alloc(), Lists(all.list()))?;
    for step in Steps::over(words) {
        replay.take(rt, step)?;
    }
    Ok(replay.outcomes)
}
