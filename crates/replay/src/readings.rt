// Recorded readings of attributes, and length checks, run again. Beside the answer a record has the outputs.
use crate::compare::{Outputs, Record};
use crate::convert::{lengths, thousandths};
use crate::stream::{Lists, front, word_at};
use reading::junctions::{JunctionOutputs, read_junctions};
use reading::lanes::read_lanes;
use reading::length::{Uneven, check_length};
use reading::raw::RawJunctions;
use reading::targets::read_targets;
use std::alloc::AllocError;

// The raw tables: six lists.
#[derive(Clone, Copy)]
pub struct Raw<'a> {
    targets: &'a [u32],
    lanes: &'a [u32],
    junctions: RawJunctions<'a>,
}

impl<'a> Raw<'a> {
    // Of the text and the lists after it: targets, lanes, junctions, connections, lane links.
    pub fn read(text: &'a [u8], mut lists: Lists<'a>) -> Self {
        Raw {
            targets: lists.list(),
            lanes: lists.list(),
            junctions: RawJunctions {
                text,
                junctions: lists.list(),
                connections: lists.list(),
                lane_links: lists.list(),
            },
        }
    }

    // The reading of targets again. Does it come out as recorded?
    pub fn targets(&self, mut record: Record) -> Result<bool, AllocError> {
        let mut targets = record.output()?;
        let mut warnings = record.output()?;
        let answer = read_targets(
            self.junctions.text,
            self.targets,
            targets.entries.as_mut_slice(),
            warnings.entries.as_mut_slice(),
        )
        .map(|n| [n.targets, n.warnings]);
        Ok(record.is_told(answer) && targets.is_recorded() && warnings.is_recorded())
    }

    // The same of lanes.
    pub fn lanes(&self, mut record: Record) -> Result<bool, AllocError> {
        let mut rows = record.output()?;
        let answer = read_lanes(self.junctions.text, self.lanes, rows.entries.as_mut_slice());
        Ok(record.is_told(answer.map(|n| [n])) && rows.is_recorded())
    }

    // The same of junctions.
    pub fn junctions(&self, mut record: Record) -> Result<bool, AllocError> {
        let Outputs(mut junctions, mut connections, mut pairs, mut warnings) = record.outputs()?;
        let mut out = JunctionOutputs {
            junctions: junctions.entries.as_mut_slice(),
            connections: connections.entries.as_mut_slice(),
            pairs: pairs.entries.as_mut_slice(),
            warnings: warnings.entries.as_mut_slice(),
        };
        let answer = read_junctions(&self.junctions, &mut out).map(|n| [
            n.junctions,
            n.connections,
            n.pairs,
            n.warnings,
        ]);
        Ok(record.tells(answer, Outputs(junctions, connections, pairs, warnings)))
    }
}

// Are these the two halves of a float's bits, the high one first?
fn has_bits(x: f64, halves: &[u32]) -> bool {
    let (high, low) = (word_at(halves, 0), word_at(halves, 1));
    !x.is_nan() && x.to_bits() == (u64::from(high) << 32 | u64::from(low))
}

// How many starts and how many lengths are lent at most.
const MOST: usize = 3;

// A length check takes starts, lengths, and the road's length, all in thousandths. 16 is the refusal; a 1 after the
// refusal says that the length is off, and the last list then has the sum's bits.
pub fn length_again(mut record: Record) -> Result<bool, AllocError> {
    let starts = lengths(record.alloc, front(record.list(), MOST))?;
    let road = lengths(record.alloc, front(record.list(), MOST))?;
    let length = thousandths(word_at(record.list(), 0));
    let checked = check_length(starts.as_slice(), road.as_slice(), length);
    Ok(match checked {
        Ok(None) => record.has(0, &[]),
        Ok(Some(sum)) => record.has(0, &[1]) && has_bits(sum, record.list()),
        Err(Uneven) => record.has(16, &[]),
    })
}
