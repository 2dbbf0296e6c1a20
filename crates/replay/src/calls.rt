// Recorded calls on a map, run again. Beside the answer a record has what else the call takes, then the outputs.
use crate::compare::{Outputs, Record};
use crate::convert::floats;
use crate::stream::{Lists, front};
use gaps::call::link_gaps;
use repair::call::{RepairOutputs, repair};
use reversal::call::{ReversalOutputs, reverse};
use std::alloc::AllocError;
use succession::call::{ListOutputs, succession};
use words::map::MapTables;

// How many floats of the edges are lent at most.
const MOST: usize = 256;

// The tables of a map: eight lists. Of its edges the bits.
#[derive(Clone, Copy)]
pub struct Map<'a> {
    tables: MapTables<'a>,
    lanes: &'a [u32],
    edges: &'a [u32],
}

// No call is inlined: a function with the frames of all of them would take half a megabyte more stack.
impl<'a> Map<'a> {
    // Of the text and the lists after it: roads, sections, junctions, connections, pairs, lanes, edges.
    pub fn read(text: &'a [u8], mut lists: Lists<'a>) -> Self {
        Map {
            tables: MapTables {
                text,
                roads: lists.list(),
                sections: lists.list(),
                junctions: lists.list(),
                connections: lists.list(),
                pairs: lists.list(),
            },
            lanes: lists.list(),
            edges: front(lists.list(), MOST),
        }
    }

    // Repair again. Does it come out as recorded?
    #[inline(never)]
    pub fn repair(&self, mut record: Record) -> Result<bool, AllocError> {
        let Outputs(mut roads, mut junctions, mut connections, mut pairs) = record.outputs()?;
        let mut warnings = record.output()?;
        let mut out = RepairOutputs {
            roads: roads.entries.as_mut_slice(),
            junctions: junctions.entries.as_mut_slice(),
            connections: connections.entries.as_mut_slice(),
            pairs: pairs.entries.as_mut_slice(),
            warnings: warnings.entries.as_mut_slice(),
        };
        let answer = repair(&self.tables, &mut out).map(|n| [
            n.roads,
            n.junctions,
            n.connections,
            n.pairs,
            n.warnings,
        ]);
        Ok(
            record.tells(answer, Outputs(roads, junctions, connections, pairs))
                && warnings.is_recorded(),
        )
    }

    // The same of succession.
    #[inline(never)]
    pub fn succession(&self, mut record: Record) -> Result<bool, AllocError> {
        let Outputs(mut onward, mut onward_ids, mut before, mut before_ids) = record.outputs()?;
        let mut out = ListOutputs {
            successor_offsets: onward.entries.as_mut_slice(),
            successor_ids: onward_ids.entries.as_mut_slice(),
            predecessor_offsets: before.entries.as_mut_slice(),
            predecessor_ids: before_ids.entries.as_mut_slice(),
        };
        let answer = succession(&self.tables, self.lanes, &mut out).map(|n| {
            [
                n.successor_offsets,
                n.successor_ids,
                n.predecessor_offsets,
                n.predecessor_ids,
            ]
        });
        Ok(record.tells(answer, Outputs(onward, onward_ids, before, before_ids)))
    }

    // The same of the gap check, which takes offsets and identities too.
    #[inline(never)]
    pub fn gaps(&self, mut record: Record) -> Result<bool, AllocError> {
        let offsets = record.list();
        let ids = record.list();
        let edges = floats(record.alloc, self.edges)?;
        let mut rows = record.output()?;
        let answer = link_gaps(
            &self.tables,
            self.lanes,
            edges.as_slice(),
            offsets,
            ids,
            rows.entries.as_mut_slice(),
        );
        Ok(record.is_told(answer.map(|n| [n])) && rows.is_recorded())
    }

    // The same of reversal, which takes marks too.
    #[inline(never)]
    pub fn reverse(&self, mut record: Record) -> Result<bool, AllocError> {
        let marks = record.list();
        let lent = floats(record.alloc, self.edges)?;
        let Outputs(mut roads, mut sections, mut connections, mut pairs) = record.outputs()?;
        let mut lanes = record.output()?;
        let mut edges = record.output()?;
        let mut out = ReversalOutputs {
            roads: roads.entries.as_mut_slice(),
            sections: sections.entries.as_mut_slice(),
            connections: connections.entries.as_mut_slice(),
            pairs: pairs.entries.as_mut_slice(),
            lanes: lanes.entries.as_mut_slice(),
            edges: edges.entries.as_mut_slice(),
        };
        let answer = reverse(&self.tables, self.lanes, lent.as_slice(), marks, &mut out).map(|n| {
            [
                n.roads,
                n.sections,
                n.connections,
                n.pairs,
                n.lanes,
                n.edges,
            ]
        });
        Ok(
            record.tells(answer, Outputs(roads, sections, connections, pairs))
                && lanes.is_recorded()
                && edges.is_recorded(),
        )
    }
}
