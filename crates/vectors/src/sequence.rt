// The lists and the gap rows of the chain's map, before and after a sequence of reversals, refused ones between them.
use crate::NO;
use crate::chain::{Lists, Map};
use crate::print::{Told, Words};
use gaps::call::link_gaps;
use reversal::call::{ReversalOutputs, reverse};
use std::{fmt, io};

// The map with the marked roads reversed; as it was, where that is refused.
#[inline(never)]
fn turned(rt: &impl Print, map: &Map, marks: [u32; 3]) -> io::Result<Map> {
    let mut after = *map;
    let mut out = ReversalOutputs {
        roads: after.roads.as_flattened_mut(),
        sections: &mut after.sections,
        connections: &mut after.connections,
        pairs: &mut after.pairs,
        lanes: after.lanes.as_flattened_mut(),
        edges: after.edges.as_flattened_mut(),
    };
    let answer = reverse(
        &map.tables(),
        map.lanes.as_flattened(),
        map.edges.as_flattened(),
        &marks,
        &mut out,
    );
    let told = Told::of(answer, "accepted");
    println!(rt; "reversal by the marks {}: {told}", Words(&marks))?;
    Ok(after)
}

// A gap row: two lanes that do not meet, and the bits of the gap and of the two places.
#[derive(Clone, Copy)]
struct Gap([u32; 5]);

impl fmt::Display for Gap {
    fn fmt<W: fmt::Write>(&self, f: &mut fmt::Formatter<W>) -> fmt::Result {
        let [row, next, gap, u, v] = self.0;
        write!(
            f,
            "lane rows {row} and {next}, gap {gap:08x} at {u:08x} and {v:08x}"
        )
    }
}

// The two gap rows of a repaired map. Nines where the gap check refuses it.
#[inline(never)]
fn show_gaps(rt: &impl Print, map: &Map, lists: &Lists) -> io::Result<()> {
    let mut rows = [[9; 5]; 2];
    let _ = link_gaps(
        &map.tables(),
        map.lanes.as_flattened(),
        map.edges.as_flattened(),
        &lists.onward,
        &lists.onward_ids,
        rows.as_flattened_mut(),
    );
    for row in rows {
        println!(rt; "{}", Gap(row))?;
    }
    Ok(())
}

// Repair's warning, the lists, the gap rows.
fn show_map(rt: &impl Print, map: &Map) -> io::Result<()> {
    let repaired = map.repaired(rt)?;
    let lists = repaired.linked();
    lists.print(rt)?;
    show_gaps(rt, &repaired, &lists)
}

// The map with lane 7 backward, 3 and 5 two-way.
fn directed(read: Map) -> Map {
    let mut map = read;
    for (lane, direction) in map.lanes.iter_mut().zip([1, 2, 2]) {
        lane[5] = direction;
    }
    map
}

pub fn show(rt: &impl Print, read: Map) -> io::Result<()> {
    println!(rt; "# Sequence")?;
    let mut map = directed(read);
    show_map(rt, &map)?;
    for marks in [[0, 1, 0], [0, 2, 0], [1, 0, 1], [1, 1, NO], [0, 1, 0]] {
        map = turned(rt, &map, marks)?;
    }
    show_map(rt, &map)
}
