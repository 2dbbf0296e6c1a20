// Reading, repair, succession, one after the other.
// Road w leads into junction j, and its own links leave that out; road c connects it with road e. Once as OpenDRIVE
// spells contact points, and once spelled loosely.
use crate::NO;
use crate::attributes::NO_ELEMENT;
use crate::cards::{EDGES_3, EDGES_7, EDGES_9};
use crate::print::{Told, Words, say};
use reading::junctions::{JunctionOutputs, read_junctions};
use reading::lanes::read_lanes;
use reading::raw::RawJunctions;
use reading::targets::read_targets;
use repair::call::{RepairOutputs, repair};
use std::{fmt, io};
use succession::call::{ListOutputs, succession};
use succession::lists::list_lookup;
use tables::refusal::Refusal;
use words::map::MapTables;
use words::rows;

// Names: w at 0, c at 1, e at 2, j at 3; -1 at 4, end at 6, start at 9, End at 14, Start at 17.
pub const TEXT: [u8; 22] = *b"wcej-1endstartEndStart";

// The chain's map. Each road has one section, and each section one lane.
#[derive(Clone, Copy)]
pub struct Map {
    pub roads: [[u32; 20]; 3],
    pub sections: [u32; 3],
    pub junctions: [u32; 5],
    pub connections: [u32; 7],
    pub pairs: [u32; 2],
    pub lanes: [[u32; 10]; 3],
    pub edges: [[f32; 12]; 3],
}

// No call is inlined: a function with the frames of all of them would take a megabyte more stack.
impl Map {
    // Its tables but lanes and edges.
    pub fn tables(&self) -> MapTables<'_> {
        MapTables {
            text: &TEXT,
            roads: self.roads.as_flattened(),
            sections: &self.sections,
            junctions: &self.junctions,
            connections: &self.connections,
            pairs: &self.pairs,
        }
    }

    // The map after repair.
    #[inline(never)]
    pub fn repaired(&self, rt: &impl Print) -> io::Result<Map> {
        let mut after = *self;
        let mut warnings = [0; 4];
        let mut out = RepairOutputs {
            roads: after.roads.as_flattened_mut(),
            junctions: &mut after.junctions,
            connections: &mut after.connections,
            pairs: &mut after.pairs,
            warnings: &mut warnings,
        };
        let answer = repair(&self.tables(), &mut out).map(|rows| rows.warnings);
        print_warned(rt, "repaired", answer, &warnings)?;
        Ok(after)
    }

    // The lists of a repaired map; zeros where succession refuses it.
    #[inline(never)]
    pub fn linked(&self) -> Lists {
        let mut lists = Lists {
            onward: [0; 4],
            onward_ids: [0; 3],
            before: [0; 4],
            before_ids: [0; 3],
        };
        let mut out = ListOutputs {
            successor_offsets: &mut lists.onward,
            successor_ids: &mut lists.onward_ids,
            predecessor_offsets: &mut lists.before,
            predecessor_ids: &mut lists.before_ids,
        };
        let _ = succession(&self.tables(), self.lanes.as_flattened(), &mut out);
        lists
    }
}

// The targets of the roads w, c and e.
#[derive(Clone, Copy)]
struct Targets<'a>(&'a [[u32; 20]; 3]);

impl fmt::Display for Targets<'_> {
    fn fmt<W: fmt::Write>(&self, f: &mut fmt::Formatter<W>) -> fmt::Result {
        let [w, c, e] = self.0;
        let w = Words(&w[4..18]);
        let c = Words(&c[4..18]);
        let e = Words(&e[4..18]);
        write!(f, "{w} {c} {e}")
    }
}

// The lanes onward of each lane, and the lanes before: offsets and identities.
#[derive(Clone, Copy)]
pub struct Lists {
    pub onward: [u32; 4],
    pub onward_ids: [u32; 3],
    pub before: [u32; 4],
    pub before_ids: [u32; 3],
}

impl Lists {
    // One list of the lane in a row.
    fn list(&self, row: usize, before: bool) -> Words<'_> {
        Words(list_lookup(
            &self.onward,
            &self.onward_ids,
            &self.before,
            &self.before_ids,
            row,
            before,
        ))
    }

    // A line for each lane: the lanes onward, and the lanes before.
    pub fn print(&self, rt: &impl Print) -> io::Result<()> {
        for (row, identity) in [7, 3, 5].iter().enumerate() {
            let onward = self.list(row, false);
            let before = self.list(row, true);
            println!(rt; "lane {identity}, onward: {onward}; before: {before}")?;
        }
        Ok(())
    }
}

// What was accepted, with how many warning rows, and the one that it wrote, or none.
fn print_warned(
    rt: &impl Print,
    accepted: &str,
    answer: Result<usize, Refusal>,
    warnings: &[u32],
) -> io::Result<()> {
    let written = match answer {
        Ok(0) | Err(_) => &[],
        Ok(_) => warnings,
    };
    println!(rt;
        "{}, warning row: {}",
        Told::of(answer, accepted),
        Words(written)
    )
}

// A contactPoint: where it stands in the text.
type ContactPoint = [u32; 2];

// w has no target; c comes from w's end, where its contactPoint says so, and leads to e's start; e comes from c's end.
fn read_ends(rt: &impl Print, point: ContactPoint) -> io::Result<[[u32; 14]; 3]> {
    let raw = [
        NO_ELEMENT,
        NO_ELEMENT,
        [1, NO, 0, 0, 1, point[0], point[1], NO, 0],
        [1, NO, 0, 2, 1, 9, 5, NO, 0],
        [1, NO, 0, 1, 1, 6, 3, NO, 0],
        NO_ELEMENT,
    ];
    let mut targets = [[0; 14]; 3];
    let mut warnings = [0; 4];
    let answer = read_targets(
        &TEXT,
        raw.as_flattened(),
        targets.as_flattened_mut(),
        &mut warnings,
    );
    let answer = answer.map(|rows| rows.warnings);
    print_warned(rt, "targets: read", answer, &warnings)?;
    Ok(targets)
}

// A road with its name and the junction that it lies in, its two targets, and one section, which stands in a row.
fn road(name: [u32; 4], targets: &[u32; 14], section: u32) -> [u32; 20] {
    let mut road = [0; 20];
    rows::put(&mut road, 0, &name);
    rows::put(&mut road, 4, targets);
    rows::put(&mut road, 18, &[section, 1]);
    road
}

// w has no link of its own; c comes from -1 and leads to -1; e comes from -1.
fn read_links(rt: &impl Print) -> io::Result<[[u32; 4]; 3]> {
    let raw = [NO, 0, NO, 0, 4, 2, 4, 2, 4, 2, NO, 0];
    let mut links = [[0; 4]; 3];
    let answer = read_lanes(&TEXT, &raw, links.as_flattened_mut());
    say(rt, "lanes", Told::of(answer, "read"))?;
    Ok(links)
}

// A forward lane with the number -1 on a road. Its links, read predecessor first, stand successor first.
fn lane(identity: u32, road: u32, links: [u32; 4]) -> [u32; 10] {
    let [before, number_before, after, number_after] = links;
    [
        identity,
        road,
        1,
        0,
        NO,
        0,
        after,
        number_after,
        before,
        number_before,
    ]
}

// The tables of a junction with one connection, and its pair.
type Joined = ([u32; 5], [u32; 7], [u32; 2]);

// Junction j: from w into c, met at its start; lane -1 to lane -1.
fn read_joined(rt: &impl Print, met: ContactPoint) -> io::Result<Joined> {
    let mut junctions = [0; 5];
    let mut connections = [0; 7];
    let mut pairs = [0; 2];
    let mut warnings = [0; 4];
    let raw = RawJunctions {
        text: &TEXT,
        junctions: &[3, 1, NO, 0, NO, 0, 0, 1],
        connections: &[NO, 0, NO, 0, 0, 1, 1, 1, NO, 0, met[0], met[1], 0, 1],
        lane_links: &[4, 2, 4, 2],
    };
    let mut out = JunctionOutputs {
        junctions: &mut junctions,
        connections: &mut connections,
        pairs: &mut pairs,
        warnings: &mut warnings,
    };
    let answer = read_junctions(&raw, &mut out).map(|rows| rows.warnings);
    print_warned(rt, "junctions: read", answer, &warnings)?;
    Ok((junctions, connections, pairs))
}

// The map with the contactPoints of c's predecessor and of the connection. The lanes lie along the x axis.
fn read(rt: &impl Print, point: ContactPoint, met: ContactPoint) -> io::Result<Map> {
    let [w, c, e] = read_ends(rt, point)?;
    let [of_w, of_c, of_e] = read_links(rt)?;
    let (junctions, connections, pairs) = read_joined(rt, met)?;
    Ok(Map {
        roads: [
            road([0, 1, NO, 0], &w, 0),
            road([1, 1, 3, 1], &c, 1),
            road([2, 1, NO, 0], &e, 2),
        ],
        sections: [0; 3],
        junctions,
        connections,
        pairs,
        lanes: [lane(7, 0, of_w), lane(3, 1, of_c), lane(5, 2, of_e)],
        edges: [EDGES_7, EDGES_3, EDGES_9],
    })
}

// Reads the map with these contactPoints, and goes on with it.
fn run(rt: &impl Print, point: ContactPoint, met: ContactPoint) -> io::Result<Map> {
    let map = read(rt, point, met)?;
    say(rt, "targets before repair", Targets(&map.roads))?;
    let repaired = map.repaired(rt)?;
    say(rt, "targets after repair", Targets(&repaired.roads))?;
    repaired.linked().print(rt)?;
    Ok(map)
}

pub fn show(rt: &impl Print) -> io::Result<Map> {
    println!(rt; "# Chain")?;
    let map = run(rt, [6, 3], [9, 5])?;
    println!(rt; "# Chain with End and Start")?;
    run(rt, [14, 3], [17, 5])?;
    Ok(map)
}
