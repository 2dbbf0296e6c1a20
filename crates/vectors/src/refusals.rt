// Each refusal number that reads tables, on a small map with one fault, and which of two faults is named first.
use crate::NO;
use crate::print::{Told, say};
use std::io;
use tables::check::{check_repair, check_reversal, check_succession};
use tables::refusal::Refusal;
use words::map::MapTables;

// Roads a and b, junction j. Road a ends at j, road b at nothing; one connection from a into b's start, one pair;
// lane 7 on a, lane 9 on b.
const TEXT: [u8; 3] = *b"abj";

const ROADS: [u32; 40] = [
    0, 1, NO, 0, 0, 0, 0, 0, 0, 0, 0, 1, 1, 2, 1, 0, 1, 0, 0, 1, 1, 1, NO, 0, 0, 0, 0, 0, 0, 0, 0,
    0, 0, 0, 0, 0, 0, 0, 1, 2,
];

const SECTIONS: [u32; 3] = [0, 0, 1];

const JUNCTIONS: [u32; 5] = [2, 1, 0, 0, 1];

const CONNECTIONS: [u32; 7] = [0, 1, 1, 1, 0, 0, 1];

const PAIRS: [u32; 2] = [1, 1];

const LANES: [u32; 20] = [7, 0, 1, 0, 1, 0, 0, 0, 0, 0, 9, 1, 1, 0, 1, 0, 1, 1, 0, 0];

// The number -2147483648, which has no negative.
const LEAST: u32 = 2147483648;

// A table with words changed.
fn changed<const N: usize>(table: [u32; N], words: &[(usize, u32)]) -> [u32; N] {
    let mut table = table;
    for &(at, word) in words {
        if let Some(place) = table.get_mut(at) {
            *place = word;
        }
    }
    table
}

// What a check answers to its input.
fn say_verdict(rt: &impl Print, label: &str, verdict: Result<(), Refusal>) -> io::Result<()> {
    say(rt, label, Told::of(verdict, "admitted"))
}

// A label, words of the roads that are changed, the sections, and the connections.
type MapCase = (
    &'static str,
    &'static [(usize, u32)],
    &'static [u32],
    &'static [u32],
);

// 1 and 2, which repair tests.
fn word_faults() -> [MapCase; 4] {
    [
        (
            "connections of 6 words",
            &[],
            &SECTIONS,
            &[0, 1, 1, 1, 0, 0],
        ),
        ("a present flag of 2", &[(11, 2)], &SECTIONS, &CONNECTIONS),
        ("a name past the text", &[(1, 4)], &SECTIONS, &CONNECTIONS),
        (
            "a name whose end passes a word",
            &[(20, NO), (21, NO)],
            &SECTIONS,
            &CONNECTIONS,
        ),
    ]
}

// 3 to 5.
fn row_faults() -> [MapCase; 5] {
    [
        ("road a twice", &[(20, 0)], &SECTIONS, &CONNECTIONS),
        ("sections that do not ascend", &[], &[0, 0, 0], &CONNECTIONS),
        (
            "a section part whose end passes a word",
            &[(39, NO)],
            &SECTIONS,
            &CONNECTIONS,
        ),
        (
            "a pair part from row 1",
            &[],
            &SECTIONS,
            &[0, 1, 1, 1, 0, 1, 1],
        ),
        (
            "road a twice, and sections that do not ascend",
            &[(20, 0)],
            &[0, 0, 0],
            &CONNECTIONS,
        ),
    ]
}

fn show_cases(rt: &impl Print, good: MapTables, cases: &[MapCase]) -> io::Result<()> {
    for &(label, words, sections, connections) in cases {
        let map = MapTables {
            roads: &changed(ROADS, words),
            sections,
            connections,
            ..good
        };
        say_verdict(rt, label, check_repair(&map))?;
    }
    Ok(())
}

fn show_maps(rt: &impl Print, good: MapTables) -> io::Result<()> {
    say_verdict(rt, "a good map", check_repair(&good))?;
    let short = MapTables {
        roads: &[0; 39],
        ..good
    };
    say_verdict(rt, "roads of 39 words", check_repair(&short))?;
    show_cases(rt, good, &word_faults())?;
    show_cases(rt, good, &row_faults())
}

// 6 to 8, which succession tests too: words of the lanes that are changed.
fn lane_faults() -> [(&'static str, &'static [(usize, u32)]); 6] {
    [
        ("a link number without its flag", &[(7, 5)]),
        ("identity 7 twice", &[(10, 7)]),
        ("a lane on road j, which is unknown", &[(11, 2)]),
        ("a lane in section 2 of road b", &[(13, 2)]),
        ("two lanes of one road, section and number", &[(11, 0)]),
        (
            "identity 7 twice, and a lane on road j",
            &[(10, 7), (11, 2)],
        ),
    ]
}

fn show_lanes(rt: &impl Print, map: MapTables) -> io::Result<()> {
    say_verdict(rt, "good lanes", check_succession(&map, &LANES))?;
    say_verdict(rt, "lanes of 19 words", check_succession(&map, &[0; 19]))?;
    for (label, words) in lane_faults() {
        say_verdict(rt, label, check_succession(&map, &changed(LANES, words)))?;
    }
    Ok(())
}

// What reversal reads.
#[derive(Clone, Copy)]
struct Reversal<'a> {
    map: MapTables<'a>,
    lanes: &'a [u32],
    edges: &'a [f32],
    marks: &'a [u32],
}

impl Reversal<'_> {
    fn say(&self, rt: &impl Print, label: &str) -> io::Result<()> {
        let verdict = check_reversal(&self.map, self.lanes, self.edges, self.marks);
        say_verdict(rt, label, verdict)
    }
}

// 10 and 12, which reversal tests too: edges and marks.
fn mark_faults() -> [(&'static str, &'static [f32], &'static [u32]); 5] {
    [
        ("a good reversal", &[0.0; 24], &[1, 0]),
        ("edges of 25 floats", &[0.0; 25], &[1, 0]),
        ("edges of three lanes", &[0.0; 36], &[1, 0]),
        ("three marks", &[0.0; 24], &[1, 0, 0]),
        ("a mark of 2", &[0.0; 24], &[2, 0]),
    ]
}

// These, then 13.
fn show_reversals(rt: &impl Print, good: Reversal) -> io::Result<()> {
    for (label, edges, marks) in mark_faults() {
        let case = Reversal {
            edges,
            marks,
            ..good
        };
        case.say(rt, label)?;
    }
    let pairs = Reversal {
        map: MapTables {
            pairs: &[1, LEAST],
            ..good.map
        },
        ..good
    };
    pairs.say(rt, "a pair number of -2147483648")?;
    let links = Reversal {
        lanes: &changed(LANES, &[(17, LEAST)]),
        ..good
    };
    links.say(rt, "a link number of -2147483648")
}

// 14, and 10 before 12. Roads whose road a names junction j at both ends.
fn last_faults<'a>(good: Reversal<'a>, roads: &'a [u32]) -> [(&'static str, Reversal<'a>); 4] {
    let common = Reversal {
        map: MapTables { roads, ..good.map },
        ..good
    };
    let direct = Reversal {
        map: MapTables {
            junctions: &[2, 1, 1, 0, 1],
            ..common.map
        },
        ..good
    };
    let unmarked = Reversal {
        marks: &[0, 0],
        ..direct
    };
    let uneven = Reversal {
        edges: &[0.0; 36],
        marks: &[1, 0, 0],
        ..good
    };
    [
        ("road a at both ends of direct junction j, marked", direct),
        ("the same, road a not marked", unmarked),
        ("the same, junction j common", common),
        ("edges of three lanes, and three marks", uneven),
    ]
}

fn show_last(rt: &impl Print, good: Reversal) -> io::Result<()> {
    let roads = changed(ROADS, &[(4, 1), (5, 1), (6, 2), (7, 1)]);
    for (label, case) in last_faults(good, &roads) {
        case.say(rt, label)?;
    }
    Ok(())
}

pub fn show(rt: &impl Print) -> io::Result<()> {
    println!(rt; "# Refusals")?;
    let map = MapTables {
        text: &TEXT,
        roads: &ROADS,
        sections: &SECTIONS,
        junctions: &JUNCTIONS,
        connections: &CONNECTIONS,
        pairs: &PAIRS,
    };
    let reversal = Reversal {
        map,
        lanes: &LANES,
        edges: &[0.0; 24],
        marks: &[1, 0],
    };
    show_maps(rt, map)?;
    show_lanes(rt, map)?;
    show_reversals(rt, reversal)?;
    show_last(rt, reversal)
}
