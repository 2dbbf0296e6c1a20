// The bench cards of the root, the clamp, the distance and the gap decision, places among them, and the lane links of a
// small map.
use crate::print::{Bits, say};
use geometry::edges::{ends_at, turned};
use geometry::gap::{Decision, Direction, Seen, Way, link_gap};
use geometry::root::{BelowZero, root};
use geometry::segment::{Point, clamp, distance};
use std::{fmt, io};

fn at(x: f32, y: f32) -> Point {
    Point { x, y, z: 0.0 }
}

// The two points of an edge.
type Line = [Point; 2];

// A lane that traffic runs through in that direction.
fn way_of(direction: Direction, start: Line, end: Line) -> Way {
    Way {
        ends: [start, end],
        direction,
    }
}

// A link of two lanes, as it is seen.
#[derive(Clone, Copy)]
struct Link(Seen);

impl Link {
    fn of(from: Way, to: Way) -> Self {
        Link(link_gap(from, to))
    }
}

// Passed, or what a row has: the width and the two places.
impl fmt::Display for Link {
    fn fmt<W: fmt::Write>(&self, f: &mut fmt::Formatter<W>) -> fmt::Result {
        let Decision::Wide(width) = self.0.decision else {
            return f.write_str("passed");
        };
        let width = Bits::of(width);
        let u = Bits::of_place(self.0.u);
        let v = Bits::of_place(self.0.v);
        write!(f, "wide {width} at {u} and {v}")
    }
}

// A number, and its root.
#[derive(Clone, Copy)]
struct Root(f32);

impl fmt::Display for Root {
    fn fmt<W: fmt::Write>(&self, f: &mut fmt::Formatter<W>) -> fmt::Result {
        let of = Bits::of(self.0);
        match root(self.0) {
            Ok(r) => write!(f, "{of} = {}", Bits::of(r)),
            Err(BelowZero) => write!(f, "{of}: refusal 15"),
        }
    }
}

// Two lanes that are points this far apart.
fn print_gap(rt: &impl Print, gap: f32) -> io::Result<()> {
    let zero = [at(0.0, 0.0); 2];
    let there = [at(gap, 0.0); 2];
    let link = Link::of(
        way_of(Direction::Forward, zero, zero),
        way_of(Direction::Forward, there, there),
    );
    println!(rt; "gap {}: {link}", Bits::of(gap))
}

fn print_distance(rt: &impl Print, label: &str, first: Line, second: Line) -> io::Result<()> {
    let closest = distance(first, second);
    let gap = Bits::of(closest.gap);
    println!(rt;
        "{label} = {gap} at {} and {}",
        Bits::of(closest.u),
        Bits::of(closest.v)
    )
}

// The least number above zero, and the one after 0.1.
const LEAST: f32 = f32::from_bits(1);

const AFTER_TENTH: f32 = f32::from_bits(0x3dcc_ccce);

// The root's four cards, then zeros, infinities, NaN and the first number below zero.
fn show_roots(rt: &impl Print) -> io::Result<()> {
    for x in [
        4.0,
        2.0,
        LEAST,
        f32::MAX,
        0.0,
        -0.0,
        f32::INFINITY,
        f32::NAN,
        f32::NEG_INFINITY,
        -LEAST,
    ] {
        println!(rt; "root {}", Root(x))?;
    }
    Ok(())
}

// The gap decision's two cards, and infinity. The clamp of -1, -0, 0.5, 2 and NaN.
fn show_numbers(rt: &impl Print) -> io::Result<()> {
    for gap in [0.1, AFTER_TENTH, f32::INFINITY] {
        print_gap(rt, gap)?;
    }
    for x in [-1.0, -0.0, 0.5, 2.0, f32::NAN] {
        println!(rt; "clamp {} = {}", Bits::of(x), Bits::of(clamp(x)))?;
    }
    Ok(())
}

// The card of the edges 0.25 apart, two points 5 apart, a point with a NaN.
fn show_distances(rt: &impl Print) -> io::Result<()> {
    let zero = at(0.0, 0.0);
    for (label, first, second) in [
        (
            "distance (0,0,0)-(0,2,0) to (0.25,0,0)-(0.25,2,0)",
            across(0.0),
            across(0.25),
        ),
        (
            "distance of the points (0,0,0) and (3,4,0)",
            [zero; 2],
            [at(3.0, 4.0); 2],
        ),
        (
            "distance of the points (0,0,0) and (nan,4,0)",
            [zero; 2],
            [at(f32::NAN, 4.0); 2],
        ),
    ] {
        print_distance(rt, label, first, second)?;
    }
    Ok(())
}

// A line across a lane, 2 long.
fn across(x: f32) -> Line {
    [at(x, 0.0), at(x, 2.0)]
}

// The least of four distances, all NaN, and of four numbers: infinity at 0 and 0, and 2.5.
fn show_least_gaps(rt: &impl Print) -> io::Result<()> {
    let odd = [at(f32::NAN, 4.0); 2];
    let here = way_of(Direction::Both, across(0.0), across(10.0));
    let there = way_of(Direction::Both, across(40.0), across(12.5));
    say(
        rt,
        "two-way lane to one of nan",
        Link::of(here, way_of(Direction::Both, odd, odd)),
    )?;
    say(
        rt,
        "two-way lanes 40, 12.5, 30 and 2.5 apart",
        Link::of(here, there),
    )
}

// A line along the x axis, 4 long.
fn along() -> Line {
    [at(0.0, 0.0), at(4.0, 0.0)]
}

// A line over its first quarter, this high, met in the middle.
fn over(z: f32) -> Line {
    [Point { x: 1.0, y: -1.0, z }, Point { x: 1.0, y: 1.0, z }]
}

// Two labels, the edge where a lane ends and the one where the next starts.
type Place = (&'static str, &'static str, Line, Line);

// Places inside both edges; -0, which rows have as +0; and a distance past the largest f32, whose rows have 0 and 0.
fn places() -> [Place; 3] {
    [
        (
            "distance (0,0,0)-(4,0,0) to (1,-1,0.5)-(1,1,0.5)",
            "a link of the first two",
            along(),
            over(0.5),
        ),
        (
            "distance (0,0,0)-(0,2,0) to the point (0.25,0,0)",
            "of the second two",
            across(0.0),
            [at(0.25, 0.0); 2],
        ),
        (
            "distance (0,0,0)-(4,0,0) to (1,-1,1e30)-(1,1,1e30)",
            "of the third two",
            along(),
            over(1.0e30),
        ),
    ]
}

// Of each the distance, and then the link from a lane that ends so to one that starts so.
fn show_places(rt: &impl Print) -> io::Result<()> {
    let nowhere = across(1000.0);
    for (label, _, end, start) in places() {
        print_distance(rt, label, end, start)?;
    }
    for (_, label, end, start) in places() {
        say(
            rt,
            label,
            Link::of(
                way_of(Direction::Forward, nowhere, end),
                way_of(Direction::Forward, start, nowhere),
            ),
        )?;
    }
    Ok(())
}

// The lane with its two ends swapped.
fn swapped(way: Way) -> Way {
    Way {
        ends: turned(way.ends),
        ..way
    }
}

// Two-way lanes equally near at several ends: the smallest u is shown, then the smallest v, and -0 equals +0.
fn ties() -> [(&'static str, Way, Way); 3] {
    let far = across(1000.0);
    let onward = along();
    let back = [onward[1], onward[0]];
    let right = Point {
        x: 1.0,
        y: -1.0,
        z: 0.5,
    };
    let left = Point {
        x: 1.0,
        y: 3.0,
        z: 0.5,
    };
    let low = Point {
        x: 0.25,
        y: 0.0,
        z: -1.0,
    };
    let high = Point {
        x: 0.25,
        y: 0.0,
        z: 1.0,
    };
    [
        (
            "equally near at u = 0.75 and 0.25",
            way_of(Direction::Both, onward, back),
            way_of(Direction::Both, over(0.5), far),
        ),
        (
            "equally near at u = 0.25, v = 0.75 and 0.25",
            way_of(Direction::Both, onward, far),
            way_of(Direction::Both, [right, left], [left, right]),
        ),
        (
            "equally near at u = +0, v = 0.5 and u = -0, v = 0",
            way_of(Direction::Both, across(0.0), far),
            way_of(Direction::Both, [at(0.25, 0.0); 2], [low, high]),
        ),
    ]
}

// These, each then with the ends of both lanes swapped.
fn show_ties(rt: &impl Print) -> io::Result<()> {
    for (label, from, to) in ties() {
        say(rt, label, Link::of(from, to))?;
        say(rt, "swapped", Link::of(swapped(from), swapped(to)))?;
    }
    Ok(())
}

// The edges of the lanes 7, 3, 5 and 9 along the x axis: of each, two points at its start and two at its end.
pub const EDGES_7: [f32; 12] = [0.0, 0.0, 0.0, 0.0, 3.5, 0.0, 2.0, 0.0, 0.0, 2.0, 3.5, 0.0];

pub const EDGES_3: [f32; 12] = [2.1, 0.0, 0.0, 2.1, 3.5, 0.0, 4.0, 0.0, 0.0, 4.0, 3.5, 0.0];

pub const EDGES_5: [f32; 12] = [6.0, 0.0, 0.0, 6.0, 3.5, 0.0, 4.0, 0.0, 0.0, 4.0, 3.5, 0.0];

pub const EDGES_9: [f32; 12] = [9.0, 0.0, 0.0, 9.0, 3.5, 0.0, 7.0, 0.0, 0.0, 7.0, 3.5, 0.0];

// A lane of the small map.
#[derive(Clone, Copy)]
struct Lane {
    identity: u32,
    edges: [f32; 12],
    direction: Direction,
}

impl Lane {
    fn way(&self) -> Way {
        Way {
            ends: ends_at(&self.edges, 0),
            direction: self.direction,
        }
    }
}

// The lanes in order, the first one again at the end.
fn lanes() -> [Lane; 5] {
    let seven = Lane {
        identity: 7,
        edges: EDGES_7,
        direction: Direction::Forward,
    };
    let three = Lane {
        identity: 3,
        edges: EDGES_3,
        direction: Direction::Forward,
    };
    let five = Lane {
        identity: 5,
        edges: EDGES_5,
        direction: Direction::Backward,
    };
    let nine = Lane {
        identity: 9,
        edges: EDGES_9,
        direction: Direction::Both,
    };
    [seven, three, five, nine, seven]
}

// Each lane with the next one, and whether their gap is passed or wide.
fn show_lanes(rt: &impl Print) -> io::Result<()> {
    for [lane, next] in lanes().array_windows::<2>() {
        let link = Link::of(lane.way(), next.way());
        println!(rt; "lane {} -> {}: {link}", lane.identity, next.identity)?;
    }
    Ok(())
}

pub fn show(rt: &impl Print) -> io::Result<()> {
    println!(rt; "# Cards")?;
    show_roots(rt)?;
    show_numbers(rt)?;
    show_distances(rt)?;
    show_least_gaps(rt)?;
    show_places(rt)?;
    show_ties(rt)?;
    show_lanes(rt)
}
