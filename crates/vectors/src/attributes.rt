// Attribute reading on small raw tables: lane numbers, lanes, targets, and junctions with each kind of drop.
// And the length check.
use crate::NO;
use crate::print::{Told, Words, say};
use reading::junctions::{JunctionOutputs, read_junctions};
use reading::lanes::read_lanes;
use reading::length::{Uneven, check_length};
use reading::numbers::lane_number;
use reading::raw::RawJunctions;
use reading::targets::read_targets;
use std::{fmt, io};

// virtual at 0, direct at 7, end at 13, a at 16, b at 17, -12 at 18, +5 at 21, x at 23, junction at 24, End at 32,
// start at 35, the empty name at 40.
const TEXT: [u8; 40] = *b"virtualdirectendab-12+5xjunctionEndstart";

// A raw target that has no element.
pub const NO_ELEMENT: [u32; 9] = [0, NO, 0, NO, 0, NO, 0, NO, 0];

// A text, and the lane number that it is.
#[derive(Clone, Copy)]
struct Number(&'static str);

impl fmt::Display for Number {
    fn fmt<W: fmt::Write>(&self, f: &mut fmt::Formatter<W>) -> fmt::Result {
        let text = self.0;
        match lane_number(text.as_bytes()) {
            Some(number) => write!(f, "\"{text}\": {}", number.cast_signed()),
            None => write!(f, "\"{text}\": none"),
        }
    }
}

// What is no number, and signs; zeros in front, and the range's ends.
fn numbers() -> [&'static str; 12] {
    [
        "",
        "+",
        "-",
        "+-1",
        "1 ",
        "+7",
        "-0",
        "-00000000000000000000000000000012",
        "2147483647",
        "2147483648",
        "-2147483648",
        "-2147483649",
    ]
}

fn show_numbers(rt: &impl Print) -> io::Result<()> {
    for text in numbers() {
        println!(rt; "{}", Number(text))?;
    }
    Ok(())
}

// What reading raw lanes answers, and every word of the output.
fn print_lanes(rt: &impl Print, raw: &[u32], out: &mut [u32]) -> io::Result<()> {
    let answer = Told::of(read_lanes(&TEXT, raw, out), "written");
    println!(rt; "{answer}: {}", Words(out))
}

// -12 and "x"; none and +5; a name past the text. An output that is a word too short.
fn show_lanes(rt: &impl Print) -> io::Result<()> {
    let mut out = [9; 9];
    print_lanes(rt, &[18, 3, 23, 1, NO, 0, 21, 2], &mut out)?;
    print_lanes(rt, &[18, 3, 39, 2], &mut out)?;
    print_lanes(rt, &[18, 3, 23, 1], &mut [9; 3])
}

// What reading raw targets answers, and every word of the two outputs.
fn print_targets(
    rt: &impl Print,
    raw: &[[u32; 9]],
    targets: &mut [u32],
    warnings: &mut [u32],
) -> io::Result<()> {
    let answer = read_targets(&TEXT, raw.as_flattened(), targets, warnings);
    let told = Told::of(answer, "written");
    println!(rt; "{told}: {}; warnings: {}", Words(targets), Words(warnings))
}

// Three roads, with either output too short by a word, then with a word to spare in both.
fn show_targets(rt: &impl Print) -> io::Result<()> {
    let raw = [
        // junction a at "end", and road b at "End", and along
        [1, 24, 8, 16, 1, 13, 3, NO, 0],
        [1, NO, 0, 17, 1, 32, 3, 23, 1],
        // no elementId, at "End", and no element
        [1, 24, 8, NO, 0, 32, 3, 23, 1],
        NO_ELEMENT,
        // junction b with an empty contactPoint, and road a at "start"
        [1, 24, 8, 17, 1, 40, 0, NO, 0],
        [1, NO, 0, 16, 1, 35, 5, NO, 0],
    ];
    let mut targets = [9; 43];
    let mut warnings = [9; 9];
    print_targets(rt, &raw, &mut [9; 41], &mut warnings)?;
    print_targets(rt, &raw, &mut targets, &mut [9; 7])?;
    print_targets(rt, &raw, &mut targets, &mut warnings)
}

// A road without its successor, also where a name lies past the text; a name without an element; a flag of 2. All
// refused for more than their outputs.
fn show_bad_targets(rt: &impl Print) -> io::Result<()> {
    for raw in [
        [NO_ELEMENT].as_slice(),
        &[[1, NO, 0, 41, 0, NO, 0, NO, 0]],
        &[NO_ELEMENT, [0, NO, 0, 16, 1, NO, 0, NO, 0]],
        &[[2, NO, 0, 16, 1, NO, 0, NO, 0], NO_ELEMENT],
    ] {
        print_targets(rt, raw, &mut [9; 6], &mut [9; 3])?;
    }
    Ok(())
}

const CONNECTIONS: [[u32; 14]; 7] = [
    // of a direct junction: from a into b, with one pair and two lane links without two numbers
    [23, 1, NO, 0, 16, 1, NO, 0, 17, 1, 13, 3, 0, 3],
    // without a linked road
    [NO, 0, NO, 0, 16, 1, 17, 1, NO, 0, 13, 3, 3, 0],
    // without an incoming road; from here on all have "End", and only the last is kept
    [NO, 0, NO, 0, NO, 0, 16, 1, 17, 1, 32, 3, 3, 1],
    // of a junction without id
    [23, 1, 0, 7, 16, 1, 17, 1, NO, 0, 32, 3, 4, 0],
    // of a virtual junction: of type virtual; from the main road; from b into a
    [23, 1, 0, 7, 17, 1, 16, 1, NO, 0, 32, 3, 4, 1],
    [23, 1, NO, 0, 16, 1, 17, 1, NO, 0, 32, 3, 5, 0],
    [23, 1, NO, 0, 17, 1, 16, 1, NO, 0, 32, 3, 5, 2],
];

// The fourth and the fifth are of connections that are not kept.
const LANE_LINKS: [[u32; 4]; 7] = [
    [18, 3, 21, 2],
    [23, 1, 19, 2],
    [19, 2, NO, 0],
    [23, 1, 23, 1],
    [23, 1, 23, 1],
    [19, 2, 19, 2],
    [23, 1, 21, 2],
];

// What reading raw junctions answers, and every word of the outputs.
fn print_junctions(rt: &impl Print, raw: &RawJunctions) -> io::Result<()> {
    let mut junctions = [9; 11];
    let mut connections = [9; 15];
    let mut pairs = [9; 5];
    let mut warnings = [9; 29];
    let mut out = JunctionOutputs {
        junctions: &mut junctions,
        connections: &mut connections,
        pairs: &mut pairs,
        warnings: &mut warnings,
    };
    let told = Told::of(read_junctions(raw, &mut out), "written");
    println!(rt;
        "{told}\njunctions: {}\nconnections: {}\npairs: {}\nwarnings: {}",
        Words(&junctions),
        Words(&connections),
        Words(&pairs),
        Words(&warnings)
    )
}

// A direct junction a, whose part begins at that row; one without id; a virtual one, b, with main road a.
fn show_junctions(rt: &impl Print, first: u32) -> io::Result<()> {
    let junctions = [
        [16, 1, 7, 6, NO, 0, first, 3],
        [NO, 0, 0, 7, NO, 0, 3, 1],
        [17, 1, 0, 7, 16, 1, 4, 3],
    ];
    let raw = RawJunctions {
        text: &TEXT,
        junctions: junctions.as_flattened(),
        connections: CONNECTIONS.as_flattened(),
        lane_links: LANE_LINKS.as_flattened(),
    };
    print_junctions(rt, &raw)
}

// What the length check answers.
#[derive(Clone, Copy)]
struct Checked(Result<Option<f64>, Uneven>);

impl fmt::Display for Checked {
    fn fmt<W: fmt::Write>(&self, f: &mut fmt::Formatter<W>) -> fmt::Result {
        match self.0 {
            Ok(None) => f.write_str("nothing to report"),
            Ok(Some(sum)) => write!(f, "reported, with {sum}"),
            Err(Uneven) => f.write_str("refusal 16"),
        }
    }
}

// A label, the starts and the lengths of a road's geometries, and its length.
type Road = (&'static str, &'static [f64], &'static [f64], f64);

// Roads of two geometries, 1 and 2 long; then of none, and of one without its length, or with a NaN for it.
fn roads() -> [Road; 7] {
    [
        ("1 and 2, a road of 3", &[0.0, 1.0], &[1.0, 2.0], 3.0),
        ("a road of 3.01", &[0.0, 1.0], &[1.0, 2.0], 3.01),
        ("a road of 3.02", &[0.0, 1.0], &[1.0, 2.0], 3.02),
        ("a road of 2", &[0.0, 1.0], &[1.0, 2.0], 2.0),
        ("no geometry", &[], &[], 2.0),
        ("no length", &[0.0], &[], 2.0),
        ("a length of 0/0", &[0.0], &[f64::NAN], 2.0),
    ]
}

fn show_lengths(rt: &impl Print) -> io::Result<()> {
    for (label, starts, lengths, length) in roads() {
        say(rt, label, Checked(check_length(starts, lengths, length)))?;
    }
    Ok(())
}

pub fn show(rt: &impl Print) -> io::Result<()> {
    println!(rt; "# Attributes")?;
    show_numbers(rt)?;
    show_lanes(rt)?;
    show_targets(rt)?;
    show_bad_targets(rt)?;
    show_junctions(rt, 0)?;
    show_junctions(rt, 1)?;
    show_lengths(rt)
}
