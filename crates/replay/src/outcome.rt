// What came of the calls that were run again.
use std::{fmt, io};

// A call.
#[derive(Clone, Copy, PartialEq, Eq)]
pub enum Call {
    Repair,
    Succession,
    Gaps,
    Reversal,
    Targets,
    Lanes,
    Junctions,
    Length,
}

// What a step is.
#[derive(Clone, Copy)]
pub enum Kind {
    // The text and the tables for the calls after it.
    Tables,
    Call(Call),
}

// A number that no step has.
#[derive(Clone, Copy)]
pub struct UnknownKind;

// By its number in the stream.
impl TryFrom<u32> for Kind {
    type Error = UnknownKind;

    fn try_from(number: u32) -> Result<Kind, UnknownKind> {
        Ok(match number {
            1 => Kind::Tables,
            2 => Kind::Call(Call::Repair),
            3 => Kind::Call(Call::Succession),
            4 => Kind::Call(Call::Gaps),
            5 => Kind::Call(Call::Reversal),
            6 => Kind::Call(Call::Targets),
            7 => Kind::Call(Call::Lanes),
            8 => Kind::Call(Call::Junctions),
            9 => Kind::Call(Call::Length),
            _ => return Err(UnknownKind),
        })
    }
}

impl fmt::Display for Call {
    fn fmt<W: fmt::Write>(&self, f: &mut fmt::Formatter<W>) -> fmt::Result {
        f.write_str(match self {
            Call::Repair => "repair",
            Call::Succession => "succession",
            Call::Gaps => "gap check",
            Call::Reversal => "reversal",
            Call::Targets => "reading of targets",
            Call::Lanes => "reading of lanes",
            Call::Junctions => "reading of junctions",
            Call::Length => "length check",
        })
    }
}

// Whether a call was accepted as recorded, refused as recorded, or neither.
#[derive(Clone, Copy, PartialEq, Eq)]
pub enum Outcome {
    Accepted,
    Refused,
    Other,
}

// How many calls came to which outcome.
pub fn report(rt: &impl Print, outcomes: &[(Call, Outcome)]) -> io::Result<()> {
    for call in [
        Call::Repair,
        Call::Succession,
        Call::Gaps,
        Call::Reversal,
        Call::Targets,
        Call::Lanes,
        Call::Junctions,
        Call::Length,
    ] {
        let count = |outcome| outcomes.iter().filter(|o| **o == (call, outcome)).count();
        let accepted = count(Outcome::Accepted);
        let refused = count(Outcome::Refused);
        let other = count(Outcome::Other);
        println!(rt; "{call}: {accepted} accepted and {refused} refused as recorded, {other} not")?;
    }
    Ok(())
}
