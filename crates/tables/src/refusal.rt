// Why a call is refused.
ghost use Rattle.std.specs.Prelude.{◌≡◌};
ghost use Rattle.tables.specs.Refusals.{number_of};

use std::error::Error;
use std::fmt;

// Document 01's refusals, in its order.
#[derive(Clone, Copy, PartialEq, Eq, Debug)]
pub enum Refusal {
    BadSize = 1,
    BadWord = 2,
    RoadTwice = 3,
    BadSections = 4,
    BadParts = 5,
    IdentityTwice = 6,
    LaneUnlisted = 7,
    PlaceTwice = 8,
    OutputShort = 9,
    BadEdges = 10,
    BadLists = 11,
    BadMarks = 12,
    LeastNumber = 13,
    TwoEnded = 14,
}

impl Refusal {
    // Document 01's number.
    pub fn number(self) -> u32
        ensures { result ≡ number_of self }
    {
        self as u32
    }
}

impl fmt::Display for Refusal {
    fn fmt<W: fmt::Write>(&self, f: &mut fmt::Formatter<W>) -> fmt::Result {
        f.write_str(match self {
            Refusal::BadSize => "an input's length is no whole number of rows or above its limit",
            Refusal::BadWord => "a word or name breaks the table rules",
            Refusal::RoadTwice => "a road name stands twice",
            Refusal::BadSections => "a section part is misplaced or not strictly ascending",
            Refusal::BadParts => "a connection, pair or lane link part is misplaced",
            Refusal::IdentityTwice => "an identity stands twice",
            Refusal::LaneUnlisted => "a lane's road is unknown or its section is not listed there",
            Refusal::PlaceTwice => "two lanes have equal road, section and number",
            Refusal::OutputShort => "an output is shorter than its content",
            Refusal::BadEdges => "the edges are not 12 for each lane",
            Refusal::BadLists => "the lists' offsets or identities are wrong",
            Refusal::BadMarks => "the marks are not one 0 or 1 for each road",
            Refusal::LeastNumber => "a lane, link or pair number is -2,147,483,648",
            Refusal::TwoEnded => "a marked road names one direct junction at both ends",
        })
    }
}

impl Error for Refusal {}
