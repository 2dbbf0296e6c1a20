// Words that say which of several: a lane's direction, a junction's kind.
ghost use Rattle.std.specs.Prelude.{◌≡◌, ◌+◌, ◌*◌, ◌/◌, ◌<◌, length, get_or};
ghost use Rattle.model.specs.Tables.{direction_of, direction_word, kind_of, kind_word};
ghost use Rattle.words.specs.Fields.{junction_kind};

use geometry::gap::Direction;

// Which way the traffic of the lane in that row runs.
pub fn direction(lanes: &[u32], row: usize) -> Direction
    requires { row < length lanes.now / 10 }
    ensures { result ≡ direction_of (get_or lanes.now (row * 10 + 5) 0) }
{
    match lanes[row * 10 + 5] {
        0 => Direction::Forward,
        1 => Direction::Backward,
        _ => Direction::Both,
    }
}

// The word of a direction. (No `From`: neither type is this crate's.)
pub fn direction_word(way: Direction) -> u32
    ensures { result ≡ direction_word way }
{
    way as u32
}

// What a junction is.
#[derive(Clone, Copy, PartialEq, Eq, Debug)]
pub enum JunctionKind {
    Common,
    Direct,
    Virtual,
}

impl JunctionKind {
    // What the junction in that row is.
    pub fn at(junctions: &[u32], row: usize) -> JunctionKind
        requires { row < length junctions.now / 5 }
        ensures { junction_kind result ≡ kind_of (get_or junctions.now (row * 5 + 2) 0) }
    {
        match junctions[row * 5 + 2] {
            0 => JunctionKind::Common,
            1 => JunctionKind::Direct,
            _ => JunctionKind::Virtual,
        }
    }
}

impl From<JunctionKind> for u32 {
    // Its word.
    fn from(kind: JunctionKind) -> u32
        ensures { result ≡ kind_word (junction_kind kind) }
    {
        kind as u32
    }
}
