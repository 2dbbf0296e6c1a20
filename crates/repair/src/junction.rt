// A junction as it is read.
ghost use Rattle.std.specs.Prelude.{◌≡◌, ◌+◌, ◌*◌, ◌/◌, ◌≤◌, ◌<◌, length, get_or};
ghost use Rattle.model.specs.Tables.{kind_of};
ghost use Rattle.words.specs.Fields.{junction_kind};

use crate::reads::Reads;
use words::kinds::JunctionKind;
use words::rows;

// The junction in a row: its kind, and its part of the connections, which begins at row first.
#[derive(Clone, Copy)]
pub struct Junction<'a> {
    pub reads: Reads<'a>,
    pub row: usize,
    pub kind: JunctionKind,
    pub first: usize,
    pub count: usize,
    ghost inside: { row < length reads.map.junctions.now / 5 },
    ghost kind_is: { junction_kind kind ≡ kind_of (get_or reads.map.junctions.now (row * 5 + 2) 0) },
    ghost first_is: { first ≡ get_or reads.map.junctions.now (row * 5 + 3) 0 },
    ghost count_is: { count ≡ get_or reads.map.junctions.now (row * 5 + 4) 0 },
    ghost within: { first + count ≤ length reads.map.connections.now / 7 },
}

impl<'a> Junction<'a> {
    // The junction in a row of a map.
    pub fn at(reads: &Reads<'a>, row: usize) -> Self
        requires { row < length reads.now.map.junctions.now / 5 }
        ensures { (result.reads ≡ reads.now) × (result.row ≡ row) }
    {
        let junctions = reads.map.junctions;
        Junction {
            reads: *reads,
            row,
            kind: JunctionKind::at(junctions, row),
            first: rows::word(junctions, row * 5 + 3),
            count: rows::word(junctions, row * 5 + 4),
        }
    }
}
