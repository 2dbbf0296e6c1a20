// Connections and their lane pairs. Each table has a loop of its own over its rows: one function for all of them would
// take a closure that gives `[u32; W]`, and the check does not cover a bound `Fn` that names a const parameter yet.
// A struct of `turning` and the connections would be no plainer: three functions read it, and no rule ties the two.
ghost use Rattle.std.specs.Prelude.{◌≡◌, ◌+◌, ◌*◌, ◌/◌, ◌≤◌, ◌<◌, length, get_or};
ghost use Rattle.model.specs.Rows.{part, written};
ghost use Rattle.words.specs.Rows.{joined, spliced};
ghost use Rattle.reversal.specs.Turned.{ReadyPairs, pairs_turned, reversed_connection, turned_pairs};

use crate::marks;
use crate::marks::Turning;
use words::name::Name;
use words::rows;

// Connection i, reversed: its contact turns over if its connecting road is marked.
fn turned_connection(turning: &Turning, connections: &[u32], i: usize) -> [u32; 7]
    requires { i < length connections.now / 7 }
    ensures { result ≡ reversed_connection turning.now.roads.text.now turning.now.roads.rows.now turning.now.marks.now
        connections.now i }
{
    let row = rows::row::<7>(connections, i);
    let mut turned = *row;
    turned[4] = u32::from(turning.marked(Name::at(row, 2)) != rows::flag(row, 4));
    turned
}

// Writes the connections, reversed.
pub fn put_connections(turning: &Turning, connections: &[u32], out: &mut [u32])
    requires { length connections.now ≤ length out.old }
    ensures { out.new ≡ written (joined (length connections.now / 7)
        (reversed_connection turning.now.roads.text.now turning.now.roads.rows.now turning.now.marks.now
        connections.now)) out.old }
{
    for i in 0..connections.len() / 7 {
        rows::put(out, i * 7, &turned_connection(turning, connections, i));
    }
}

// The pairs of the connection of that row.
fn part_of<'a>(pairs: &'a [u32], row: &[u32; 7]) -> &'a [u32]
    requires { get_or row.now 5 0 + get_or row.now 6 0 ≤ length pairs.now / 2 }
    ensures { result.now ≡ part (get_or row.now 5 0 * 2) (get_or row.now 6 0 * 2) pairs.now }
{
    let first = rows::word(row, 5) * 2;
    &pairs[first..first + rows::word(row, 6) * 2]
}

// Writes the pairs of a part from word `at` on: their numbers change sign by the marks of the incoming and the
// connecting road.
fn put_part(part: &[u32], at: usize, incoming: bool, connecting: bool, out: &mut [u32])
    requires { at + length part.now ≤ length out.old }
    ensures { out.new ≡ spliced at (pairs_turned incoming connecting part.now) out.old }
{
    for (k, pair) in part.chunks_exact(2).enumerate() {
        let from = marks::signed_by(incoming, pair[0]);
        let to = marks::signed_by(connecting, pair[1]);
        rows::put(out, at + k * 2, &[from, to]);
    }
}

// Writes the pairs of the connections, reversed.
pub fn put_pairs(turning: &Turning, connections: &[u32], pairs: &[u32], out: &mut [u32])
    requires { ReadyPairs connections.now pairs.now out.old }
    ensures { out.new ≡ written (joined (length connections.now / 7)
        (turned_pairs turning.now.roads.text.now turning.now.roads.rows.now turning.now.marks.now connections.now
        pairs.now)) out.old }
{
    for i in 0..connections.len() / 7 {
        let row = rows::row::<7>(connections, i);
        let incoming = turning.marked(Name::at(row, 0));
        let connecting = turning.marked(Name::at(row, 2));
        put_part(
            part_of(pairs, row),
            rows::word(row, 5) * 2,
            incoming,
            connecting,
            out,
        );
    }
}
