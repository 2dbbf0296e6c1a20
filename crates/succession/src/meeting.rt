// Connections chained by their junction and incoming road, each by its count back from the last: a chain falls, and so
// meets them in row order.
ghost use Rattle.std.specs.Prelude.{◌≡◌, true, ◌+◌, ◌*◌, ◌/◌, ◌≤◌, ◌<◌, length};
ghost use Rattle.model.specs.Rows.{parts_fit, table};
ghost use Rattle.succession.specs.Meeting.{ChainedFrom, Homes, Meeting, end_of, first_of, meeting_hash, meets};

use crate::names::TwoEach;
use words::chain::{BUCKETS, Chain};
use words::rows;

// The bucket of a junction and a road, each a row plus 1.
#[tactic(auto, unfolding(crate::specs::Meeting::meeting_hash))]
pub fn bucket(junction: usize, road: u32) -> usize
    requires { junction ≤ 16384 }
    ensures { (result ≡ meeting_hash junction road) × (result < 16384) }
{
    (junction * 1009 + road as usize) % BUCKETS
}

// Whether connection c is one of junction j's, from that road (row plus 1).
#[tactic(auto, unfolding(crate::specs::Meeting::meets))]
pub fn comes_from(junctions: &[u32], sides: &[u32], j: usize, road: u32, c: usize) -> bool
    requires { (j < length junctions.now / 5) × (c * 2 < length sides.now) }
    ensures { result ≡ meets junctions.now sides.now j road c }
{
    let first = rows::word(junctions, j * 5 + 3);
    let end = first + rows::word(junctions, j * 5 + 4);
    first <= c && c < end && sides[c * 2] == road
}

// Puts junction j's connections in front of their chains, the last one first; n is the number of all connections.
fn link_part(junctions: &[u32], sides: &TwoEach, n: usize, j: usize, chain: &mut Chain)
    requires n_bound { (n ≤ 16384) × (j < length junctions.now / 5) × (length junctions.now / 5 ≤ 16384) }
    requires j_bound { (end_of junctions.now j ≤ n) × Homes junctions.now }
    requires chained { ChainedFrom junctions.now sides.now n (end_of junctions.now j) chain.old.heads chain.old.next }
    ensures { ChainedFrom junctions.now sides.now n (first_of junctions.now j) chain.new.heads chain.new.next }
{
    let first = rows::word(junctions, j * 5 + 3);
    let end = first + rows::word(junctions, j * 5 + 4);
    for c in (first..end).rev() {
        chain.link(bucket(j + 1, sides[c * 2]), n - 1 - c);
    }
}

// Chains all connections, whatever the chain held.
pub fn link_connections(junctions: &[u32], connections: &[u32], sides: &TwoEach, chain: &mut Chain)
    requires few { (length connections.now / 7 ≤ 16384) × (length junctions.now / 5 ≤ 16384) }
    requires parts { parts_fit 3 4 0 (length connections.now / 7) (table 5 junctions.now) ≡ true }
    ensures { Meeting junctions.now connections.now sides.now chain.new.heads chain.new.next }
{
    chain.clear();
    let n = connections.len() / 7;
    for j in (0..junctions.len() / 5).rev() {
        link_part(junctions, sides, n, j, chain);
    }
}
