// Connections and their pairs, as read or the other way, laid one after the other.
ghost use Rattle.std.specs.Prelude.{◌≡◌, List, ℕ, [], ◌∷◌, ◌++◌, ◌+◌, ◌*◌, ◌/◌, ◌≤◌, ◌<◌, length, take};
ghost use Rattle.model.specs.Lists.{gather};
ghost use Rattle.model.specs.Tables.{Tables, pair_row};
ghost use Rattle.words.specs.Map.{map_read};
ghost use Rattle.repair.specs.Now.{run, row_connection};
ghost use Rattle.repair.specs.Laying.{turned_pair, turned_pairs, pair_at, row_words, turned_connection, back_list};
ghost use Rattle.repair.specs.Laying.{Laid, RoomFor, RoomForAll, laid_words};
ghost use Rattle.repair.specs.Ready.{pair_count, pairs_before};

use crate::junction::Junction;
use crate::laid::LaidRows;
use crate::reads::Reads;
use words::name::Name;
use words::rows;

// The connections and pairs laid so far.
#[derive(Drop)]
pub struct Pile {
    pub connections: LaidRows<7, 114688>,
    pub pairs: LaidRows<2, 32768>,
}

// Pair q's words: as read, or the other way where there is a contact.
fn pair_row(pairs: &[u32], q: usize, back: Option<bool>) -> [u32; 2]
    requires { q < length pairs.now / 2 }
    ensures { result ≡ pair_row (turned_pair back (pair_at pairs.now q)) }
{
    let x = pairs[q * 2];
    let y = pairs[q * 2 + 1];
    match back {
        None => [x, y],
        Some(_) => [y, x],
    }
}

// Lays m pairs from row first on.
fn put_pairs(
    pairs: &[u32],
    first: usize,
    m: usize,
    back: Option<bool>,
    out: &mut LaidRows<2, 32768>,
)
    requires { (first + m ≤ length pairs.now / 2) × (out.old.rows + m ≤ 16384) }
    ensures rows { out.new.rows ≡ out.old.rows + m }
    ensures words { laid_words out.new ≡ laid_words out.old ++ gather pair_row (turned_pairs back pairs.now first m) }
{
    for i in 0..m {
        let row = pair_row(pairs, first + i, back);
        out.put(&row);
    }
}

// Connection c's words with its pairs from row p on: as read, or the other way with a contact.
fn connection_row(connections: &[u32], c: usize, back: Option<bool>, p: usize) -> [u32; 7]
    requires { (c < length connections.now / 7) × (p ≤ 16384) }
    ensures { result ≡ row_words back connections.now c p }
{
    let incoming = Name::at(connections, c * 7);
    let connecting = Name::at(connections, c * 7 + 2);
    let (from, to, contact) = match back {
        None => (incoming, connecting, rows::flag(connections, c * 7 + 4)),
        Some(at_end) => (connecting, incoming, at_end),
    };
    [
        from.start,
        from.size,
        to.start,
        to.size,
        u32::from(contact),
        p as u32,
        connections[c * 7 + 6],
    ]
}

impl Pile {
    // Lays connection c: as read, or the other way with a contact.
    fn put_connection(&mut self, reads: &Reads, c: usize, back: Option<bool>)
        requires { RoomFor reads.now.map.connections.now c self.old.connections.rows self.old.pairs.rows }
        ensures pair_rows { self.new.pairs.rows ≡ self.old.pairs.rows + pair_count reads.now.map.connections.now c }
        ensures laid { let t : Tables = map_read reads.now.map in
            Laid (turned_connection back (row_connection t c) ∷ []) self.old self.new }
    {
        let connections = reads.map.connections;
        let row = connection_row(connections, c, back, self.pairs.rows);
        self.connections.put(&row);
        let first = rows::word(connections, c * 7 + 5);
        let count = rows::word(connections, c * 7 + 6);
        put_pairs(reads.map.pairs, first, count, back, &mut self.pairs);
    }

    // Lays a junction's connections as read.
    pub fn put_own(&mut self, junction: &Junction)
        requires { RoomForAll junction.now.reads.map.connections.now junction.now.first junction.now.count
            self.old.connections.rows self.old.pairs.rows }
        ensures rows { self.new.connections.rows ≡ self.old.connections.rows + junction.now.count }
        ensures pair_rows { let connections : List ℕ = junction.now.reads.map.connections.now in
            self.new.pairs.rows + pairs_before connections junction.now.first
            ≡ self.old.pairs.rows + pairs_before connections (junction.now.first + junction.now.count) }
        ensures laid { let t : Tables = map_read junction.now.reads.map in
            Laid (run (row_connection t) junction.now.first junction.now.count) self.old self.new }
    {
        for i in 0..junction.count {
            self.put_connection(&junction.reads, junction.first + i, None);
        }
    }

    // Lays connection c the other way, where there is a contact.
    pub fn put_back(&mut self, reads: &Reads, c: usize, back: Option<bool>)
        requires { RoomFor reads.now.map.connections.now c self.old.connections.rows self.old.pairs.rows }
        ensures at_most { (self.new.connections.rows ≤ self.old.connections.rows + 1)
            × (self.new.pairs.rows ≤ self.old.pairs.rows + pair_count reads.now.map.connections.now c) }
        ensures laid { let t : Tables = map_read reads.now.map in
            Laid (back_list back (row_connection t c)) self.old self.new }
    {
        if back.is_some() {
            self.put_connection(reads, c, back);
        }
    }
}
