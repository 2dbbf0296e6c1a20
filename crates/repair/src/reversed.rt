// The connections of a direct junction the other way.
ghost use Rattle.std.specs.Prelude.{◌≡◌, ◌&&◌, List, ℕ, ◌+◌, ◌*◌, ◌/◌, ◌≤◌, ◌<◌, length, leb, ltb};
ghost use Rattle.model.specs.Tables.{Tables};
ghost use Rattle.model.specs.Text.{same_in};
ghost use Rattle.words.specs.Map.{map_read};
ghost use Rattle.words.specs.Name.{place_of};
ghost use Rattle.words.specs.Rows.{any, name_from};
ghost use Rattle.repair.specs.Now.{row_connection};
ghost use Rattle.repair.specs.Laying.{turned_at, back_list, back_from, reversed_at, Laid, RoomForAll};
ghost use Rattle.repair.specs.Ready.{pairs_before};

use crate::junction::Junction;
use crate::laying::Pile;
use crate::reads::Reads;
use crate::targets::Ends;
use words::name::Name;

// Whether a connection from first to last runs the other way of connection c.
fn runs_back(reads: &Reads, first: usize, last: usize, c: usize) -> bool
    requires { c < length reads.now.map.connections.now / 7 }
    ensures { result ≡ any (length reads.now.map.connections.now / 7)
        (turned_at reads.now.map.text.now reads.now.map.connections.now first last c) }
{
    let text = reads.map.text;
    let connections = reads.map.connections;
    let incoming = Name::at(connections, c * 7);
    let connecting = Name::at(connections, c * 7 + 2);
    let found = reads.connections.find_if(
        connecting,
        |q| -> bool
            requires { q < length connections.now / 7 }
            ensures { result ≡ ((leb first q && ltb q last)
                && same_in text.entry.now (name_from connections.entry.now (q * 7 + 2)) (place_of incoming)) }
        { first <= q && q < last && Name::at(connections, q * 7 + 2).same(incoming, text) },
    );
    found.is_some()
}

// The contact of connection c the other way, for a direct junction.
fn back_contact(junction: &Junction, ends: &Ends, c: usize) -> Option<bool>
    requires { c < length junction.now.reads.map.connections.now / 7 }
    ensures { let t : Tables = map_read junction.now.reads.map in
        back_list result (row_connection t c)
        ≡ back_from t ends.now.words junction.now.row junction.now.first junction.now.count (row_connection t c) }
{
    let reads = &junction.reads;
    if runs_back(reads, junction.first, junction.first + junction.count, c) {
        return None;
    }
    let road = reads.road_of(Name::at(reads.map.connections, c * 7))?;
    ends.meeting_end(junction, road)
}

// Lays the connections of a direct junction the other way.
pub fn reversed(junction: &Junction, ends: &Ends, pile: &mut Pile)
    requires { RoomForAll junction.now.reads.map.connections.now junction.now.first junction.now.count
        pile.old.connections.rows pile.old.pairs.rows }
    ensures rows { pile.new.connections.rows ≤ pile.old.connections.rows + junction.now.count }
    ensures pair_rows { let connections : List ℕ = junction.now.reads.map.connections.now in
        pile.new.pairs.rows + pairs_before connections junction.now.first
        ≤ pile.old.pairs.rows + pairs_before connections (junction.now.first + junction.now.count) }
    ensures laid { let t : Tables = map_read junction.now.reads.map in
        Laid (reversed_at t ends.now.words junction.now.row junction.now.first junction.now.count) pile.old pile.new }
{
    for i in 0..junction.count {
        let back = back_contact(junction, ends, junction.first + i);
        pile.put_back(&junction.reads, junction.first + i, back);
    }
}
