// The links to a common junction that its incoming roads leave out. Ends and warnings stay apart from the junction:
// they change while it is lent.
ghost use Rattle.std.specs.Prelude.{◌≡◌, [], ◌∷◌, ◌+◌, ◌/◌, ◌≤◌, ◌<◌, length};
ghost use Rattle.model.specs.Lists.{bind_o};
ghost use Rattle.model.specs.Repair.{back_end, vacant_end};
ghost use Rattle.model.specs.Rules.{same};
ghost use Rattle.model.specs.Tables.{Tables};
ghost use Rattle.words.specs.Fields.{target_read};
ghost use Rattle.words.specs.Map.{map_read};
ghost use Rattle.words.specs.Rows.{name_at};
ghost use Rattle.repair.specs.Now.{end_read, run, road_with, row_connection};
ghost use Rattle.repair.specs.Laying.{shown_at, Linked};

use crate::junction::Junction;
use crate::laid::LaidRows;
use crate::reads::Reads;
use crate::targets::Ends;
use tables::lookup::RoadId;
use words::name::Name;
use words::rows;
use words::target::Target;

// The end of connection c's incoming road that a target names.
#[tactic(auto, unfolding(model::specs::Repair::back_end))]
fn back_end(reads: &Reads, target: Option<Target>, c: usize) -> Option<bool>
    requires { c < length reads.now.map.connections.now / 7 }
    ensures { let t : Tables = map_read reads.now.map in
        end_read result ≡ bind_o (target_read target) (back_end (same t) (name_at 7 0 t.connections c)) }
{
    let target = target?;
    let incoming = Name::at(reads.map.connections, c * 7);
    let named = !target.is_junction && target.name.same(incoming, reads.map.text) && target.given;
    named.then_some(target.contact)
}

// That end, if it is vacant in a road.
fn vacant_end(reads: &Reads, ends: &Ends, road: RoadId, at_end: bool) -> Option<bool>
    requires { road.0 < length reads.now.map.roads.now / 20 }
    ensures { let t : Tables = map_read reads.now.map in
        end_read result ≡ vacant_end (road_with t ends.now.words road.0) at_end }
{
    let occupied = ends.target(reads, road, at_end).is_some();
    (!occupied).then_some(at_end)
}

// The end of a road at which connection c shows that the junction is left out.
fn missing_end(junction: &Junction, ends: &Ends, road: RoadId, c: usize) -> Option<bool>
    requires { (road.0 < length junction.now.reads.map.roads.now / 20)
        × (c < length junction.now.reads.map.connections.now / 7) }
    ensures { end_read result
        ≡ shown_at (map_read junction.now.reads.map) ends.now.words junction.now.row c road.0 }
{
    if ends.meets(junction, road) {
        return None;
    }
    let reads = &junction.reads;
    let connections = reads.map.connections;
    let connecting = reads.road_of(Name::at(connections, c * 7 + 2))?;
    let contact = rows::flag(connections, c * 7 + 4);
    let target = ends.target(reads, connecting, contact);
    let at_end = back_end(reads, target, c)?;
    vacant_end(reads, ends, road, at_end)
}

// Gives connection c's incoming road the junction where it is left out, with a warning.
fn missing_link(junction: &Junction, ends: &mut Ends, warnings: &mut LaidRows<4, 32768>, c: usize)
    requires { (c < length junction.now.reads.map.connections.now / 7) × (warnings.old.rows < 8192) }
    ensures at_most { warnings.new.rows ≤ warnings.old.rows + 1 }
    ensures linked { let t : Tables = map_read junction.now.reads.map in
        Linked t junction.now.row (row_connection t c ∷ []) ends.old.words ends.new.words warnings.old warnings.new }
{
    let reads = &junction.reads;
    let Some(road) = reads.road_of(Name::at(reads.map.connections, c * 7)) else {
        return;
    };
    let Some(at_end) = missing_end(junction, ends, road, c) else {
        return;
    };
    ends.give(road, at_end, junction.row);
    warnings.put(&[3, junction.row as u32, road.0, u32::from(at_end)]);
}

// The same for the junction's connections.
pub fn missing_links(junction: &Junction, ends: &mut Ends, warnings: &mut LaidRows<4, 32768>)
    requires { warnings.old.rows ≤ junction.now.first }
    ensures at_most { warnings.new.rows ≤ warnings.old.rows + junction.now.count }
    ensures linked { let t : Tables = map_read junction.now.reads.map in
        Linked t junction.now.row (run (row_connection t) junction.now.first junction.now.count) ends.old.words
        ends.new.words warnings.old warnings.new }
{
    for i in 0..junction.count {
        missing_link(junction, ends, warnings, junction.first + i);
    }
}
