// The ends with the along flag of roads in virtual junctions. Roads and junctions are two parameters: a struct of them
// would have one use, and be unpacked at each.
ghost use Rattle.std.specs.Prelude.{◌≡◌, Bool, true, false, ℕ, ◌+◌, ◌*◌, ◌/◌, ◌≤◌, ◌<◌, length, set};
ghost use Rattle.words.specs.Chain.{Empty};
ghost use Rattle.words.specs.Map.{map_read};
ghost use Rattle.repair.specs.Now.{roads_with};
ghost use Rattle.repair.specs.Along.{virtual_row, along_word, roads_begun, Marked};

use crate::targets::Ends;
use tables::lookup::RoadId;
use words::by_key::ByName;
use words::chain::Chain;
use words::kinds::JunctionKind;
use words::map::MapTables;
use words::name::Name;
use words::{by_key, rows};

// Whether a road's junction name is that of a virtual junction.
fn in_virtual(roads: &[u32], junctions: &ByName<5>, road: RoadId) -> bool
    requires { road.0 < length roads.now / 20 }
    ensures { result ≡ virtual_row junctions.now.text.now roads.now junctions.now.rows.now road.0 }
{
    let r = road.0 as usize;
    let name = Name::at(roads, r * 20 + 2);
    !name.is_absent() && junctions.has_kind(name, JunctionKind::Virtual)
}

// Marks a road's ends.
fn mark_road(roads: &[u32], junctions: &ByName<5>, ends: &mut Ends, road: RoadId)
    requires { (road.0 < length roads.now / 20) × (road.0 < 16384) }
    ensures { let word : Bool → ℕ = along_word junctions.now.text.now roads.now junctions.now.rows.now road.0 in
        ends.new.words ≡ set (set ends.old.words (road.0 * 2 + 0) (word false)) (road.0 * 2 + 1) (word true) }
{
    let r = road.0 as usize;
    let inside = in_virtual(roads, junctions, road);
    ends.mark(road, false, inside && rows::flag(roads, r * 20 + 10));
    ends.mark(road, true, inside && rows::flag(roads, r * 20 + 17));
}

// Marks the ends of all roads.
fn mark_roads(roads: &[u32], junctions: &ByName<5>, ends: &mut Ends)
    requires { length roads.now / 20 ≤ 16384 }
    ensures { Marked junctions.now.text.now roads.now junctions.now.rows.now (length roads.now / 20) ends.new.words }
{
    for road in 0..roads.len() / 20 {
        mark_road(roads, junctions, ends, RoadId(road as u32));
    }
}

// The roads before the first junction. The chain is lent for the junctions by name.
pub fn without_along(map: &MapTables, chain: &mut Chain, ends: &mut Ends)
    requires few { (length map.now.roads.now / 20 ≤ 16384) × (length map.now.junctions.now / 5 ≤ 16384) }
    requires empty { Empty chain.old.heads chain.old.next }
    ensures { roads_with (map_read map.now) ends.new.words ≡ roads_begun (map_read map.now) }
{
    by_key::link_names::<5, 0>(chain, map.text, map.junctions);
    let junctions = ByName::<5>::over(map.text, map.junctions, chain);
    mark_roads(map.roads, &junctions, ends);
}
