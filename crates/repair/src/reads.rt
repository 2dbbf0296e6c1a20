// What the walk over the junctions reads: a map that the rules admit, with its roads and connections by name.
ghost use Rattle.std.specs.Prelude.{◌≡◌, ◌/◌, ◌≤◌, length};
ghost use Rattle.words.specs.Map.{map_read};
ghost use Rattle.words.specs.Name.{place_of};
ghost use Rattle.rules.specs.ByRow.{road_row_of};
ghost use Rattle.repair.specs.Now.{road_stored};
ghost use Rattle.repair.specs.Ready.{Ready};

use tables::lookup::RoadId;
use words::by_key::ByName;
use words::map::MapTables;
use words::name::Name;

// The map, its roads by name, and its connections by the name of their incoming road.
#[derive(Clone, Copy)]
pub struct Reads<'a> {
    pub map: MapTables<'a>,
    pub roads: ByName<'a, 20>,
    pub connections: ByName<'a, 7>,
    ghost ready: { Ready (map_read map) },
    ghost roads_of: { (roads.text.now ≡ map.text.now) × (roads.rows.now ≡ map.roads.now) },
    ghost connections_of: { (connections.text.now ≡ map.text.now) × (connections.rows.now ≡ map.connections.now) },
}

impl<'a> Reads<'a> {
    // A map that the rules admit, and its tables by name.
    pub fn over(map: &MapTables<'a>, roads: ByName<'a, 20>, connections: ByName<'a, 7>) -> Self
        requires ready { Ready (map_read map.now) }
        requires roads_of { (roads.text.now ≡ map.now.text.now) × (roads.rows.now ≡ map.now.roads.now) }
        requires connections_of { (connections.text.now ≡ map.now.text.now)
            × (connections.rows.now ≡ map.now.connections.now) }
        ensures { result.map ≡ map.now }
    {
        Reads {
            map: *map,
            roads,
            connections,
        }
    }

    // The road of a name.
    pub fn road_of(&self, name: Name) -> Option<RoadId>
        ensures value { road_stored result ≡ road_row_of self.now.map.text.now self.now.map.roads.now (place_of name) }
        ensures upper_bound { road_stored result ≤ length self.now.map.roads.now / 20 }
    {
        let row = self.roads.find(name)?;
        Some(RoadId(row as u32))
    }
}
