// Every lane's own list, packed in lane row order.
ghost use Rattle.std.specs.Prelude.{◌≡◌, ◌/◌, ◌≤◌, ◌<◌, length};
ghost use Rattle.std.proofs.Math.Option.{none};
ghost use Rattle.model.specs.Calls.{succession_rules};
ghost use Rattle.model.specs.Rules.{first_broken};
ghost use Rattle.model.specs.Tables.{Tables};
ghost use Rattle.words.specs.Chain.{Chained};
ghost use Rattle.words.specs.Keys.{name_hash};
ghost use Rattle.words.specs.Map.{lanes_read};
ghost use Rattle.words.specs.Rows.{total};
ghost use Rattle.tables.specs.Left.{Left};
ghost use Rattle.succession.specs.ByRow.{successors_by_row};
ghost use Rattle.succession.specs.Named.{Ended, Sided};
ghost use Rattle.succession.specs.Finished.{exit_count};
ghost use Rattle.succession.specs.Packs.{Filled};
ghost use Rattle.succession.specs.Answers.{own_list};
ghost use Rattle.succession.specs.Read.{read_of};

use crate::names::TwoEach;
use crate::walk::Walk;
use crate::{meeting, names};
use tables::verdict::Links;
use words::by_key;
use words::by_key::{ByName, ByPlace};
use words::chain::Chain;
use words::map::MapTables;

impl Walk<'_> {
    // Fills offsets and identities with the lists that the lanes find by their own links. (`AllFound::finish` packs
    // alike: one function for both would call a closure with a run to write into, its contract longer than the loops.)
    pub fn own_lists(&self, offsets: &mut [u32], own: &mut [u32])
        requires { (length self.now.places.lanes.now / 10 < length offsets.old) × (length own.old ≤ 131072)
            × (total (length self.now.places.lanes.now / 10) (exit_count (read_of self.now)) ≤ length own.old) }
        ensures { Filled (length self.now.places.lanes.now / 10) (successors_by_row (read_of self.now))
            offsets.old own.old offsets.new own.new }
    {
        let n = self.places.lanes.len() / 10;
        let mut at: usize = 0;
        for l in 0..n {
            offsets[l] = at as u32;
            at += self.successors_of(l, &mut own[at..]);
        }
        offsets[n] = at as u32;
    }
}

// Fills `sides` and `ends` with the rows that connections and targets name.
fn link_rows(map: &MapTables, roads: &Chain, sides: &mut TwoEach, ends: &mut TwoEach)
    requires few { (length map.now.roads.now / 20 ≤ 16384) × (length map.now.junctions.now / 5 ≤ 16384)
        × (length map.now.connections.now / 7 ≤ 16384) }
    requires chained { Chained (name_hash map.now.text.now 20 0 map.now.roads.now) (length map.now.roads.now / 20)
        roads.now.heads roads.now.next }
    ensures { Sided map.now.text.now map.now.roads.now map.now.connections.now
        (length map.now.connections.now / 7) sides.new
        × Ended map.now.text.now map.now.roads.now map.now.junctions.now (length map.now.roads.now / 20) ends.new }
{
    let mut chain = Chain::new();
    by_key::link_names::<5, 0>(&mut chain, map.text, map.junctions);
    let roads = ByName::<20>::over(map.text, map.roads, roads);
    let junctions = ByName::<5>::over(map.text, map.junctions, &chain);
    names::link_sides(&roads, map.connections, sides);
    names::link_ends(&roads, &junctions, ends);
}

// Every lane's own list, where there is no refusal and the checks left their links. The chains of the roads make room
// for those of the connections.
pub fn find_own(
    map: &MapTables,
    lanes: &[u32],
    links: &mut Links,
    offsets: &mut [u32; 16385],
    own: &mut [u32; 65536],
)
    requires admitted { first_broken (succession_rules (lanes_read map.now lanes.now)) ≡ none }
    requires linked { Left map.now lanes.now links.old }
    ensures { let t : Tables = lanes_read map.now lanes.now in
        Filled (length t.lanes / 10) (own_list t) offsets.old own.old offsets.new own.new }
{
    let mut sides = [0u32; 32768];
    let mut ends = [0u32; 32768];
    link_rows(map, &links.roads, &mut sides, &mut ends);
    meeting::link_connections(map.junctions, map.connections, &sides, &mut links.roads);
    let walk = Walk {
        map: *map,
        places: ByPlace::over(lanes, &links.owner, &links.places),
        sides: &sides,
        ends: &ends,
        meeting: &links.roads,
    };
    walk.own_lists(offsets, own);
}
