// 6, 7 and 8: lanes by identity, their roads and sections, and by road, section and number.
ghost use Rattle.std.specs.Prelude.{◌≡◌, true, false, not, ◌+◌, ◌*◌, ◌/◌, ◌≤◌, ◌<◌, length};
ghost use Rattle.words.specs.Rows.{any, all, name_at};
ghost use Rattle.words.specs.Chain.{stored};
ghost use Rattle.words.specs.Keys.{name_before, id_before};
ghost use Rattle.rules.specs.ByRow.{listed_at, road_row_of, Owned};

use crate::parts::Sections;
use words::by_key::ByName;
use words::chain::{BUCKETS, Chain};
use words::name::Name;
use words::{by_key, chain};

// 6: no identity twice.
pub fn identities_once(lanes: &[u32]) -> bool
    requires { length lanes.now / 10 ≤ 16384 }
    ensures { result ≡ not (any (length lanes.now / 10) (id_before lanes.now)) }
{
    !by_key::link_ids(&mut Chain::new(), lanes)
}

// The row of lane i's road. The lanes of a road mostly stand together, so the road of the lane before, which `owner`
// has, is taken where the two have their names from one place.
#[tactic(auto, unfolding(crate::specs::ByRow::road_row_of))]
fn lane_road(roads: &ByName<20>, lanes: &[u32], owner: &[u32; BUCKETS], i: usize) -> Option<usize>
    requires i_in_bounds { (i < 16384) × (i * 10 + 10 ≤ length lanes.now) }
    requires owned { Owned roads.now.text.now roads.now.rows.now lanes.now i owner.now }
    ensures { stored result ≡ road_row_of roads.now.text.now roads.now.rows.now (name_at 10 1 lanes.now i) }
{
    let name = Name::at(lanes, i * 10 + 1);
    if i > 0 && Name::at(lanes, (i - 1) * 10 + 1) == name {
        return chain::row_in(owner[i - 1]);
    }
    roads.find(name)
}

// 7: fills `owner` with each lane's road, as a chain's words (its row plus 1, or 0 where it is unknown), and returns
// whether each lane's section is listed in its road.
#[tactic(auto, using(crate::proofs::Forms::road_row_le))]
pub fn lanes_listed(
    roads: &ByName<20>,
    sections: &Sections,
    lanes: &[u32],
    owner: &mut [u32; BUCKETS],
) -> bool
    requires same { sections.now.roads.now ≡ roads.now.rows.now }
    requires few { length lanes.now / 10 ≤ 16384 }
    requires once { any (length roads.now.rows.now / 20) (name_before roads.now.text.now 20 0 roads.now.rows.now)
        ≡ false }
    ensures value { result ≡ all (length lanes.now / 10)
        (listed_at roads.now.text.now roads.now.rows.now sections.now.sections.now lanes.now) }
    ensures owned { Owned roads.now.text.now roads.now.rows.now lanes.now (length lanes.now / 10) owner.new }
{
    let mut every = true;
    for i in 0..lanes.len() / 10 {
        let road = lane_road(roads, lanes, owner, i);
        owner[i] = chain::word_of(road);
        every &= sections.lists(road, lanes[i * 10 + 3]);
    }
    every
}
