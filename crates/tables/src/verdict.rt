// The first refusal that applies to a call, 9 and 11 left to the call itself.
ghost use Rattle.std.specs.Prelude.{◌≡◌, true, ◌&&◌, ◌++◌, ◌/◌, ◌≤◌, length, IfOk};
ghost use Rattle.model.specs.Rules.{first_broken, map_sized, lanes_sized, map_worded, lanes_worded, numbers_fine};
ghost use Rattle.model.specs.Tables.{Tables, lanes_in, pairs_in};
ghost use Rattle.model.specs.Calls.{rules_to5, lane_rules, repair_rules, succession_rules, table_rules};
ghost use Rattle.model.specs.Calls.{reversal_rules};
ghost use Rattle.words.specs.Chain.{Chained, Empty};
ghost use Rattle.words.specs.Keys.{name_hash};
ghost use Rattle.words.specs.Map.{map_read, lanes_read, all_read};
ghost use Rattle.rules.specs.ByRow.{Few};
ghost use Rattle.tables.specs.Refusals.{refusal_of};
ghost use Rattle.tables.specs.Left.{Fresh, Left};

use crate::refusal::Refusal;
use rules::parts::Sections;
use rules::{lanes, marks, parts, sizes, worded};
use words::by_key;
use words::by_key::ByName;
use words::chain::{BUCKETS, Chain};
use words::map::MapTables;

// What the checks of 1 to 8 leave: the roads by name, each lane's road (its row plus 1), the lanes by place. (Lent to
// each check and not returned: it is 320 KiB.)
#[derive(Drop)]
pub struct Links {
    pub roads: Chain,
    pub owner: [u32; BUCKETS],
    pub places: Chain,
}

impl Links {
    // Nothing yet.
    pub fn new() -> Self
        ensures { Fresh result }
    {
        Links {
            roads: Chain::new(),
            owner: [0; BUCKETS],
            places: Chain::new(),
        }
    }
}

// 3 to 5, where 1 and 2 are kept. Links the roads by name.
pub fn map_verdict(map: &MapTables, roads: &mut Chain) -> Result<(), Refusal>
    requires few { Few map.now.roads.now map.now.sections.now map.now.connections.now map.now.pairs.now }
    requires empty { Empty roads.old.heads roads.old.next }
    ensures refusal { refusal_of result ≡ first_broken (rules_to5 true true (map_read map.now)) }
    ensures chained { IfOk result (λ _. Chained (name_hash map.now.text.now 20 0 map.now.roads.now)
        (length map.now.roads.now / 20) roads.new.heads roads.new.next) }
{
    if by_key::link_names::<20, 0>(roads, map.text, map.roads) {
        return Err(Refusal::RoadTwice);
    }
    if !parts::sections_fit(map.roads, map.sections) {
        return Err(Refusal::BadSections);
    }
    if !parts::connections_fit(map) {
        return Err(Refusal::BadParts);
    }
    Ok(())
}

// Repair's refusals but 9. Links the roads by name.
pub fn repair_verdict(map: &MapTables, roads: &mut Chain) -> Result<(), Refusal>
    requires { Empty roads.old.heads roads.old.next }
    ensures refusal { refusal_of result ≡ first_broken (repair_rules (map_read map.now)) }
    ensures chained { IfOk result (λ _. Chained (name_hash map.now.text.now 20 0 map.now.roads.now)
        (length map.now.roads.now / 20) roads.new.heads roads.new.next) }
{
    if !sizes::map_sized(map, 8192) {
        return Err(Refusal::BadSize);
    }
    if !worded::map_worded(map) {
        return Err(Refusal::BadWord);
    }
    map_verdict(map, roads)
}

// 3 to 8, where 1 and 2 are kept.
pub fn lane_verdict(map: &MapTables, lanes: &[u32], links: &mut Links) -> Result<(), Refusal>
    requires few { Few map.now.roads.now map.now.sections.now map.now.connections.now map.now.pairs.now
        × (length lanes.now / 10 ≤ 16384) }
    requires fresh { Fresh links.old }
    ensures refusal { refusal_of result ≡ first_broken (rules_to5 true true (lanes_read map.now lanes.now)
        ++ lane_rules (lanes_read map.now lanes.now)) }
    ensures linked { IfOk result (λ _. Left map.now lanes.now links.new) }
{
    map_verdict(map, &mut links.roads)?;
    if !lanes::identities_once(lanes) {
        return Err(Refusal::IdentityTwice);
    }
    let roads = ByName::<20>::over(map.text, map.roads, &links.roads);
    let sections = Sections::over(map.roads, map.sections);
    if !lanes::lanes_listed(&roads, &sections, lanes, &mut links.owner) {
        return Err(Refusal::LaneUnlisted);
    }
    if by_key::link_places(&mut links.places, lanes, &links.owner) {
        return Err(Refusal::PlaceTwice);
    }
    Ok(())
}

// 1, of a call that reads lanes
#[tactic(auto, unfolding(model::specs::Rules::map_sized, model::specs::Rules::lanes_sized))]
fn sized(map: &MapTables, lanes: &[u32]) -> bool
    ensures { let t : Tables = lanes_read map.now lanes.now in result ≡ (map_sized 16384 t && lanes_sized t) }
{
    sizes::map_sized(map, 16384) && sizes::fits(lanes.len(), 10, 16384)
}

// 2, of a call that reads lanes
#[tactic(auto, unfolding(model::specs::Rules::map_worded, model::specs::Rules::lanes_worded))]
fn worded(map: &MapTables, lanes: &[u32]) -> bool
    ensures { let t : Tables = lanes_read map.now lanes.now in result ≡ (map_worded t && lanes_worded t) }
{
    worded::map_worded(map) && worded::lanes_worded(map.text, lanes)
}

// Succession's refusals but 9.
pub fn succession_verdict(map: &MapTables, lanes: &[u32], links: &mut Links) -> Result<(), Refusal>
    requires { Fresh links.old }
    ensures refusal { refusal_of result ≡ first_broken (succession_rules (lanes_read map.now lanes.now)) }
    ensures linked { IfOk result (λ _. Left map.now lanes.now links.new) }
{
    if !sized(map, lanes) {
        return Err(Refusal::BadSize);
    }
    if !worded(map, lanes) {
        return Err(Refusal::BadWord);
    }
    lane_verdict(map, lanes, links)
}

// 1 to 8 and 10. (1 is asked of the edges before it is asked of the rest: its number is the same.)
pub fn table_verdict(
    map: &MapTables,
    lanes: &[u32],
    edges: &[f32],
    links: &mut Links,
) -> Result<(), Refusal>
    requires { Fresh links.old }
    ensures refusal { refusal_of result ≡ first_broken (table_rules (all_read map.now lanes.now edges.now)) }
    ensures linked { IfOk result (λ _. Left map.now lanes.now links.new) }
{
    if !sizes::fits(edges.len(), 12, 16384) {
        return Err(Refusal::BadSize);
    }
    succession_verdict(map, lanes, links)?;
    if !marks::edges_fit(lanes.len(), edges.len()) {
        return Err(Refusal::BadEdges);
    }
    Ok(())
}

// 13, of lanes and pairs
fn numbers_turn(lanes: &[u32], pairs: &[u32]) -> bool
    ensures { result ≡ numbers_fine (lanes_in lanes.now) (pairs_in pairs.now) }
{
    marks::lanes_turn(lanes) && marks::pairs_turn(pairs)
}

// Reversal's refusals but 9.
pub fn reversal_verdict(
    map: &MapTables,
    lanes: &[u32],
    edges: &[f32],
    marks: &[u32],
    links: &mut Links,
) -> Result<(), Refusal>
    requires { Fresh links.old }
    ensures refusal { refusal_of result
        ≡ first_broken (reversal_rules (all_read map.now lanes.now edges.now) marks.now) }
    ensures linked { IfOk result (λ _. Left map.now lanes.now links.new) }
{
    table_verdict(map, lanes, edges, links)?;
    if !marks::marks_fit(map.roads.len() / 20, marks) {
        return Err(Refusal::BadMarks);
    }
    if !numbers_turn(lanes, map.pairs) {
        return Err(Refusal::LeastNumber);
    }
    if !marks::one_ended(map, marks) {
        return Err(Refusal::TwoEnded);
    }
    Ok(())
}
