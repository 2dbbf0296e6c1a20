// 10, 12, 13 and 14: what reversal asks of edges, marks, numbers and roads.
ghost use Rattle.std.specs.Prelude.{◌≡◌, ◌&&◌, map, ◌+◌, ◌*◌, ◌/◌, ◌≤◌, ◌<◌, length, get_or, eqb, leb};
ghost use Rattle.model.specs.Lists.{every};
ghost use Rattle.model.specs.Rows.{table};
ghost use Rattle.model.specs.Tables.{lane_in, pair_in, link_of};
ghost use Rattle.model.specs.Rules.{lane_fine, pair_fine, link_fine};
ghost use Rattle.words.specs.Rows.{all};
ghost use Rattle.rules.specs.ByRow.{twice_from, turns_twice};

use words::by_key::ByName;
use words::chain::Chain;
use words::kinds::JunctionKind;
use words::map::MapTables;
use words::target::Target;
use words::{by_key, rows};

// A lane number that has no number with the other sign.
const LEAST: u32 = 2147483648;

// 12, for n roads
pub fn marks_fit(n: usize, marks: &[u32]) -> bool
    ensures { result ≡ (eqb n (length marks.now) && every (λ k. leb k 1) marks.now) }
{
    n == marks.len() && marks.iter().all(|&mark| mark <= 1)
}

// 13: the link at words `at` and `at + 1`
fn link_turns(row: &[u32], at: usize) -> bool
    requires { at + 1 < length row.now }
    ensures { result ≡ link_fine (link_of (get_or row.now at 0) (get_or row.now (at + 1) 0)) }
{
    rows::link(row, at) != Some(LEAST)
}

#[tactic(auto, unfolding(model::specs::Rules::lane_fine, model::specs::Tables::lane_in))]
fn lane_turns(row: &[u32]) -> bool
    requires { 10 ≤ length row.now }
    ensures { result ≡ lane_fine (lane_in row.now) }
{
    row[4] != LEAST && link_turns(row, 8) && link_turns(row, 6)
}

pub fn lanes_turn(lanes: &[u32]) -> bool
    ensures { result ≡ every lane_fine (map lane_in (table 10 lanes.now)) }
{
    lanes.chunks_exact(10).all(lane_turns)
}

pub fn pairs_turn(pairs: &[u32]) -> bool
    ensures { result ≡ every pair_fine (map pair_in (table 2 pairs.now)) }
{
    pairs
        .chunks_exact(2)
        .all(|pair| pair[0] != LEAST && pair[1] != LEAST)
}

// Whether the road whose row begins at word `at` names one direct junction at both ends.
#[tactic(auto, unfolding(crate::specs::ByRow::twice_from))]
fn twice_named(roads: &[u32], at: usize, junctions: &ByName<5>) -> bool
    requires { at + 20 ≤ length roads.now }
    ensures { result ≡ twice_from junctions.now.text.now roads.now junctions.now.rows.now at }
{
    let ends = (Target::at(roads, at + 4), Target::at(roads, at + 11));
    let (Some(first), Some(last)) = ends else {
        return false;
    };
    first.is_junction
        && last.is_junction
        && last.name.same(first.name, junctions.text)
        && junctions.has_kind(first.name, JunctionKind::Direct)
}

// 14: no marked road names one direct junction at both ends.
pub fn one_ended(map: &MapTables, marks: &[u32]) -> bool
    requires marked { length map.now.roads.now / 20 ≡ length marks.now }
    requires few { length map.now.junctions.now / 5 ≤ 16384 }
    ensures { result ≡ all (length map.now.roads.now / 20)
        (turns_twice map.now.text.now map.now.roads.now map.now.junctions.now marks.now) }
{
    let mut chain = Chain::new();
    by_key::link_names::<5, 0>(&mut chain, map.text, map.junctions);
    let junctions = ByName::<5>::over(map.text, map.junctions, &chain);
    (0..marks.len()).all(|i| !rows::flag(marks, i) || !twice_named(map.roads, i * 20, &junctions))
}

// 10
pub fn edges_fit(lanes: usize, edges: usize) -> bool
    requires { lanes / 10 ≤ 16384 }
    ensures { result ≡ eqb edges (12 * (lanes / 10)) }
{
    edges == 12 * (lanes / 10)
}
