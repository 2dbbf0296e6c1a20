// Reversal as a call: its refusals, and its six outputs.
ghost use Rattle.std.specs.Prelude.{◌≡◌, true, ◌*◌, ◌/◌, length};
ghost use Rattle.model.specs.Rows.{parts_fit, table};
ghost use Rattle.model.specs.Calls.{outcome, put_reversed, reversal_call};
ghost use Rattle.words.specs.Map.{all_read};
ghost use Rattle.reversal.specs.Turned.{Room, reversed_tables};
ghost use Rattle.reversal.specs.Answers.{SameOutputs, answer_of, long_enough, outputs, outputs_of};

use crate::lanes::OwnedLanes;
use crate::marks::Turning;
use crate::{lanes, links, roads};
use rules::parts::Sections;
use tables::refusal::Refusal;
use tables::verdict;
use tables::verdict::Links;
use words::by_key::ByName;
use words::map::MapTables;

// What reversal writes to.
#[derive(Drop)]
pub struct ReversalOutputs<'a> {
    pub roads: &'a mut [u32],
    pub sections: &'a mut [u32],
    pub connections: &'a mut [u32],
    pub pairs: &'a mut [u32],
    pub lanes: &'a mut [u32],
    pub edges: &'a mut [f32],
}

// How many rows were written to each output. (Each call has its own outputs, and so its own counts.)
#[derive(Clone, Copy, PartialEq, Eq, Debug)]
pub struct Counts {
    pub roads: usize,
    pub sections: usize,
    pub connections: usize,
    pub pairs: usize,
    pub lanes: usize,
    pub edges: usize,
}

// Not 9: each output is as long as the table whose rows it gets. (Reading's outputs are others, and have their own.)
fn enough(map: &MapTables, lanes: &[u32], edges: &[f32], out: &ReversalOutputs) -> bool
    ensures { result ≡ long_enough (outputs map.now.roads.now map.now.sections.now map.now.connections.now
        map.now.pairs.now lanes.now edges.now) (outputs_of out.now) }
{
    map.roads.len() <= out.roads.len()
        && map.sections.len() <= out.sections.len()
        && map.connections.len() <= out.connections.len()
        && map.pairs.len() <= out.pairs.len()
        && lanes.len() <= out.lanes.len()
        && edges.len() <= out.edges.len()
}

// Writes the six outputs.
fn write_all(
    owned: &OwnedLanes,
    connections: &[u32],
    pairs: &[u32],
    edges: &[f32],
    out: &mut ReversalOutputs,
)
    requires links { parts_fit 5 6 0 (length pairs.now / 2) (table 7 connections.now) ≡ true }
    requires even { length edges.now ≡ 12 * (length owned.now.lanes.now / 10) }
    requires room { Room (outputs owned.now.turning.roads.rows.now owned.now.turning.sections.sections.now
        connections.now pairs.now owned.now.lanes.now edges.now) (outputs_of out.old) }
    ensures content { outputs_of out.new ≡ put_reversed (reversed_tables owned.now.turning.roads.text.now
        owned.now.turning.roads.rows.now owned.now.turning.sections.sections.now connections.now pairs.now
        owned.now.lanes.now edges.now owned.now.turning.marks.now owned.now.owner.now) (outputs_of out.old) }
    ensures same { SameOutputs out.old out.new }
{
    let turning = &owned.turning;
    roads::put_roads(turning, out.roads);
    roads::put_sections(turning, out.sections);
    links::put_connections(turning, connections, out.connections);
    links::put_pairs(turning, connections, pairs, out.pairs);
    lanes::put_lanes(owned, out.lanes);
    lanes::put_edges(owned, edges, out.edges);
}

// The map with its marked roads reversed. (The call's contract gives its parameters; that each output is still the one
// lent is said of two moments, which no invariant can.)
pub fn reverse(
    map: &MapTables,
    lanes: &[u32],
    edges: &[f32],
    marks: &[u32],
    out: &mut ReversalOutputs,
) -> Result<Counts, Refusal>
    ensures outcome { outcome (answer_of result) (outputs_of out.new)
        ≡ reversal_call (all_read map.now lanes.now edges.now) marks.now (outputs_of out.old) }
    ensures same { SameOutputs out.old out.new }
{
    let mut links = Links::new();
    verdict::reversal_verdict(map, lanes, edges, marks, &mut links)?;
    if !enough(map, lanes, edges, out) {
        return Err(Refusal::OutputShort);
    }
    let roads = ByName::<20>::over(map.text, map.roads, &links.roads);
    let turning = Turning::over(roads, Sections::over(map.roads, map.sections), marks);
    let owned = OwnedLanes::over(turning, lanes, &links.owner);
    write_all(&owned, map.connections, map.pairs, edges, out);
    Ok(Counts {
        roads: map.roads.len() / 20,
        sections: map.sections.len(),
        connections: map.connections.len() / 7,
        pairs: map.pairs.len() / 2,
        lanes: lanes.len() / 10,
        edges: edges.len() / 12,
    })
}
