// Repair as a call: its refusals, and what it writes.
ghost use Rattle.std.specs.Prelude.{◌≡◌};
ghost use Rattle.model.specs.Calls.{repair_writing, repair_content, repair_call, outcome, written_or9};
ghost use Rattle.words.specs.Map.{map_read};
ghost use Rattle.repair.specs.Answers.{answer_of, outputs_of, content_now, SameOutputs};
ghost use Rattle.repair.specs.Ready.{Ready};

use crate::along::without_along;
use crate::junctions::State;
use crate::laid::LaidRows;
use crate::laying::Pile;
use crate::reads::Reads;
use crate::roads::put_roads;
use crate::targets::Ends;
use tables::refusal::Refusal;
use tables::verdict::repair_verdict;
use words::by_key::ByName;
use words::chain::Chain;
use words::map::MapTables;
use words::{by_key, rows};

// How many rows each output has.
#[derive(Clone, Copy, PartialEq, Eq, Debug)]
pub struct Rows {
    pub roads: usize,
    pub junctions: usize,
    pub connections: usize,
    pub pairs: usize,
    pub warnings: usize,
}

// The outputs that a caller lends.
#[derive(Drop)]
pub struct RepairOutputs<'a> {
    pub roads: &'a mut [u32],
    pub junctions: &'a mut [u32],
    pub connections: &'a mut [u32],
    pub pairs: &'a mut [u32],
    pub warnings: &'a mut [u32],
}

// Writes the outputs, if each is long enough.
fn write(reads: &Reads, state: &State, out: &mut RepairOutputs) -> Result<Rows, Refusal>
    ensures outcome { outcome (answer_of result) (outputs_of out.new)
        ≡ written_or9 repair_writing (content_now (map_read reads.now.map) state.now) (outputs_of out.old) }
    ensures same { SameOutputs out.old out.new }
{
    let rows = Rows {
        roads: reads.map.roads.len() / 20,
        junctions: state.junctions.rows,
        connections: state.pile.connections.rows,
        pairs: state.pile.pairs.rows,
        warnings: state.warnings.rows,
    };
    let junctions = state.junctions.slice();
    let connections = state.pile.connections.slice();
    let pairs = state.pile.pairs.slice();
    let warnings = state.warnings.slice();
    if rows.roads * 20 > out.roads.len()
        || junctions.len() > out.junctions.len()
        || connections.len() > out.connections.len()
        || pairs.len() > out.pairs.len()
        || warnings.len() > out.warnings.len()
    {
        return Err(Refusal::OutputShort);
    }
    put_roads(reads, &state.ends, out.roads);
    rows::copy(out.junctions, junctions);
    rows::copy(out.connections, connections);
    rows::copy(out.pairs, pairs);
    rows::copy(out.warnings, warnings);
    Ok(rows)
}

// Repairs a map that is refused by none of 1 to 5. One chain serves for the junctions, and then for the connections.
fn mend(map: &MapTables, roads: ByName<20>, out: &mut RepairOutputs) -> Result<Rows, Refusal>
    requires ready { Ready (map_read map.now) }
    requires roads_of { (roads.text.now ≡ map.now.text.now) × (roads.rows.now ≡ map.now.roads.now) }
    ensures outcome { outcome (answer_of result) (outputs_of out.new)
        ≡ written_or9 repair_writing (repair_content (map_read map.now)) (outputs_of out.old) }
    ensures same { SameOutputs out.old out.new }
{
    let mut chain = Chain::new();
    let mut state = State {
        ends: Ends { words: [0; 32768] },
        junctions: LaidRows {
            rows: 0,
            words: [0; 81920],
        },
        pile: Pile {
            connections: LaidRows {
                rows: 0,
                words: [0; 114688],
            },
            pairs: LaidRows {
                rows: 0,
                words: [0; 32768],
            },
        },
        warnings: LaidRows {
            rows: 0,
            words: [0; 32768],
        },
    };
    without_along(map, &mut chain, &mut state.ends);
    chain.clear();
    by_key::link_names::<7, 0>(&mut chain, map.text, map.connections);
    let connections = ByName::<7>::over(map.text, map.connections, &chain);
    let reads = Reads::over(map, roads, connections);
    state.junctions(&reads);
    write(&reads, &state, out)
}

// Repair: of the tables of a map, those of the map repaired, and the warnings.
pub fn repair(map: &MapTables, out: &mut RepairOutputs) -> Result<Rows, Refusal>
    ensures outcome { outcome (answer_of result) (outputs_of out.new)
        ≡ repair_call (map_read map.now) (outputs_of out.old) }
    ensures same { SameOutputs out.old out.new }
{
    let mut chain = Chain::new();
    repair_verdict(map, &mut chain)?;
    let roads = ByName::<20>::over(map.text, map.roads, &chain);
    mend(map, roads, out)
}
