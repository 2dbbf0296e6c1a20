// The four calls over the tables of a map. Each returns 0 and leaves in `written` the rows written to each output, or
// returns the number of a refusal and changes no lent word.
ghost use Rattle.std.specs.Prelude.{◌≡◌};
ghost use Rattle.model.specs.Calls.{repair_call, succession_call, gap_call, reversal_call};
ghost use Rattle.model.specs.Tables.{map_tables, lane_tables, all_tables};
ghost use Rattle.repair.specs.Answers as repair;
ghost use Rattle.succession.specs.Answers as succession;
ghost use Rattle.reversal.specs.Answers as reversal;
ghost use Rattle.vorzhyket.specs.Exported.{exported};

use crate::answers::accepted;
use gaps::call::link_gaps;
use repair::call::{RepairOutputs, repair};
use reversal::call::{ReversalOutputs, reverse};
use succession::call::{ListOutputs, succession};
use words::map::MapTables;

// The map repaired, and a warning for each link that it lacked.
#[unsafe(no_mangle)]
pub extern "C" fn vz_repair(
    text: &[u8],
    roads: &[u32],
    sections: &[u32],
    junctions: &[u32],
    connections: &[u32],
    pairs: &[u32],
    roads_out: &mut [u32],
    junctions_out: &mut [u32],
    connections_out: &mut [u32],
    pairs_out: &mut [u32],
    warnings_out: &mut [u32],
    written: &mut [u32; 5],
) -> u32
    ensures { (
      (result, written.new),
      repair.outputs roads_out.new junctions_out.new connections_out.new
          pairs_out.new warnings_out.new,
    )
        ≡ exported (repair_call
        (map_tables text.now roads.now sections.now junctions.now
        connections.now pairs.now)
        (repair.outputs roads_out.old junctions_out.old connections_out.old
        pairs_out.old warnings_out.old))
        written.old }
{
    let map = MapTables {
        text,
        roads,
        sections,
        junctions,
        connections,
        pairs,
    };
    let mut out = RepairOutputs {
        roads: roads_out,
        junctions: junctions_out,
        connections: connections_out,
        pairs: pairs_out,
        warnings: warnings_out,
    };
    match repair(&map, &mut out) {
        Ok(n) => accepted(
            [n.roads, n.junctions, n.connections, n.pairs, n.warnings],
            written,
        ),
        Err(refusal) => refusal.number(),
    }
}

// The lanes onward of every lane and the lanes before it, as offsets and packed identities.
#[unsafe(no_mangle)]
pub extern "C" fn vz_succession(
    text: &[u8],
    roads: &[u32],
    sections: &[u32],
    junctions: &[u32],
    connections: &[u32],
    pairs: &[u32],
    lanes: &[u32],
    successor_offsets: &mut [u32],
    successor_ids: &mut [u32],
    predecessor_offsets: &mut [u32],
    predecessor_ids: &mut [u32],
    written: &mut [u32; 4],
) -> u32
    ensures { (
      (result, written.new),
      succession.outputs successor_offsets.new successor_ids.new
          predecessor_offsets.new predecessor_ids.new,
    )
        ≡ exported (succession_call
        (lane_tables text.now roads.now sections.now junctions.now
        connections.now pairs.now lanes.now)
        (succession.outputs successor_offsets.old successor_ids.old
        predecessor_offsets.old predecessor_ids.old))
        written.old }
{
    let map = MapTables {
        text,
        roads,
        sections,
        junctions,
        connections,
        pairs,
    };
    let mut out = ListOutputs {
        successor_offsets,
        successor_ids,
        predecessor_offsets,
        predecessor_ids,
    };
    match succession(&map, lanes, &mut out) {
        Ok(n) => accepted(
            [
                n.successor_offsets,
                n.successor_ids,
                n.predecessor_offsets,
                n.predecessor_ids,
            ],
            written,
        ),
        Err(refusal) => refusal.number(),
    }
}

// The lane links whose ends do not meet: the lane's row, its successor's row, and the bits of the gap and of how far
// along the lane's end and the successor's the two come closest.
#[unsafe(no_mangle)]
pub extern "C" fn vz_gaps(
    text: &[u8],
    roads: &[u32],
    sections: &[u32],
    junctions: &[u32],
    connections: &[u32],
    pairs: &[u32],
    lanes: &[u32],
    edges: &[f32],
    offsets: &[u32],
    ids: &[u32],
    gaps_out: &mut [u32],
    written: &mut [u32; 1],
) -> u32
    ensures { ((result, written.new), gaps_out.new)
        ≡ exported (gap_call
        (all_tables text.now roads.now sections.now junctions.now
        connections.now pairs.now lanes.now edges.now)
        offsets.now ids.now gaps_out.old)
        written.old }
{
    let map = MapTables {
        text,
        roads,
        sections,
        junctions,
        connections,
        pairs,
    };
    match link_gaps(&map, lanes, edges, offsets, ids, gaps_out) {
        Ok(n) => accepted([n], written),
        Err(refusal) => refusal.number(),
    }
}

// The map with its marked roads reversed.
#[unsafe(no_mangle)]
pub extern "C" fn vz_reverse(
    text: &[u8],
    roads: &[u32],
    sections: &[u32],
    junctions: &[u32],
    connections: &[u32],
    pairs: &[u32],
    lanes: &[u32],
    edges: &[f32],
    marks: &[u32],
    roads_out: &mut [u32],
    sections_out: &mut [u32],
    connections_out: &mut [u32],
    pairs_out: &mut [u32],
    lanes_out: &mut [u32],
    edges_out: &mut [f32],
    written: &mut [u32; 6],
) -> u32
    ensures { (
      (result, written.new),
      reversal.outputs roads_out.new sections_out.new connections_out.new
          pairs_out.new lanes_out.new edges_out.new,
    )
        ≡ exported (reversal_call
        (all_tables text.now roads.now sections.now junctions.now
        connections.now pairs.now lanes.now edges.now)
        marks.now
        (reversal.outputs roads_out.old sections_out.old connections_out.old
        pairs_out.old lanes_out.old edges_out.old))
        written.old }
{
    let map = MapTables {
        text,
        roads,
        sections,
        junctions,
        connections,
        pairs,
    };
    let mut out = ReversalOutputs {
        roads: roads_out,
        sections: sections_out,
        connections: connections_out,
        pairs: pairs_out,
        lanes: lanes_out,
        edges: edges_out,
    };
    match reverse(&map, lanes, edges, marks, &mut out) {
        Ok(n) => accepted(
            [
                n.roads,
                n.sections,
                n.connections,
                n.pairs,
                n.lanes,
                n.edges,
            ],
            written,
        ),
        Err(refusal) => refusal.number(),
    }
}
