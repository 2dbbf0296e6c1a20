// Attribute reading, and the length check. Each reading returns 0 and leaves in `written` the rows written to each
// output, or returns the number of a refusal and changes no lent word.
ghost use Rattle.std.specs.Prelude.{◌≡◌};
ghost use Rattle.model.specs.Length.{length_call};
ghost use Rattle.model.specs.ReadingCalls.{read_junctions_call, read_lanes_call, read_targets_call};
ghost use Rattle.reading.specs.Answers as reading;
ghost use Rattle.reading.specs.JunctionAnswers as junctions;
ghost use Rattle.reading.specs.Laid.{raw_tables};
ghost use Rattle.reading.specs.TargetAnswers as targets;
ghost use Rattle.vorzhyket.specs.Exported.{exported, exported_length};

use crate::answers::accepted;
use reading::junctions::{JunctionOutputs, read_junctions};
use reading::lanes::read_lanes;
use reading::length::{Uneven, check_length};
use reading::raw::RawJunctions;
use reading::targets::read_targets;

// The target of each raw target, two to a road, and a warning for each contact point that is spelled loosely.
#[unsafe(no_mangle)]
pub extern "C" fn vz_read_targets(
    text: &[u8],
    raw: &[u32],
    targets_out: &mut [u32],
    warnings_out: &mut [u32],
    written: &mut [u32; 2],
) -> u32
    ensures { (
      (result, written.new),
      targets.outputs targets_out.new warnings_out.new,
    )
        ≡ exported (read_targets_call text.now raw.now
        (targets.outputs targets_out.old warnings_out.old))
        written.old }
{
    match read_targets(text, raw, targets_out, warnings_out) {
        Ok(n) => accepted([n.targets, n.warnings], written),
        Err(refusal) => refusal.number(),
    }
}

// The junctions, connections and pairs of the raw tables, and a warning for each connection or lane link that is
// dropped and each contact point that is spelled loosely.
#[unsafe(no_mangle)]
pub extern "C" fn vz_read_junctions(
    text: &[u8],
    raw_junctions: &[u32],
    raw_connections: &[u32],
    raw_lane_links: &[u32],
    junctions_out: &mut [u32],
    connections_out: &mut [u32],
    pairs_out: &mut [u32],
    warnings_out: &mut [u32],
    written: &mut [u32; 4],
) -> u32
    ensures { (
      (result, written.new),
      junctions.outputs junctions_out.new connections_out.new pairs_out.new
          warnings_out.new,
    )
        ≡ exported (read_junctions_call
        (raw_tables text.now raw_junctions.now raw_connections.now
        raw_lane_links.now)
        (junctions.outputs junctions_out.old connections_out.old pairs_out.old
        warnings_out.old))
        written.old }
{
    let raw = RawJunctions {
        text,
        junctions: raw_junctions,
        connections: raw_connections,
        lane_links: raw_lane_links,
    };
    let mut out = JunctionOutputs {
        junctions: junctions_out,
        connections: connections_out,
        pairs: pairs_out,
        warnings: warnings_out,
    };
    match read_junctions(&raw, &mut out) {
        Ok(n) => accepted([n.junctions, n.connections, n.pairs, n.warnings], written),
        Err(refusal) => refusal.number(),
    }
}

// The links of each raw lane: predecessor flag and number, then successor flag and number.
#[unsafe(no_mangle)]
pub extern "C" fn vz_read_lanes(
    text: &[u8],
    raw: &[u32],
    links_out: &mut [u32],
    written: &mut [u32; 1],
) -> u32
    ensures { ((result, written.new), links_out.new)
        ≡ exported (read_lanes_call text.now raw.now links_out.old)
        written.old }
{
    match read_lanes(text, raw, links_out) {
        Ok(n) => accepted([n], written),
        Err(refusal) => refusal.number(),
    }
}

// 1 and where the plan view ends in `sum`, if that is off the road's length; 0 if there is nothing to report, 16 if
// starts and lengths differ in count, and `sum` stays.
#[unsafe(no_mangle)]
pub extern "C" fn vz_length(starts: &[f64], lengths: &[f64], length: f64, sum: &mut f64) -> u32
    ensures { (result, sum.new)
        ≡ exported_length (length_call starts.now lengths.now length) sum.old }
{
    match check_length(starts, lengths, length) {
        Ok(Some(s)) => {
            *sum = s;
            1
        }
        Ok(None) => 0,
        Err(Uneven) => 16,
    }
}
