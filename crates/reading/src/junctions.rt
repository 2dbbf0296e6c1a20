// Junctions with their connections and pairs, and the warnings, as the call reads and writes them: a first run counts,
// a second writes.
ghost use Rattle.std.specs.Prelude.{◌≡◌, true, [], ◌∷◌, ◌+◌, ◌*◌, ◌/◌, ◌≤◌, ◌<◌, length, IfOk};
ghost use Rattle.model.specs.Lists.{gather};
ghost use Rattle.model.specs.Rules.{first_broken, fits};
ghost use Rattle.model.specs.Calls.{outcome};
ghost use Rattle.model.specs.Reading.{part_rows, to_list, connection_dropped, read_warning_row};
ghost use Rattle.model.specs.Reading.{read_junction};
ghost use Rattle.model.specs.Reading.{read_junctions, read_warnings, junction_warnings};
ghost use Rattle.model.specs.ReadingCalls.{junction_content, junction_lengths, raw_junction_rules};
ghost use Rattle.model.specs.ReadingCalls.{read_junctions_call};
ghost use Rattle.tables.specs.Refusals.{refusal_of};
ghost use Rattle.reading.specs.JunctionAnswers.{answer_of, outputs_of, words_of, SameOutputs};
ghost use Rattle.reading.specs.Laid.{JunctionsRead, Low, Run, junction_outs, named, parted, sizes};
ghost use Rattle.reading.specs.Outs.{BeforeLaid, junctions_laid, laid};
ghost use Rattle.reading.specs.Read.{tables_read};

use crate::attributes::{attribute, rows_named};
use crate::connections::{RawJunction, kind_read};
use crate::laid::Laid;
use crate::lanes::raw_sized;
use crate::raw::{Admitted, RawJunctions};
use crate::warning::Warning;
use rules::parts::parts_fit;
use rules::sizes;
use tables::refusal::Refusal;
use words::rows;

// Where the junctions, connections and pairs of a map are written, and the warnings.
#[derive(Drop)]
pub struct JunctionOutputs<'a> {
    pub junctions: &'a mut [u32],
    pub connections: &'a mut [u32],
    pub pairs: &'a mut [u32],
    pub warnings: &'a mut [u32],
}

// How many rows each output has.
#[derive(Clone, Copy, PartialEq, Eq, Debug)]
pub struct Rows {
    pub junctions: usize,
    pub connections: usize,
    pub pairs: usize,
    pub warnings: usize,
}

impl Rows {
    // Whether so many rows fit the outputs.
    fn fit(&self, out: &JunctionOutputs) -> bool
        requires { (self.now.junctions ≤ 16384) × (self.now.connections ≤ 16384) × (self.now.pairs ≤ 16384)
            × (self.now.warnings ≤ 32768) }
        ensures { result ≡ fits (words_of self.now)
            (length out.now.junctions.now ∷ length out.now.connections.now ∷ length out.now.pairs.now
            ∷ length out.now.warnings.now ∷ []) }
    {
        self.junctions * 5 <= out.junctions.len()
            && self.connections * 7 <= out.connections.len()
            && self.pairs * 2 <= out.pairs.len()
            && self.warnings * 4 <= out.warnings.len()
    }
}

// Warning 1 for each of `count` connections from row `first` on.
fn drop_all(j: u32, first: usize, count: usize, out: &mut Laid<4>)
    requires { (first + count ≤ 16384) × (out.old.rows + count ≤ 32768) }
    ensures put { Run 4 (gather (λ c. read_warning_row (connection_dropped j c)) (part_rows first count)) count
        (laid out.old) (laid out.new) }
{
    for k in 0..count {
        out.put(&Warning::ConnectionDropped {
            junction: j,
            connection: (first + k) as u32,
        }
        .row());
    }
}

// Reads junction j.
fn read_junction(
    tables: &Admitted,
    j: usize,
    junctions: &mut Laid<5>,
    connections: &mut Laid<7>,
    pairs: &mut Laid<2>,
    warnings: &mut Laid<4>,
)
    requires { (j < length tables.now.raw.junctions.now / 8)
        × BeforeLaid tables.now.raw.junctions.now tables.now.raw.connections.now j junctions.old connections.old
        pairs.old warnings.old }
    ensures read { JunctionsRead (to_list (read_junction (tables_read tables.now.raw) j))
        (junction_warnings (tables_read tables.now.raw) j)
        (junctions_laid junctions.old connections.old pairs.old warnings.old)
        (junctions_laid junctions.new connections.new pairs.new warnings.new) }
    ensures low { BeforeLaid tables.now.raw.junctions.now tables.now.raw.connections.now (j + 1) junctions.new
        connections.new pairs.new warnings.new }
{
    let row = tables.junction(j);
    let first = rows::word(row, 6);
    let count = rows::word(row, 7);
    let Some(name) = attribute(row, 0) else {
        drop_all(j as u32, first, count, warnings);
        return;
    };
    let kind = kind_read(tables.raw.text, attribute(row, 2));
    let junction = RawJunction {
        tables: *tables,
        row: j,
        kind,
    };
    let start = connections.rows;
    junction.read_connections(first, count, connections, pairs, warnings);
    let size = connections.rows - start;
    junctions.put(&[
        name.start,
        name.size,
        u32::from(kind),
        start as u32,
        size as u32,
    ]);
}

// Reads all junctions into these outputs.
fn read_all(
    tables: &Admitted,
    junctions: &mut [u32],
    connections: &mut [u32],
    pairs: &mut [u32],
    warnings: &mut [u32],
) -> Rows
    ensures read { JunctionsRead (read_junctions (tables_read tables.now.raw))
        (read_warnings (tables_read tables.now.raw))
        (junction_outs junctions.old 0 connections.old 0 pairs.old 0 warnings.old 0)
        (junction_outs junctions.new result.junctions connections.new result.connections pairs.new result.pairs
        warnings.new result.warnings) }
    ensures low { (result.junctions ≤ 16384) × Low tables.now.raw.connections.now
        (length tables.now.raw.connections.now / 14) result.connections result.pairs result.warnings }
{
    let mut junctions = Laid::over(junctions);
    let mut connections = Laid::over(connections);
    let mut pairs = Laid::over(pairs);
    let mut warnings = Laid::over(warnings);
    for j in 0..tables.raw.junctions.len() / 8 {
        read_junction(
            tables,
            j,
            &mut junctions,
            &mut connections,
            &mut pairs,
            &mut warnings,
        );
    }
    Rows {
        junctions: junctions.rows,
        connections: connections.rows,
        pairs: pairs.rows,
        warnings: warnings.rows,
    }
}

// How many rows there are: a run that writes to outputs without room, by the same steps as the one that writes.
fn count_all(tables: &Admitted) -> Rows
    ensures lengths { junction_lengths (junction_content (tables_read tables.now.raw)) ≡ words_of result }
    ensures few { (result.junctions ≤ 16384) × (result.connections ≤ 16384) × (result.pairs ≤ 16384)
        × (result.warnings ≤ 32768) }
{
    read_all(tables, &mut [], &mut [], &mut [], &mut [])
}

// 1
#[tactic(auto, unfolding(model::specs::ReadingCalls::raw_sized))]
fn sized(raw: &RawJunctions) -> bool
    ensures { result ≡ sizes (tables_read raw.now) }
{
    raw_sized(raw.text, 8, raw.junctions.len())
        && sizes::fits(raw.connections.len(), 14, 16384)
        && sizes::fits(raw.lane_links.len(), 4, 16384)
}

// 2
fn named(raw: &RawJunctions) -> bool
    ensures { result ≡ named (tables_read raw.now) }
{
    rows_named(raw.text, raw.junctions, 8, 3)
        && rows_named(raw.text, raw.connections, 14, 6)
        && rows_named(raw.text, raw.lane_links, 4, 2)
}

// 5
fn parted(raw: &RawJunctions) -> bool
    requires { sizes (tables_read raw.now) ≡ true }
    ensures { result ≡ parted (tables_read raw.now) }
{
    parts_fit(raw.junctions, 8, 6, 7, raw.connections.len() / 14)
        && parts_fit(raw.connections, 14, 12, 13, raw.lane_links.len() / 4)
}

// The raw tables, if no refusal but 9 applies.
fn admitted<'a>(raw: &RawJunctions<'a>) -> Result<Admitted<'a>, Refusal>
    ensures refusal { refusal_of result ≡ first_broken (raw_junction_rules (tables_read raw.now)) }
    ensures same { IfOk result (λ tables. tables_read tables.raw ≡ tables_read raw.now) }
{
    if !sized(raw) {
        return Err(Refusal::BadSize);
    }
    if !named(raw) {
        return Err(Refusal::BadWord);
    }
    if !parted(raw) {
        return Err(Refusal::BadParts);
    }
    Ok(Admitted { raw: *raw })
}

// Reads junctions: of the raw tables, the junctions, connections and pairs of a map, and the warnings.
pub fn read_junctions(raw: &RawJunctions, out: &mut JunctionOutputs) -> Result<Rows, Refusal>
    ensures outcome { outcome (answer_of result) (outputs_of out.new)
        ≡ read_junctions_call (tables_read raw.now) (outputs_of out.old) }
    ensures same { SameOutputs out.old out.new }
{
    let tables = admitted(raw)?;
    if !count_all(&tables).fit(out) {
        return Err(Refusal::OutputShort);
    }
    Ok(read_all(
        &tables,
        out.junctions,
        out.connections,
        out.pairs,
        out.warnings,
    ))
}
