// The gap check as a call: its refusals, and its rows.
ghost use Rattle.std.specs.Prelude.{◌≡◌, leb, length, take};
ghost use Rattle.model.specs.Rules.{first_broken};
ghost use Rattle.model.specs.Calls.{gap_rules, gap_call, gap_width, outcome, table_writing, written_or9};
ghost use Rattle.words.specs.Map.{all_read};
ghost use Rattle.tables.specs.Refusals.{refusal_of};
ghost use Rattle.gaps.specs.Lent.{lane_count, words_below};
ghost use Rattle.gaps.specs.Answers.{answer_of};

use crate::links::{GAP_ROW, Links};
use crate::lists::Packed;
use tables::refusal::Refusal;
use tables::verdict;
use words::by_key;
use words::by_key::ById;
use words::chain::Chain;
use words::map::MapTables;

// 1 to 8 and 10, the first nine.
#[tactic(auto, using(tables::proofs::Order::nine_sized, tables::proofs::Order::nine_unsized))]
fn first_verdict(
    map: &MapTables,
    lanes: &[u32],
    edges: &[f32],
    lists: &Packed,
) -> Result<(), Refusal>
    ensures { refusal_of result
        ≡ first_broken (take 9 (gap_rules (all_read map.now lanes.now edges.now)
        lists.now.offsets.now lists.now.ids.now)) }
{
    if !lists.sized() {
        return Err(Refusal::BadSize);
    }
    verdict::table_verdict(map, lanes, edges, &mut verdict::Links::new())
}

// Not 9: room for a row of every link, or for the rows that there are, which are counted only then.
#[tactic(auto, using(crate::proofs::LinkLaws::all_most))]
fn enough(links: &Links, words: usize) -> bool
    ensures { result ≡ leb (length (words_below links.now (lane_count links.now))) words }
{
    links.most() <= words || links.len() <= words
}

// 9, and the rows.
fn write_rows(links: &Links, out: &mut [u32]) -> Result<usize, Refusal>
    ensures { outcome (answer_of result) out.new
        ≡ written_or9 (table_writing gap_width) (words_below links.now (lane_count links.now)) out.old }
{
    if !enough(links, out.len()) {
        return Err(Refusal::OutputShort);
    }
    Ok(links.put(out) / GAP_ROW)
}

// The lane links whose ends do not meet, a row of five words each: the lane's row, its successor's row, and the bits of
// the gap and of how far along the lane's end and the successor's the two come closest. Returns how many rows they are.
pub fn link_gaps(
    map: &MapTables,
    lanes: &[u32],
    edges: &[f32],
    offsets: &[u32],
    ids: &[u32],
    out: &mut [u32],
) -> Result<usize, Refusal>
    ensures { outcome (answer_of result) out.new
        ≡ gap_call (all_read map.now lanes.now edges.now) offsets.now ids.now out.old }
{
    let lists = Packed { offsets, ids };
    first_verdict(map, lanes, edges, &lists)?;
    let mut chain = Chain::new();
    by_key::link_ids(&mut chain, lanes);
    let by_id = ById::over(lanes, &chain);
    if !lists.fit(&by_id) {
        return Err(Refusal::BadLists);
    }
    write_rows(&Links::over(by_id, edges, lists), out)
}
