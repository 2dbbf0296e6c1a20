// Lanes: the links of each lane, as the call reads and writes them.
ghost use Rattle.std.specs.Prelude.{◌≡◌, ◌+◌, ◌*◌, ◌/◌, ◌≤◌, ◌<◌, length};
ghost use Rattle.model.specs.Calls.{outcome};
ghost use Rattle.model.specs.Rows.{written};
ghost use Rattle.model.specs.Rules.{first_broken};
ghost use Rattle.model.specs.Reading.{read_lane};
ghost use Rattle.model.specs.ReadingCalls.{raw_sized, raw_lane_rules, raw_lane_content, read_lanes_call};
ghost use Rattle.tables.specs.Refusals.{refusal_of};
ghost use Rattle.reading.specs.Answers.{answer_of};

use crate::attributes::{attribute, number_of, rows_named};
use rules::sizes;
use tables::refusal::Refusal;
use words::rows;

// 1: the text, and n words of a table with w a row.
#[tactic(auto, unfolding(model::specs::ReadingCalls::raw_sized))]
pub fn raw_sized(text: &[u8], w: usize, n: usize) -> bool
    requires { (0 < w) × (w ≤ 20) }
    ensures { result ≡ raw_sized text.now w n }
{
    text.len() <= 1048576 && sizes::fits(n, w, 16384)
}

// The links of the lane.
#[tactic(auto, unfolding(model::specs::Reading::read_lane))]
fn lane_row(text: &[u8], row: &[u32; 4]) -> [u32; 4]
    ensures { result ≡ read_lane text.now row.now }
{
    let [before, predecessor] = rows::link_words(number_of(text, attribute(row, 0)));
    let [after, successor] = rows::link_words(number_of(text, attribute(row, 2)));
    [before, predecessor, after, successor]
}

// Writes the links of all lanes. (Tried: the check doesn't cover one loop for all tables, by `Fn(usize) -> [u32; N]`.)
fn put_lanes(text: &[u8], raw: &[u32], out: &mut [u32])
    requires { (length raw.now / 4 ≤ 16384) × (length raw.now / 4 * 4 ≤ length out.old) }
    ensures { out.new ≡ written (raw_lane_content text.now raw.now) out.old }
{
    for i in 0..raw.len() / 4 {
        rows::put(out, i * 4, &lane_row(text, rows::row::<4>(raw, i)));
    }
}

// All refusals but 9.
#[tactic(auto, unfolding(model::specs::ReadingCalls::raw_lane_rules))]
fn lanes_verdict(text: &[u8], raw: &[u32]) -> Result<(), Refusal>
    ensures { refusal_of result ≡ first_broken (raw_lane_rules text.now raw.now) }
{
    if !raw_sized(text, 4, raw.len()) {
        return Err(Refusal::BadSize);
    }
    if !rows_named(text, raw, 4, 2) {
        return Err(Refusal::BadWord);
    }
    Ok(())
}

// Reads lanes: for each raw row, predecessor id and successor id, a flag and number each. Answers how many.
pub fn read_lanes(text: &[u8], raw: &[u32], out: &mut [u32]) -> Result<usize, Refusal>
    ensures { outcome (answer_of result) out.new ≡ read_lanes_call text.now raw.now out.old }
{
    lanes_verdict(text, raw)?;
    let n = raw.len() / 4;
    if out.len() < n * 4 {
        return Err(Refusal::OutputShort);
    }
    put_lanes(text, raw, out);
    Ok(n)
}
