// Targets: what a road is linked to at an end, as the call reads and writes them.
ghost use Rattle.std.specs.Prelude.{◌≡◌, ◌&&◌, ◌+◌, ◌*◌, ◌/◌, ◌≤◌, ◌<◌, leb, length, IfOk};
ghost use Rattle.model.specs.Calls.{outcome};
ghost use Rattle.model.specs.Lists.{every};
ghost use Rattle.model.specs.Rows.{table, written};
ghost use Rattle.model.specs.Rules.{first_broken};
ghost use Rattle.model.specs.Reading.{loose_target, read_target, row_at, target_warnings, target_warnings_at};
ghost use Rattle.model.specs.ReadingCalls.{raw_sized, raw_target_worded, two_to_a_road, target_rules};
ghost use Rattle.model.specs.ReadingCalls.{target_content, read_targets_call};
ghost use Rattle.tables.specs.Refusals.{refusal_of};
ghost use Rattle.words.specs.Fields.{target_read};
ghost use Rattle.reading.specs.Laid.{Warned, output};
ghost use Rattle.reading.specs.Outs.{laid};
ghost use Rattle.reading.specs.Read.{kept_in, kept_read};
ghost use Rattle.reading.specs.TargetAnswers.{answer_of, outputs};

use crate::attributes::{ContactPoint, attribute, contact_of, names_fit, reads};
use crate::laid::Laid;
use crate::lanes::raw_sized;
use crate::warning::Warning;
use tables::refusal::Refusal;
use words::name::Name;
use words::rows;
use words::target::Target;

// How many rows each output has.
#[derive(Clone, Copy, PartialEq, Eq, Debug)]
pub struct Rows {
    pub targets: usize,
    pub warnings: usize,
}

// 2: a raw target, of which the rule tells what each word may be.
#[tactic(auto, unfolding(model::specs::ReadingCalls::raw_target_worded))]
fn target_fits(text: &[u8], row: &[u32]) -> bool
    requires { 9 ≤ length row.now }
    ensures { result ≡ raw_target_worded text.now row.now }
{
    row[0] <= 1
        && names_fit(text, row, 1, 4)
        && (row[0] == 1
            || attribute(row, 1).is_none()
                && attribute(row, 3).is_none()
                && attribute(row, 5).is_none()
                && attribute(row, 7).is_none())
}

// 2: all raw targets.
fn targets_fit(text: &[u8], raw: &[u32]) -> bool
    ensures { result ≡ every (raw_target_worded text.now) (table 9 raw.now) }
{
    raw.chunks_exact(9).all(|row| target_fits(text, row))
}

// The elementId and the contactPoint of a raw target; none where it gives no target.
fn kept(text: &[u8], row: &[u32; 9]) -> Option<(Name, ContactPoint)>
    ensures { kept_read result ≡ kept_in text.now row.now }
{
    if !rows::flag(row, 0) {
        return None;
    }
    Some((attribute(row, 3)?, contact_of(text, attribute(row, 5))))
}

// The target of a raw row.
#[tactic(auto, unfolding(model::specs::Reading::read_target))]
fn read_target(text: &[u8], row: &[u32; 9]) -> Option<Target>
    ensures { target_read result ≡ read_target text.now row.now }
{
    let (name, point) = kept(text, row)?;
    Some(Target {
        is_junction: reads(text, b"junction", attribute(row, 1)),
        name,
        contact: point.is_end(),
        given: point.is_given(),
        along: attribute(row, 7).is_some(),
    })
}

// 1: the text, and a whole number of roads.
#[tactic(auto, unfolding(model::specs::ReadingCalls::two_to_a_road))]
fn sized(text: &[u8], raw: &[u32]) -> bool
    ensures { result ≡ (raw_sized text.now 9 (length raw.now) && two_to_a_road (length raw.now)) }
{
    raw_sized(text, 9, raw.len()) && raw.len() / 9 % 2 == 0
}

// Raw targets that keep 1 and 2.
#[derive(Clone, Copy)]
struct RawTargets<'a> {
    text: &'a [u8],
    rows: &'a [u32],
    ghost few: { length rows.now / 9 ≤ 16384 },
}

impl<'a> RawTargets<'a> {
    // The raw targets, if no refusal but 9 applies.
    fn admitted(text: &'a [u8], rows: &'a [u32]) -> Result<Self, Refusal>
        ensures refusal { refusal_of result ≡ first_broken (target_rules text.now rows.now) }
        ensures same { IfOk result (λ targets. (targets.text.now ≡ text.now) × (targets.rows.now ≡ rows.now)) }
    {
        if !sized(text, rows) {
            return Err(Refusal::BadSize);
        }
        if !targets_fit(text, rows) {
            return Err(Refusal::BadWord);
        }
        Ok(RawTargets { text, rows })
    }

    // How many there are.
    fn count(&self) -> usize
        ensures { (result ≡ length self.now.rows.now / 9) × (result ≤ 16384) }
    {
        self.rows.len() / 9
    }

    // Raw row i.
    fn row(&self, i: usize) -> &'a [u32; 9]
        requires { i < length self.now.rows.now / 9 }
        ensures { result.now ≡ row_at 9 self.now.rows.now i }
    {
        rows::row::<9>(self.rows, i)
    }

    // Writes all targets. (A loop of its own: see lanes.rt.)
    fn put_targets(&self, out: &mut [u32])
        requires { length self.now.rows.now / 9 * 7 ≤ length out.old }
        ensures { out.new ≡ written (target_content self.now.text.now self.now.rows.now).targets out.old }
    {
        for i in 0..self.count() {
            let target = read_target(self.text, self.row(i));
            rows::put(out, i * 7, &Target::words(target));
        }
    }

    // Whether the target of raw row i is kept, and its contactPoint spelled loosely.
    #[tactic(auto, unfolding(model::specs::Reading::loose_target, model::specs::Reading::read_target))]
    fn is_loose(&self, i: usize) -> bool
        requires { i < length self.now.rows.now / 9 }
        ensures { result ≡ loose_target self.now.text.now self.now.rows.now i }
    {
        kept(self.text, self.row(i)).is_some_and(|(_, point)| point.is_loose())
    }

    // Warning 4 for the target of raw row i, where it is such a one.
    fn warn_target(&self, i: usize, out: &mut Laid<4>)
        requires { (i < length self.now.rows.now / 9) × (out.old.rows ≤ 16384) }
        ensures warned { Warned (target_warnings_at self.now.text.now self.now.rows.now i) (laid out.old)
            (laid out.new) }
        ensures few { out.new.rows ≤ out.old.rows + 1 }
    {
        if self.is_loose(i) {
            out.put(&Warning::TargetLoose {
                road: (i / 2) as u32,
                end: (i % 2) as u32,
            }
            .row());
        }
    }

    // Warning 4 for each of these.
    fn warn_targets(&self, out: &mut Laid<4>)
        requires { out.old.rows ≡ 0 }
        ensures warned { Warned (target_warnings self.now.text.now self.now.rows.now) (laid out.old) (laid out.new) }
        ensures few { out.new.rows ≤ 16384 }
    {
        for i in 0..self.count() {
            self.warn_target(i, out);
        }
    }

    // Writes all warnings, where there is room for them. Answers how many there are.
    fn put_warnings(&self, out: &mut [u32]) -> usize
        ensures warned { Warned (target_warnings self.now.text.now self.now.rows.now) (output out.old 0)
            (output out.new result) }
        ensures few { result ≤ 16384 }
    {
        let mut warnings = Laid::over(out);
        self.warn_targets(&mut warnings);
        warnings.rows
    }

    // Whether the warnings fit an output of so many words. They are counted only where a warning for each target would
    // not.
    fn warnings_fit(&self, room: usize) -> bool
        ensures { result ≡ leb (length (target_content self.now.text.now self.now.rows.now).warnings) room }
    {
        self.count() * 4 <= room || self.put_warnings(&mut []) * 4 <= room
    }

    // Whether both outputs have room for their contents.
    fn fit(&self, targets: usize, warnings: usize) -> bool
        ensures { result ≡ (leb (length self.now.rows.now / 9 * 7) targets
            && leb (length (target_content self.now.text.now self.now.rows.now).warnings) warnings) }
    {
        self.count() * 7 <= targets && self.warnings_fit(warnings)
    }
}

// Reads targets, two to a road: for each raw row, element flag and elementType, elementId, contactPoint and elementS, a
// target's seven words; and the warnings of loosely spelled contact points.
pub fn read_targets(
    text: &[u8],
    raw: &[u32],
    targets_out: &mut [u32],
    warnings_out: &mut [u32],
) -> Result<Rows, Refusal>
    ensures { outcome (answer_of result) (outputs targets_out.new warnings_out.new)
        ≡ read_targets_call text.now raw.now (outputs targets_out.old warnings_out.old) }
{
    let targets = RawTargets::admitted(text, raw)?;
    if !targets.fit(targets_out.len(), warnings_out.len()) {
        return Err(Refusal::OutputShort);
    }
    targets.put_targets(targets_out);
    Ok(Rows {
        targets: targets.count(),
        warnings: targets.put_warnings(warnings_out),
    })
}
