// Roads and their sections.
ghost use Rattle.std.specs.Prelude.{◌≡◌, true, [], ◌∷◌, ◌+◌, ◌*◌, ◌/◌, ◌≤◌, ◌<◌, length, get_or};
ghost use Rattle.model.specs.Lists.{ascends, head_or, last_or};
ghost use Rattle.model.specs.Reversal.{mirror, mirrored};
ghost use Rattle.model.specs.Rows.{written};
ghost use Rattle.words.specs.Fields.{target_read};
ghost use Rattle.words.specs.Rows.{joined, spliced};
ghost use Rattle.reversal.specs.Turned.{Within, road_with, reversed_road, turned_sections};

use crate::marks::Turning;
use tables::lookup::RoadId;
use words::rows;
use words::target::Target;

// A road's row with those targets.
fn road_with(row: &[u32; 20], before: Option<Target>, after: Option<Target>) -> [u32; 20]
    ensures { result ≡ road_with row.now (target_read before) (target_read after) }
{
    let mut words = *row;
    rows::put(&mut words, 4, &Target::words(before));
    rows::put(&mut words, 11, &Target::words(after));
    words
}

// A road, reversed. (RoadId is a bare number in document 01: who reads its row asks that there is one.)
fn turned_road(turning: &Turning, road: RoadId) -> [u32; 20]
    requires { road.0 < length turning.now.roads.rows.now / 20 }
    ensures { result ≡ reversed_road turning.now.roads.text.now turning.now.roads.rows.now turning.now.marks.now
        road.0 }
{
    let row = rows::row::<20>(turning.roads.rows, road.0 as usize);
    let before = turning.turned(Target::at(row, 4));
    let after = turning.turned(Target::at(row, 11));
    if turning.is_marked(road) {
        road_with(row, after, before)
    } else {
        road_with(row, before, after)
    }
}

// Writes the roads, reversed.
pub fn put_roads(turning: &Turning, out: &mut [u32])
    requires { length turning.now.roads.rows.now ≤ length out.old }
    ensures { out.new ≡ written (joined (length turning.now.roads.rows.now / 20)
        (reversed_road turning.now.roads.text.now turning.now.roads.rows.now turning.now.marks.now)) out.old }
{
    for road in 0..turning.roads.rows.len() / 20 {
        rows::put(out, road * 20, &turned_road(turning, RoadId(road as u32)));
    }
}

// The first and the last number of a part; 0 where it has none, as the definitions of both say.
pub fn ends_of(part: &[u32]) -> [u32; 2]
    ensures { result ≡ head_or 0 part.now ∷ last_or 0 part.now ∷ [] }
{
    let first = part.first().copied().unwrap_or(0);
    let last = part.last().copied().unwrap_or(0);
    [first, last]
}

// A section number of a road whose sections are these, counted from the other end.
#[tactic(auto, unfolding(model::specs::Reversal::mirror))]
pub fn mirror_of(part: &[u32], s: u32) -> u32
    requires { Within part.now s }
    ensures { result ≡ mirror part.now s }
{
    let [first, last] = ends_of(part);
    last - s + first
}

// Writes the numbers of a part from word `at` on, mirrored.
fn put_mirrored(part: &[u32], at: usize, out: &mut [u32])
    requires { (at + length part.now ≤ length out.old) × (ascends part.now ≡ true) }
    ensures { out.new ≡ spliced at (mirrored part.now) out.old }
{
    for (k, &s) in part.iter().rev().enumerate() {
        out[at + k] = mirror_of(part, s);
    }
}

// Writes the sections of a road, reversed, in their place.
fn put_numbers(turning: &Turning, road: RoadId, out: &mut [u32])
    requires room { length turning.now.sections.sections.now ≤ length out.old }
    requires road_in_bounds { road.0 < length turning.now.roads.rows.now / 20 }
    ensures { out.new ≡ spliced (get_or turning.now.roads.rows.now (road.0 * 20 + 18) 0)
        (turned_sections turning.now.roads.rows.now turning.now.sections.sections.now turning.now.marks.now road.0)
        out.old }
{
    let part = turning.numbers(road);
    let at = rows::word(turning.roads.rows, road.0 as usize * 20 + 18);
    if turning.is_marked(road) {
        put_mirrored(part, at, out);
    } else {
        rows::put(out, at, part);
    }
}

// Writes the sections of the roads, reversed.
pub fn put_sections(turning: &Turning, out: &mut [u32])
    requires { length turning.now.sections.sections.now ≤ length out.old }
    ensures { out.new ≡ written (joined (length turning.now.roads.rows.now / 20)
        (turned_sections turning.now.roads.rows.now turning.now.sections.sections.now turning.now.marks.now)) out.old }
{
    for road in 0..turning.roads.rows.len() / 20 {
        put_numbers(turning, RoadId(road as u32), out);
    }
}
