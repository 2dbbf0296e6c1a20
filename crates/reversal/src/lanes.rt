// Lanes and their edges.
ghost use Rattle.std.specs.Prelude.{◌≡◌, cond, ℕ, suc, ◌+◌, ◌*◌, ◌/◌, ◌≤◌, ◌<◌, length, get_or};
ghost use Rattle.geometry.specs.Edges.{ends_at};
ghost use Rattle.geometry.specs.Gap.{swapped};
ghost use Rattle.model.specs.Lists.{map_o};
ghost use Rattle.model.specs.Reversal.{mirror, reverse_direction, signed};
ghost use Rattle.model.specs.Rows.{written};
ghost use Rattle.model.specs.Tables.{lane_in, lane_row};
ghost use Rattle.words.specs.Fields.{number_read};
ghost use Rattle.words.specs.Rows.{joined};
ghost use Rattle.reversal.specs.Turned.{Kept, Within, floats_of, reversed_on, lane_read, target_marked, turned_edges};
ghost use Rattle.reversal.specs.Turned.{reversed_lane};

use crate::marks::Turning;
use crate::{marks, roads};
use geometry::edges;
use geometry::gap::Direction;
use geometry::segment::Point;
use tables::lookup::RoadId;
use words::name::Name;
use words::target::Target;
use words::{kinds, rows};

// The lanes, with what turns their roads. `owner` has for each lane its road's row plus 1: an array that the checks of
// the tables leave, since there is no heap for a Vec of both.
#[derive(Clone, Copy)]
pub struct OwnedLanes<'a> {
    pub turning: Turning<'a>,
    pub lanes: &'a [u32],
    pub owner: &'a [u32],
    ghost owned: { length lanes.now / 10 ≤ length owner.now },
    ghost kept: { (i : ℕ) → i < length lanes.now / 10
        → Kept turning.roads.rows.now turning.sections.sections.now lanes.now owner.now i },
}

impl<'a> OwnedLanes<'a> {
    // Lanes whose roads are known, and list their sections.
    pub fn over(turning: Turning<'a>, lanes: &'a [u32], owner: &'a [u32]) -> Self
        requires owned { length lanes.now / 10 ≤ length owner.now }
        requires kept { (i : ℕ) → i < length lanes.now / 10
            → Kept turning.roads.rows.now turning.sections.sections.now lanes.now owner.now i }
        ensures roads { (result.turning.roads.text.now ≡ turning.entry.roads.text.now)
            × (result.turning.roads.rows.now ≡ turning.entry.roads.rows.now) }
        ensures turning { (result.turning.sections.sections.now ≡ turning.entry.sections.sections.now)
            × (result.turning.marks.now ≡ turning.entry.marks.now) }
        ensures lanes { (result.lanes.now ≡ lanes.now) × (result.owner.now ≡ owner.now) }
    {
        OwnedLanes {
            turning,
            lanes,
            owner,
        }
    }

    // Lane i's road.
    fn road(&self, i: usize) -> RoadId
        requires { i < length self.now.lanes.now / 10 }
        ensures { suc result.0 ≡ get_or self.now.owner.now i 0 }
    {
        RoadId(self.owner[i] - 1)
    }
}

// A lane: its row's fields.
#[derive(Clone, Copy)]
struct Lane {
    identity: u32,
    road: Name,
    section: u32,
    number: u32,
    direction: Direction,
    successor: Option<u32>,
    predecessor: Option<u32>,
}

impl Lane {
    // The lane of that row.
    #[tactic(auto, unfolding(model::specs::Tables::lane_in))]
    fn at(row: &[u32; 10]) -> Lane
        ensures { lane_read result ≡ lane_in row.now }
    {
        Lane {
            identity: row[0],
            road: Name::at(row, 1),
            section: row[3],
            number: row[4],
            direction: kinds::direction(row, 0),
            successor: rows::link(row, 6),
            predecessor: rows::link(row, 8),
        }
    }

    // Its ten words.
    fn words(self) -> [u32; 10]
        ensures { result ≡ lane_row (lane_read self) }
    {
        let [onward, onto] = rows::link_words(self.successor);
        let [back, backto] = rows::link_words(self.predecessor);
        [
            self.identity,
            self.road.start,
            self.road.size,
            self.section,
            self.number,
            kinds::direction_word(self.direction),
            onward,
            onto,
            back,
            backto,
        ]
    }
}

// A direction: forward and backward swap if the mark is set. (No method: the type is geometry's.)
fn turned_way(mark: bool, way: Direction) -> Direction
    ensures { result ≡ reverse_direction mark way }
{
    match (mark, way) {
        (true, Direction::Forward) => Direction::Backward,
        (true, Direction::Backward) => Direction::Forward,
        _ => way,
    }
}

// Whether a link changes sign: by the road that the target from word `at` of the roads on names where the section is
// the last that way, and else by its own road.
#[tactic(auto, unfolding(crate::specs::Turned::target_marked))]
fn sign(turning: &Turning, at: usize, last: bool, mark: bool) -> bool
    requires { at + 7 ≤ length turning.now.roads.rows.now }
    ensures { result ≡ cond last
        (target_marked turning.now.roads.text.now turning.now.roads.rows.now turning.now.marks.now at) mark }
{
    if last {
        turning.to_marked(Target::at(turning.roads.rows, at))
    } else {
        mark
    }
}

// A lane's link: its number changes sign as `sign` says.
fn turned_link(
    turning: &Turning,
    link: Option<u32>,
    at: usize,
    last: bool,
    mark: bool,
) -> Option<u32>
    requires { at + 7 ≤ length turning.now.roads.rows.now }
    ensures { number_read result ≡ map_o (signed (cond last
        (target_marked turning.now.roads.text.now turning.now.roads.rows.now turning.now.marks.now at) mark))
        (number_read link) }
{
    let number = link?;
    Some(marks::signed_by(sign(turning, at, last, mark), number))
}

// A section's number, counted from the other end of its road's if the mark is set. (A struct of a part and a number in
// it would be no plainer: it would be built for each call and taken apart in it.)
fn turned_section(part: &[u32], mark: bool, s: u32) -> u32
    requires { Within part.now s }
    ensures { result ≡ cond mark (mirror part.now s) s }
{
    if mark { roads::mirror_of(part, s) } else { s }
}

// A lane, reversed, on a road that has these sections.
fn lane_on(turning: &Turning, lane: Lane, road: RoadId, mark: bool, part: &[u32]) -> Lane
    requires road_in_bounds { road.0 < length turning.now.roads.rows.now / 20 }
    requires within { Within part.now lane.section }
    ensures { lane_read result ≡ reversed_on turning.now.roads.text.now turning.now.roads.rows.now turning.now.marks.now
        (lane_read lane) road.0 mark part.now }
{
    let at = road.0 as usize * 20;
    let [first, last] = roads::ends_of(part);
    let onward = turned_link(turning, lane.successor, at + 11, lane.section == last, mark);
    let back = turned_link(
        turning,
        lane.predecessor,
        at + 4,
        lane.section == first,
        mark,
    );
    let (successor, predecessor) = if mark { (back, onward) } else { (onward, back) };
    Lane {
        section: turned_section(part, mark, lane.section),
        number: marks::signed_by(mark, lane.number),
        direction: turned_way(mark, lane.direction),
        successor,
        predecessor,
        ..lane
    }
}

// Lane i, reversed.
fn turned_lane(owned: &OwnedLanes, i: usize) -> [u32; 10]
    requires { i < length owned.now.lanes.now / 10 }
    ensures { result ≡ reversed_lane owned.now.turning.roads.text.now owned.now.turning.roads.rows.now
        owned.now.turning.sections.sections.now owned.now.turning.marks.now owned.now.lanes.now owned.now.owner.now i }
{
    let turning = &owned.turning;
    let road = owned.road(i);
    let mark = turning.is_marked(road);
    let lane = Lane::at(rows::row(owned.lanes, i));
    lane_on(turning, lane, road, mark, turning.numbers(road)).words()
}

// Writes the lanes, reversed.
pub fn put_lanes(owned: &OwnedLanes, out: &mut [u32])
    requires { length owned.now.lanes.now ≤ length out.old }
    ensures { out.new ≡ written (joined (length owned.now.lanes.now / 10)
        (reversed_lane owned.now.turning.roads.text.now owned.now.turning.roads.rows.now
        owned.now.turning.sections.sections.now owned.now.turning.marks.now owned.now.lanes.now
        owned.now.owner.now)) out.old }
{
    for i in 0..owned.lanes.len() / 10 {
        rows::put(out, i * 10, &turned_lane(owned, i));
    }
}

// The twelve floats of two ends. (No `From`: neither type is this crate's.)
#[tactic(auto, unfolding(crate::specs::Turned::floats_of))]
fn floats(ends: [[Point; 2]; 2]) -> [f32; 12]
    ensures { result ≡ floats_of ends }
{
    let [start, end] = ends;
    let [a, b] = start;
    let [c, d] = end;
    [a.x, a.y, a.z, b.x, b.y, b.z, c.x, c.y, c.z, d.x, d.y, d.z]
}

// The ends of the lane in row i, which swap if the mark is set.
fn turned_ends(edges: &[f32], i: usize, mark: bool) -> [[Point; 2]; 2]
    requires { i * 12 + 12 ≤ length edges.now }
    ensures { result ≡ cond mark (swapped (ends_at edges.now i)) (ends_at edges.now i) }
{
    let ends = edges::ends_at(edges, i);
    if mark { edges::turned(ends) } else { ends }
}

// The edges of lane i, reversed.
fn edges_of(owned: &OwnedLanes, edges: &[f32], i: usize) -> [f32; 12]
    requires { (i < length owned.now.lanes.now / 10) × (i * 12 + 12 ≤ length edges.now) }
    ensures { result ≡ turned_edges owned.now.owner.now owned.now.turning.marks.now edges.now i }
{
    let mark = owned.turning.is_marked(owned.road(i));
    floats(turned_ends(edges, i, mark))
}

// Writes the lanes' edges, reversed.
pub fn put_edges(owned: &OwnedLanes, edges: &[f32], out: &mut [f32])
    requires even { length edges.now ≡ 12 * (length owned.now.lanes.now / 10) }
    requires room { length edges.now ≤ length out.old }
    ensures { out.new ≡ written (joined (length edges.now / 12)
        (turned_edges owned.now.owner.now owned.now.turning.marks.now edges.now)) out.old }
{
    for i in 0..edges.len() / 12 {
        rows::put(out, i * 12, &edges_of(owned, edges, i));
    }
}
