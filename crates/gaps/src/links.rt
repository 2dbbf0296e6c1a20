// The rows of the links: what is seen of each link, and its row written or counted.
ghost use Rattle.std.specs.Prelude.{◌≡◌, true, ◌+◌, ◌*◌, ◌/◌, ◌≤◌, ◌<◌, length, get_or};
ghost use Rattle.model.specs.Tables.{direction_of};
ghost use Rattle.gaps.specs.Links.{row_of, lists_right};

use crate::lists::Packed;
use geometry::gap::{Decision, Seen, Way};
use geometry::{edges, gap};
use tables::lookup;
use tables::lookup::LaneId;
use words::by_key::ById;
use words::kinds::direction;
use words::rows;

// How many words a row has.
pub const GAP_ROW: usize = 5;

// What the rows are made from: the lanes by identity, their edges, and the lists of successors.
#[derive(Clone, Copy)]
pub struct Links<'a> {
    lanes: ById<'a>,
    edges: &'a [f32],
    lists: Packed<'a>,
    ghost few: { length lanes.lanes.now / 10 ≤ 16384 },
    ghost even: { length edges.now ≡ 12 * (length lanes.lanes.now / 10) },
    ghost short: { length lists.ids.now ≤ 131072 },
    ghost right: { lists_right lanes.lanes.now lists.offsets.now lists.ids.now ≡ true },
}

impl<'a> Links<'a> {
    ghost use Rattle.gaps.specs.Lent.{lane_count, words_below, Made, Put};
    ghost use Rattle.geometry.specs.Edges.{ends_at};
    ghost use Rattle.model.specs.Calls.{gap_width};

    // Lanes with twelve edges each, and lists that are right.
    pub fn over(lanes: ById<'a>, edges: &'a [f32], lists: Packed<'a>) -> Self
        requires few { (length lanes.lanes.now / 10 ≤ 16384) × (length lists.ids.now ≤ 131072) }
        requires even { length edges.now ≡ 12 * (length lanes.lanes.now / 10) }
        requires right { lists_right lanes.lanes.now lists.offsets.now lists.ids.now ≡ true }
        ensures { Made result lanes.entry.lanes.now edges.now lists.entry.offsets.now lists.entry.ids.now }
    {
        Links {
            lanes,
            edges,
            lists,
        }
    }

    // How many lanes there are.
    fn count(&self) -> usize
        ensures { result ≡ lane_count self.now }
    {
        self.lanes.lanes.len() / 10
    }

    // A lane's ends, and which way its traffic runs.
    #[inline(always)]
    fn way(&self, row: usize) -> Way
        requires { row < lane_count self.now }
        ensures ends { result.ends ≡ ends_at self.now.edges.now row }
        ensures direction { result.direction ≡ direction_of (get_or self.now.lanes.lanes.now (row * 10 + 5) 0) }
    {
        Way {
            ends: edges::ends_at(self.edges, row),
            direction: direction(self.lanes.lanes, row),
        }
    }

    // The lane in a row.
    fn lane(&self, row: usize) -> Lane<'a>
        requires { row < lane_count self.now }
        ensures { (result.links ≡ self.now) × (result.row ≡ row) }
    {
        Lane { links: *self, row }
    }

    // How many words the rows have at most: every link has one.
    pub fn most(&self) -> usize
        ensures { result ≡ gap_width * length self.now.lists.ids.now }
    {
        GAP_ROW * self.lists.ids.len()
    }

    // How many words the rows of all links have.
    pub fn len(&self) -> usize
        ensures { result ≡ length (words_below self.now (lane_count self.now)) }
    {
        let mut words = 0;
        for row in 0..self.count() {
            words += self.lane(row).len();
        }
        words
    }

    // Puts the rows of all links at the front of an output, and returns how many words they have.
    pub fn put(&self, out: &mut [u32]) -> usize
        requires { length (words_below self.now (lane_count self.now)) ≤ length out.old }
        ensures { Put (words_below self.now (lane_count self.now)) out.old out.new result }
    {
        let mut at = 0;
        for row in 0..self.count() {
            at += self.lane(row).put(&mut out[at..]);
        }
        at
    }
}

// A lane whose links are seen.
#[derive(Clone, Copy)]
struct Lane<'a> {
    links: Links<'a>,
    row: usize,
    ghost there: { row < length links.lanes.lanes.now / 10 },
}

impl<'a> Lane<'a> {
    ghost use Rattle.gaps.specs.Lent.{lane_count, Gives, link_words, next_ids, words_at, Put};
    ghost use Rattle.gaps.specs.Links.{Numbers, seen_at, is_borne};

    // The decision for its link to the lane in row `next`, and where the two come closest.
    #[inline(always)]
    fn seen(&self, next: usize) -> Seen
        requires { next < lane_count self.now.links }
        ensures { (result ≡ seen_at self.now.links.lanes.lanes.now self.now.links.edges.now self.now.row next)
            × Numbers result }
    {
        gap::link_gap(self.links.way(self.row), self.links.way(next))
    }

    // The row of such a link; none where the gap is passed.
    #[inline(always)]
    fn row_of(&self, next: usize) -> Option<[u32; GAP_ROW]>
        requires { next < lane_count self.now.links }
        ensures { Gives result (row_of self.now.row next
            (seen_at self.now.links.lanes.lanes.now self.now.links.edges.now self.now.row next)) }
    {
        let seen = self.seen(next);
        match seen.decision {
            Decision::Passed => None,
            Decision::Wide(width) => Some([
                self.row as u32,
                next as u32,
                width.to_bits(),
                gap::place_bits(seen.u),
                gap::place_bits(seen.v),
            ]),
        }
    }

    // The row of a link to the lane of an identity.
    #[inline(always)]
    fn row_to(&self, id: LaneId) -> Option<[u32; GAP_ROW]>
        requires { is_borne self.now.links.lanes.lanes.now id.0 }
        ensures { Gives result (link_words self.now.links self.now.row id.0) }
    {
        self.row_of(lookup::lane_row(&self.links.lanes, id)?)
    }

    // The identities of its successors.
    #[tactic(auto, using(crate::proofs::LinkLaws::list_lies))]
    fn next_ids(&self) -> &'a [u32]
        ensures { result.now ≡ next_ids self.now.links self.now.row }
    {
        let offsets = self.links.lists.offsets;
        &self.links.lists.ids[rows::word(offsets, self.row)..rows::word(offsets, self.row + 1)]
    }

    // How many words the rows of its links have.
    fn len(&self) -> usize
        ensures { result ≡ length (words_at self.now.links self.now.row) }
    {
        let mut words = 0;
        for &id in self.next_ids() {
            if self.row_to(LaneId(id)).is_some() {
                words += GAP_ROW;
            }
        }
        words
    }

    // Puts the rows of its links at the front of an output, and returns how many words they have.
    fn put(&self, out: &mut [u32]) -> usize
        requires { length (words_at self.now.links self.now.row) ≤ length out.old }
        ensures { Put (words_at self.now.links self.now.row) out.old out.new result }
    {
        let mut at = 0;
        for &id in self.next_ids() {
            if let Some(row) = self.row_to(LaneId(id)) {
                rows::put(out, at, &row);
                at += GAP_ROW;
            }
        }
        at
    }
}
