// The rows of a table by name, by identity, by place: the table, and its rows in hash chains.
ghost use Rattle.std.specs.Prelude.{◌≡◌, true, Bool, ℕ, ◌&&◌, ◌+◌, ◌*◌, ◌/◌, ◌≤◌, ◌<◌, length, get_or};
ghost use Rattle.model.specs.Tables.{kind_of};
ghost use Rattle.words.specs.Rows.{any, last_of, name_at};
ghost use Rattle.words.specs.Chain.{Chained, Decides, Empty, stored};
ghost use Rattle.words.specs.Keys.{bears, name_hash, name_before, is_id, id_hash, id_before};
ghost use Rattle.words.specs.Keys.{is_key, key_hash, lane_hash, key_before};
ghost use Rattle.words.specs.Keys.{is_kind, is_kind_of};
ghost use Rattle.words.specs.Fields.{junction_kind};
ghost use Rattle.words.specs.Name.{place_of};

use crate::chain::{BUCKETS, Chain};
use crate::kinds::JunctionKind;
use crate::name::Name;

// The name at word K of row r of W words.
fn name_of<const W: usize, const K: usize>(rows: &[u32], r: usize) -> Name
    requires { (K + 1 < W) × (r < length rows.now / W) }
    ensures { place_of result ≡ name_at W K rows.now r }
{
    Name::at(rows, r * W + K)
}

// Whether row r of W words bears the name at word K.
#[tactic(auto, unfolding(crate::specs::Keys::bears))]
fn bears<const W: usize, const K: usize>(text: &[u8], rows: &[u32], name: Name, r: usize) -> bool
    requires { (K + 1 < W) × (r < length rows.now / W) }
    ensures { result ≡ bears text.now W K rows.now (place_of name) r }
{
    name_of::<W, K>(rows, r).same(name, text)
}

// The rows of W words of a table by the name that each begins with.
#[derive(Clone, Copy)]
pub struct ByName<'a, const W: usize> {
    pub text: &'a [u8],
    pub rows: &'a [u32],
    chain: &'a Chain,
    ghost wide: { (1 < W) × (W ≤ 20) },
    ghost few: { length rows.now / W ≤ 16384 },
    ghost chained: { Chained (name_hash text.now W 0 rows.now) (length rows.now / W) chain.now.heads chain.now.next },
}

impl<'a, const W: usize> ByName<'a, W> {
    // A table whose rows are linked.
    pub fn over(text: &'a [u8], rows: &'a [u32], chain: &'a Chain) -> Self
        requires few { (1 < W) × (W ≤ 20) × (length rows.now / W ≤ 16384) }
        requires chained { Chained (name_hash text.now W 0 rows.now) (length rows.now / W) chain.now.heads
            chain.now.next }
        ensures { (result.text.now ≡ text.now) × (result.rows.now ≡ rows.now) }
    {
        ByName { text, rows, chain }
    }

    // The last row that bears the name and passes the test.
    pub fn find_if<F: Fn(usize) -> bool>(&self, name: Name, test: F) -> Option<usize>
        requires { (r : ℕ) → r < length self.now.rows.now / W → F.pre test r }
        ensures { (p : ℕ → Bool) → Decides (F.post test) p (length self.now.rows.now / W) → stored result
            ≡ last_of (length self.now.rows.now / W)
            (λ r. p r && bears self.now.text.now W 0 self.now.rows.now (place_of name) r) }
    {
        let (text, rows) = (self.text, self.rows);
        self.chain.find(
            rows.len() / W,
            name.bucket(text),
            |r| -> bool
                requires { (r < length rows.now / W) × (1 < W) × F.pre test r }
                ensures { (t : Bool) × F.post test r t
                    × (result ≡ (t && bears text.entry.now W 0 rows.entry.now (place_of name) r)) }
            { test(r) && bears::<W, 0>(text, rows, name, r) },
        )
    }

    // The last row that bears the name.
    pub fn find(&self, name: Name) -> Option<usize>
        ensures { stored result ≡ last_of (length self.now.rows.now / W)
            (bears self.now.text.now W 0 self.now.rows.now (place_of name)) }
    {
        self.find_if(name, |_| true)
    }
}

impl ByName<'_, 5> {
    // Whether a junction of the kind bears the name.
    pub fn has_kind(&self, name: Name, kind: JunctionKind) -> bool
        ensures { result ≡ any (length self.now.rows.now / 5)
            (is_kind_of (junction_kind kind) self.now.text.now self.now.rows.now (place_of name)) }
    {
        let rows = self.rows;
        self.find_if(
            name,
            |q| -> bool
                requires { q < length rows.now / 5 }
                ensures { result ≡ is_kind (junction_kind kind) (kind_of (get_or rows.entry.now (q * 5 + 2) 0)) }
            { JunctionKind::at(rows, q) == kind },
        )
        .is_some()
    }
}

// Links every row of W words by the name at its word K, and returns whether two bear one name.
#[tactic(auto, unfolding(crate::specs::Keys::name_hash))]
pub fn link_names<const W: usize, const K: usize>(
    chain: &mut Chain,
    text: &[u8],
    rows: &[u32],
) -> bool
    requires few { (K + 1 < W) × (W ≤ 20) × (length rows.now / W ≤ 16384) }
    requires empty { Empty chain.old.heads chain.old.next }
    ensures value { result ≡ any (length rows.now / W) (name_before text.now W K rows.now) }
    ensures chained { Chained (name_hash text.now W K rows.now) (length rows.now / W) chain.new.heads chain.new.next }
{
    chain.link_rows(
        rows.len() / W,
        |r| -> usize
            requires { (K + 1 < W) × (r < length rows.now / W) }
            ensures { (result ≡ name_hash text.entry.now W K rows.entry.now r) × (result < 16384) }
        { name_of::<W, K>(rows, r).bucket(text) },
        |q, r| -> bool
            requires { (K + 1 < W) × (q < r) × (r < length rows.now / W) }
            ensures { result ≡ bears text.entry.now W K rows.entry.now (name_at W K rows.entry.now r) q }
        { bears::<W, K>(text, rows, name_of::<W, K>(rows, r), q) },
    )
}

// The lanes by identity.
#[derive(Clone, Copy)]
pub struct ById<'a> {
    pub lanes: &'a [u32],
    chain: &'a Chain,
    ghost few: { length lanes.now / 10 ≤ 16384 },
    ghost chained: { Chained (id_hash lanes.now) (length lanes.now / 10) chain.now.heads chain.now.next },
}

impl<'a> ById<'a> {
    // Lanes that are linked.
    pub fn over(lanes: &'a [u32], chain: &'a Chain) -> Self
        requires few { length lanes.now / 10 ≤ 16384 }
        requires chained { Chained (id_hash lanes.now) (length lanes.now / 10) chain.now.heads chain.now.next }
        ensures { result.lanes.now ≡ lanes.now }
    {
        ById { lanes, chain }
    }

    // The last lane that bears the identity.
    pub fn find(&self, id: u32) -> Option<usize>
        ensures { stored result ≡ last_of (length self.now.lanes.now / 10) (is_id self.now.lanes.now id) }
    {
        self.chain
            .find(self.lanes.len() / 10, id as usize % BUCKETS, |r| {
                self.lanes[r * 10] == id
            })
    }
}

// Links every lane by identity, and returns whether two bear one.
pub fn link_ids(chain: &mut Chain, lanes: &[u32]) -> bool
    requires few { length lanes.now / 10 ≤ 16384 }
    requires empty { Empty chain.old.heads chain.old.next }
    ensures value { result ≡ any (length lanes.now / 10) (id_before lanes.now) }
    ensures chained { Chained (id_hash lanes.now) (length lanes.now / 10) chain.new.heads chain.new.next }
{
    chain.link_rows(
        lanes.len() / 10,
        |r| lanes[r * 10] as usize % BUCKETS,
        |q, r| lanes[q * 10] == lanes[r * 10],
    )
}

// The bucket of a place: a road's row plus 1, a section, a number.
#[tactic(auto, unfolding(crate::specs::Keys::key_hash))]
fn place_bucket(road: u32, section: u32, number: u32) -> usize
    ensures { (result ≡ key_hash road section number) × (result < 16384) }
{
    (road as usize * 1009 + section as usize * 61 + number as usize) % BUCKETS
}

// The lanes by place: road, section and number. `owner` has for each lane its road's row plus 1, as a chain's words.
#[derive(Clone, Copy)]
pub struct ByPlace<'a> {
    pub lanes: &'a [u32],
    pub owner: &'a [u32],
    chain: &'a Chain,
    ghost few: { length lanes.now / 10 ≤ 16384 },
    ghost owned: { length lanes.now / 10 ≤ length owner.now },
    ghost chained: { Chained (lane_hash lanes.now owner.now) (length lanes.now / 10) chain.now.heads chain.now.next },
}

impl<'a> ByPlace<'a> {
    // Lanes that are linked.
    pub fn over(lanes: &'a [u32], owner: &'a [u32], chain: &'a Chain) -> Self
        requires few { (length lanes.now / 10 ≤ 16384) × (length lanes.now / 10 ≤ length owner.now) }
        requires chained { Chained (lane_hash lanes.now owner.now) (length lanes.now / 10) chain.now.heads
            chain.now.next }
        ensures { (result.lanes.now ≡ lanes.now) × (result.owner.now ≡ owner.now) }
    {
        ByPlace {
            lanes,
            owner,
            chain,
        }
    }

    // The last lane of that road (row plus 1), section and number.
    pub fn find(&self, road: u32, section: u32, number: u32) -> Option<usize>
        ensures { stored result ≡ last_of (length self.now.lanes.now / 10)
            (is_key self.now.lanes.now self.now.owner.now road section number) }
    {
        let bucket = place_bucket(road, section, number);
        self.chain.find(self.lanes.len() / 10, bucket, |r| {
            self.owner[r] == road
                && self.lanes[r * 10 + 3] == section
                && self.lanes[r * 10 + 4] == number
        })
    }
}

// Links every lane by place, and returns whether two have one.
pub fn link_places(chain: &mut Chain, lanes: &[u32], owner: &[u32]) -> bool
    requires few { (length lanes.now / 10 ≤ 16384) × (length lanes.now / 10 ≤ length owner.now) }
    requires empty { Empty chain.old.heads chain.old.next }
    ensures value { result ≡ any (length lanes.now / 10) (key_before lanes.now owner.now) }
    ensures chained { Chained (lane_hash lanes.now owner.now) (length lanes.now / 10) chain.new.heads chain.new.next }
{
    chain.link_rows(
        lanes.len() / 10,
        |r| place_bucket(owner[r], lanes[r * 10 + 3], lanes[r * 10 + 4]),
        |q, r| {
            owner[q] == owner[r]
                && lanes[q * 10 + 3] == lanes[r * 10 + 3]
                && lanes[q * 10 + 4] == lanes[r * 10 + 4]
        },
    )
}
