// What rows are known by, and the lane of an identity.
ghost use Rattle.std.specs.Prelude.{◌≡◌, ◌/◌, length};
ghost use Rattle.words.specs.Chain.{stored};
ghost use Rattle.words.specs.Keys.{is_id};
ghost use Rattle.words.specs.Rows.{last_of};

use words::by_key::ById;

// A road, by its row.
#[derive(Clone, Copy, PartialEq, Eq, Debug)]
pub struct RoadId(pub u32);

// A lane, by its identity.
#[derive(Clone, Copy, PartialEq, Eq, Debug)]
pub struct LaneId(pub u32);

// The row of the lane of an identity: of the last that bears it.
#[inline(always)]
pub fn lane_row(lanes: &ById, id: LaneId) -> Option<usize>
    ensures { stored result ≡ last_of (length lanes.now.lanes.now / 10) (is_id lanes.now.lanes.now id.0) }
{
    lanes.find(id.0)
}
