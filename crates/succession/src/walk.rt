// What the walk over the rows reads.
ghost use Rattle.succession.specs.ByRow.{Sound, rows_of};
ghost use Rattle.succession.specs.Meeting.{Meeting};

use words::by_key::ByPlace;
use words::chain::Chain;
use words::map::MapTables;

// The tables, each lane's road and the lanes by place, the rows that connections and targets name, and the connections
// by the junction and the road that they lead on from.
#[derive(Clone, Copy)]
pub struct Walk<'a> {
    pub map: MapTables<'a>,
    pub places: ByPlace<'a>,
    pub sides: &'a [u32],
    pub ends: &'a [u32],
    pub meeting: &'a Chain,
    ghost sound: { Sound (rows_of map.roads.now map.sections.now map.junctions.now map.connections.now map.pairs.now
        places.lanes.now places.owner.now sides.now ends.now) },
    ghost met: { Meeting map.junctions.now map.connections.now sides.now meeting.now.heads meeting.now.next },
}
