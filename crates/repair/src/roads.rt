// The roads' rows after repair.
ghost use Rattle.std.specs.Prelude.{◌≡◌, ◌*◌, ◌/◌, ◌≤◌, ◌<◌, length};
ghost use Rattle.model.specs.Rows.{written};
ghost use Rattle.repair.specs.Along.{road_now_words, roads_now_words};

use crate::reads::Reads;
use crate::targets::Ends;
use tables::lookup::RoadId;
use words::rows;
use words::target::Target;

// A road's words.
fn road_row(reads: &Reads, ends: &Ends, road: RoadId) -> [u32; 20]
    requires { road.0 < length reads.now.map.roads.now / 20 }
    ensures { result ≡ road_now_words reads.now.map.roads.now reads.now.map.junctions.now ends.now.words road.0 }
{
    let roads = reads.map.roads;
    let a = road.0 as usize * 20;
    let predecessor = Target::words(ends.target(reads, road, false));
    let successor = Target::words(ends.target(reads, road, true));
    let mut row = [0; 20];
    rows::put(&mut row, 0, &roads[a..a + 4]);
    rows::put(&mut row, 4, &predecessor);
    rows::put(&mut row, 11, &successor);
    rows::put(&mut row, 18, &roads[a + 18..a + 20]);
    row
}

// Writes the roads.
pub fn put_roads(reads: &Reads, ends: &Ends, out: &mut [u32])
    requires { length reads.now.map.roads.now / 20 * 20 ≤ length out.old }
    ensures { out.new
        ≡ written (roads_now_words reads.now.map.roads.now reads.now.map.junctions.now ends.now.words) out.old }
{
    for road in 0..reads.map.roads.len() / 20 {
        let row = road_row(reads, ends, RoadId(road as u32));
        rows::put(out, road * 20, &row);
    }
}
