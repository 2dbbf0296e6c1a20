// Through a junction: its connections from a road, and their pairs from a lane.
ghost use Rattle.std.specs.Prelude.{◌/◌, ◌<◌, length};
ghost use Rattle.succession.specs.ByRow.{Room, pairs_by_row, junction_by_row};
ghost use Rattle.succession.specs.Grown.{Grown};
ghost use Rattle.succession.specs.Meeting.{meeting_at};
ghost use Rattle.succession.specs.Read.{read_of};

use crate::entries::Run;
use crate::meeting;
use crate::walk::Walk;
use words::{chain, rows};

impl Walk<'_> {
    // Through the pairs of connection c that start at lane number k.
    fn through_pairs(&self, c: usize, k: u32, run: &mut Run)
        requires c_in_bounds { c < length self.now.map.connections.now / 7 }
        requires room { Room run.old.len (pairs_by_row (read_of self.now) c k) run.old.words.now }
        ensures { Grown (pairs_by_row (read_of self.now) c k) run.old run.new }
    {
        let connections = self.map.connections;
        let road = self.sides[c * 2 + 1];
        let at_end = rows::flag(connections, c * 7 + 4);
        let section = self.end_section(chain::row_in(road), at_end);
        let first = rows::word(connections, c * 7 + 5);
        let end = first + rows::word(connections, c * 7 + 6);
        for p in first..end {
            self.through_pair(road, section, at_end, k, p, run);
        }
    }

    // Takes in what connection c leads lane number k of that road to, if it is one of junction j's.
    fn through_connection(&self, j: usize, road: u32, c: usize, k: u32, run: &mut Run)
        requires in_bounds { (j < length self.now.map.junctions.now / 5)
            × (c < length self.now.map.connections.now / 7) }
        requires room { Room run.old.len (meeting_at (read_of self.now) j road k c) run.old.words.now }
        ensures { Grown (meeting_at (read_of self.now) j road k c) run.old run.new }
    {
        if meeting::comes_from(self.map.junctions, self.sides, j, road, c) {
            self.through_pairs(c, k, run);
        }
    }

    // Through the connections of junction j that come in from the road, as their chain has them.
    pub fn through_junction(&self, j: usize, road: u32, k: u32, run: &mut Run)
        requires in_bounds { j < length self.now.map.junctions.now / 5 }
        requires room { Room run.old.len (junction_by_row (read_of self.now) j road k) run.old.words.now }
        ensures { Grown (junction_by_row (read_of self.now) j road k) run.old run.new }
    {
        let count = self.map.connections.len() / 7;
        let mut at = self.meeting.head(meeting::bucket(j + 1, road));
        while let Some(i) = at {
            self.through_connection(j, road, count - 1 - i, k, run);
            at = self.meeting.after(i);
        }
    }
}
