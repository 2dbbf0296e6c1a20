// The lanes that a lane finds by its own links.
ghost use Rattle.std.specs.Prelude.{◌≡◌, true, false, ◌+◌, ◌*◌, ◌/◌, ◌≤◌, ◌<◌, length, get_or};
ghost use Rattle.model.specs.Lists.{pick};
ghost use Rattle.model.specs.Tables.{flag};
ghost use Rattle.words.specs.Chain.{stored};
ghost use Rattle.words.specs.Fields.{number_read};
ghost use Rattle.succession.specs.ByRow.{Resolved, Room, cross_by_row, exits_by_row, link_by_row, own_exits_by_row};
ghost use Rattle.succession.specs.Grown.{Grown};
ghost use Rattle.succession.specs.Read.{read_of};

use crate::entries::Run;
use crate::walk::Walk;
use geometry::gap::Direction;
use tables::lookup::RoadId;
use words::target::Target;
use words::{chain, kinds, rows};

impl Walk<'_> {
    // Past the end of lane l's road at the target from word `at` on, which names the row `to`.
    #[tactic(auto, unfolding(crate::specs::ByRow::cross_by_row, crate::specs::ByRow::lookup_by_row))]
    fn cross(&self, l: usize, at: usize, to: Option<usize>, link: Option<u32>, run: &mut Run)
        requires in_bounds { (l < length self.now.places.lanes.now / 10) × (at + 6 < length self.now.map.roads.now)
            × (flag (get_or self.now.map.roads.now (at + 1) 0) ≡ true
            → stored to ≤ length self.now.map.junctions.now / 5)
            × (flag (get_or self.now.map.roads.now (at + 1) 0) ≡ false
            → stored to ≤ length self.now.map.roads.now / 20) }
        requires room { Room run.old.len (cross_by_row (read_of self.now) l at (stored to) (number_read link))
            run.old.words.now }
        ensures { Grown (cross_by_row (read_of self.now) l at (stored to) (number_read link)) run.old run.new }
    {
        let Some(target) = Target::at(self.map.roads, at) else {
            return;
        };
        let lanes = self.places.lanes;
        if target.is_junction {
            if let Some(j) = to {
                self.through_junction(j, self.places.owner[l], lanes[l * 10 + 4], run);
            }
        } else if let Some(number) = link {
            let section = self.end_section(to, target.contact);
            self.enter(chain::word_of(to), section, number, target.contact, run);
        }
    }

    // Past the end of road r from its lane l, or past its start if not forward.
    fn leave(&self, l: usize, r: RoadId, link: Option<u32>, forward: bool, run: &mut Run)
        requires in_bounds { (l < length self.now.places.lanes.now / 10)
            × (r.0 < length self.now.map.roads.now / 20) }
        requires room { Room run.old.len (cross_by_row (read_of self.now) l
            (pick forward (r.0 * 20 + 4) (r.0 * 20 + 11))
            (pick forward (get_or self.now.ends.now (r.0 * 2) 0) (get_or self.now.ends.now (r.0 * 2 + 1) 0))
            (number_read link)) run.old.words.now }
        ensures { Grown (cross_by_row (read_of self.now) l (pick forward (r.0 * 20 + 4) (r.0 * 20 + 11))
            (pick forward (get_or self.now.ends.now (r.0 * 2) 0) (get_or self.now.ends.now (r.0 * 2 + 1) 0))
            (number_read link)) run.old run.new }
    {
        let row = r.0 as usize;
        if forward {
            let to = chain::row_in(self.ends[row * 2 + 1]);
            self.cross(l, row * 20 + 11, to, link, run);
        } else {
            let to = chain::row_in(self.ends[row * 2]);
            self.cross(l, row * 20 + 4, to, link, run);
        }
    }

    // Lane l's link at its road's end, or at its start if not forward.
    fn link_at(&self, l: usize, forward: bool) -> Option<u32>
        requires { l < length self.now.places.lanes.now / 10 }
        ensures { number_read result ≡ link_by_row self.now.places.lanes.now l forward }
    {
        let lanes = self.places.lanes;
        if forward {
            rows::link(lanes, l * 10 + 6)
        } else {
            rows::link(lanes, l * 10 + 8)
        }
    }

    // The lanes reached by driving off lane l at its road's end, or at its start if not forward.
    fn exits(&self, l: usize, forward: bool, run: &mut Run)
        requires l_in_bounds { l < length self.now.places.lanes.now / 10 }
        requires room { Room run.old.len (exits_by_row (read_of self.now) l forward) run.old.words.now }
        ensures { Grown (exits_by_row (read_of self.now) l forward) run.old run.new }
    {
        let r = RoadId(self.places.owner[l] - 1);
        let link = self.link_at(l, forward);
        match self.next_section(r, self.places.lanes[l * 10 + 3], forward) {
            Some(s) => self.within_road(l, s, link, !forward, run),
            None => self.leave(l, r, link, forward, run),
        }
    }

    // The lanes reached by driving off lane l: a two-way lane at both ends.
    #[tactic(auto, unfolding(crate::specs::ByRow::own_exits_by_row))]
    fn own_exits(&self, l: usize, run: &mut Run)
        requires l_in_bounds { l < length self.now.places.lanes.now / 10 }
        requires room { Room run.old.len (own_exits_by_row (read_of self.now) l) run.old.words.now }
        ensures { Grown (own_exits_by_row (read_of self.now) l) run.old run.new }
    {
        match kinds::direction(self.places.lanes, l) {
            Direction::Forward => self.exits(l, true, run),
            Direction::Backward => self.exits(l, false, run),
            Direction::Both => {
                self.exits(l, true, run);
                self.exits(l, false, run);
            }
        }
    }

    // The successors that lane l finds by its own links, from the first word on. Returns how many.
    #[tactic(auto, using(crate::proofs::Turns::room_own), unfolding(crate::specs::ByRow::successors_by_row))]
    pub fn successors_of(&self, l: usize, words: &mut [u32]) -> usize
        requires { (l < length self.now.places.lanes.now / 10) × (length (exits_by_row (read_of self.now) l true)
            + length (exits_by_row (read_of self.now) l false) ≤ length words.old) }
        ensures { Resolved (read_of self.now) l words.old words.new result }
    {
        let mut run = Run {
            words,
            len: 0,
            both: kinds::direction(self.places.lanes, l) == Direction::Both,
        };
        self.own_exits(l, &mut run);
        run.len
    }
}
