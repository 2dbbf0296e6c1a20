// A lane found by road, section and number; one step to it, within a road or by a pair.
ghost use Rattle.std.specs.Prelude.{◌≡◌, ◌*◌, ◌/◌, ◌≤◌, ◌<◌, length};
ghost use Rattle.words.specs.Chain.{stored};
ghost use Rattle.words.specs.Fields.{number_read};
ghost use Rattle.succession.specs.ByRow.{lane_row_of, one_at, step_by_row, pair_entry, Room};
ghost use Rattle.succession.specs.Grown.{Grown};

use crate::entries::Run;
use crate::walk::Walk;

impl Walk<'_> {
    // The lane of that road (row plus 1), section and number.
    fn lookup(&self, road: u32, section: u32, number: u32) -> Option<usize>
        ensures { (stored result ≡ lane_row_of self.now.places.lanes.now self.now.places.owner.now road section number)
            × (stored result ≤ length self.now.places.lanes.now / 10) }
    {
        self.places.find(road, section, number)
    }

    // Takes in the lane of that road (row plus 1), section and number, entered at its road's end, or at its start.
    pub fn enter(&self, road: u32, section: u32, number: u32, at_end: bool, run: &mut Run)
        requires { Room run.old.len (one_at self.now.places.lanes.now (lane_row_of self.now.places.lanes.now
            self.now.places.owner.now road section number) at_end) run.old.words.now }
        ensures { Grown (one_at self.now.places.lanes.now (lane_row_of self.now.places.lanes.now
            self.now.places.owner.now road section number) at_end) run.old run.new }
    {
        let row = self.lookup(road, section, number);
        run.enter(self.places.lanes, row, at_end);
    }

    // Takes in what pair p leads lane number k to, in a section of a road (row plus 1).
    pub fn through_pair(
        &self,
        road: u32,
        section: u32,
        at_end: bool,
        k: u32,
        p: usize,
        run: &mut Run,
    )
        requires p_in_bounds { p < length self.now.map.pairs.now / 2 }
        requires room { Room run.old.len (pair_entry self.now.map.pairs.now self.now.places.lanes.now
            self.now.places.owner.now road section at_end k p) run.old.words.now }
        ensures { Grown (pair_entry self.now.map.pairs.now self.now.places.lanes.now
            self.now.places.owner.now road section at_end k p) run.old run.new }
    {
        let pairs = self.map.pairs;
        if pairs[p * 2] == k {
            self.enter(road, section, pairs[p * 2 + 1], at_end, run);
        }
    }

    // Takes in the lane that lane l's link leads to in section s of its road; nothing where there is no link.
    #[tactic(auto, unfolding(crate::specs::ByRow::step_by_row))]
    pub fn within_road(&self, l: usize, s: u32, link: Option<u32>, at_end: bool, run: &mut Run)
        requires l_in_bounds { l < length self.now.places.lanes.now / 10 }
        requires room { Room run.old.len (step_by_row self.now.places.lanes.now self.now.places.owner.now l s
            (number_read link) at_end) run.old.words.now }
        ensures { Grown (step_by_row self.now.places.lanes.now self.now.places.owner.now l s (number_read link) at_end)
            run.old run.new }
    {
        if let Some(number) = link {
            self.enter(self.places.owner[l], s, number, at_end, run);
        }
    }
}
