// A road's targets as repaired so far.
ghost use Rattle.std.specs.Prelude.{◌≡◌, Bool, ◌+◌, ◌*◌, ◌/◌, ◌<◌, length, set};
ghost use Rattle.model.specs.Repair.{names_junction, meets, meeting_end};
ghost use Rattle.model.specs.Rules.{same};
ghost use Rattle.model.specs.Tables.{Tables, bit};
ghost use Rattle.words.specs.Fields.{target_read};
ghost use Rattle.words.specs.Map.{map_read};
ghost use Rattle.repair.specs.Now.{end_read, target_now, junction_name, road_with};

use crate::junction::Junction;
use crate::reads::Reads;
use tables::lookup::RoadId;
use words::name::Name;
use words::target::Target;

// What became of the roads' ends: a word for each, at twice the road's row, plus 1 for its end: 0 as read, 1 made
// absent, k + 2 given junction row k (words of an array, since a call takes no heap).
#[derive(Drop)]
pub struct Ends {
    pub words: [u32; 32768],
}

// Whether a target names the junction.
pub fn names_junction(junction: &Junction, target: Option<Target>) -> bool
    ensures { let t : Tables = map_read junction.now.reads.map in
        result ≡ names_junction (same t) (junction_name t junction.now.row) (target_read target) }
{
    let map = &junction.reads.map;
    let name = Name::at(map.junctions, junction.row * 5);
    target.is_some_and(|target| target.is_junction && target.name.same(name, map.text))
}

impl Ends {
    // Makes a road's end absent, or leaves it as read.
    pub fn mark(&mut self, road: RoadId, at_end: bool, absent: bool)
        requires { road.0 < 16384 }
        ensures { self.new.words ≡ set self.old.words (road.0 * 2 + bit at_end) (bit absent) }
    {
        self.words[road.0 as usize * 2 + usize::from(at_end)] = u32::from(absent);
    }

    // Gives a road's end junction k.
    pub fn give(&mut self, road: RoadId, at_end: bool, k: usize)
        requires { (road.0 < 16384) × (k < 16384) }
        ensures { self.new.words ≡ set self.old.words (road.0 * 2 + bit at_end) (k + 2) }
    {
        self.words[road.0 as usize * 2 + usize::from(at_end)] = k as u32 + 2;
    }

    // A road's target at its start or its end.
    pub fn target(&self, reads: &Reads, road: RoadId, at_end: bool) -> Option<Target>
        requires { road.0 < length reads.now.map.roads.now / 20 }
        ensures { target_read result
            ≡ target_now reads.now.map.roads.now reads.now.map.junctions.now self.now.words road.0 at_end }
    {
        let r = road.0 as usize;
        let end = usize::from(at_end);
        match self.words[r * 2 + end] {
            0 => Target::at(reads.map.roads, r * 20 + 4 + end * 7),
            1 => None,
            word => {
                let name = (word as usize - 2) * 5;
                Some(Target {
                    is_junction: true,
                    name: Name {
                        start: reads.map.junctions.get(name).copied().unwrap_or(0),
                        size: reads.map.junctions.get(name + 1).copied().unwrap_or(0),
                    },
                    contact: at_end,
                    given: true,
                    along: false,
                })
            }
        }
    }

    // Whether a road names the junction at either end.
    #[tactic(auto, unfolding(model::specs::Repair::meets, crate::specs::Now::road_now))]
    pub fn meets(&self, junction: &Junction, road: RoadId) -> bool
        requires { road.0 < length junction.now.reads.map.roads.now / 20 }
        ensures { let t : Tables = map_read junction.now.reads.map in
            result ≡ meets (same t) (junction_name t junction.now.row) (road_with t self.now.words road.0) }
    {
        names_junction(junction, self.target(&junction.reads, road, false))
            || names_junction(junction, self.target(&junction.reads, road, true))
    }

    // The end at which a road names the junction: the successor end where both do.
    #[tactic(auto, unfolding(model::specs::Repair::meeting_end, crate::specs::Now::road_now))]
    pub fn meeting_end(&self, junction: &Junction, road: RoadId) -> Option<bool>
        requires { road.0 < length junction.now.reads.map.roads.now / 20 }
        ensures { let t : Tables = map_read junction.now.reads.map in
            end_read result
            ≡ meeting_end (same t) (junction_name t junction.now.row) (road_with t self.now.words road.0) }
    {
        if names_junction(junction, self.target(&junction.reads, road, true)) {
            return Some(true);
        }
        if names_junction(junction, self.target(&junction.reads, road, false)) {
            return Some(false);
        }
        None
    }
}
