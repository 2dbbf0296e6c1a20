// The lists of successors, as offsets and packed identities, and 11.
ghost use Rattle.std.specs.Prelude.{◌≡◌};
ghost use Rattle.model.specs.Rules.{borne, climbs, lists_sized};
ghost use Rattle.model.specs.Tables.{lanes_in};
ghost use Rattle.gaps.specs.Links.{lists_right};

use rules::sizes;
use words::by_key::ById;

// The offsets begin at 0, do not fall, and end at `end`.
fn offsets_climb(offsets: &[u32], end: usize) -> bool
    ensures { result ≡ climbs end offsets.now }
{
    offsets.first() == Some(&0)
        && offsets.is_sorted()
        && offsets.last().is_some_and(|&last| last as usize == end)
}

// Whether a lane bears the identity.
fn is_borne(lanes: &ById, id: u32) -> bool
    ensures { result ≡ borne (lanes_in lanes.now.lanes.now) id }
{
    lanes.find(id).is_some()
}

// Packed lists: where each begins and the last one ends, and all their identities. (Succession has its own: neither of
// the two crates stands above the other.)
#[derive(Clone, Copy)]
pub struct Packed<'a> {
    pub offsets: &'a [u32],
    pub ids: &'a [u32],
}

impl<'a> Packed<'a> {
    // 1, of the lists
    #[tactic(auto, unfolding(model::specs::Rules::lists_sized))]
    pub fn sized(&self) -> bool
        ensures { result ≡ lists_sized self.now.offsets.now self.now.ids.now }
    {
        sizes::fits(self.offsets.len(), 1, 16385) && sizes::fits(self.ids.len(), 1, 131072)
    }

    // 11
    pub fn fit(&self, lanes: &ById) -> bool
        ensures { result ≡ lists_right lanes.now.lanes.now self.now.offsets.now self.now.ids.now }
    {
        self.offsets.len() == lanes.lanes.len() / 10 + 1
            && offsets_climb(self.offsets, self.ids.len())
            && self.ids.iter().all(|&id| is_borne(lanes, id))
    }
}
