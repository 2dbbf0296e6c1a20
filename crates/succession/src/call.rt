// The whole call: checks, lists onward and lists before, exact counts, and only then the outputs.
ghost use Rattle.std.specs.Prelude.{◌≡◌, false, List, [], ◌∷◌, ℕ, ◌+◌, ◌/◌, ◌≤◌, ◌<◌, length, IfOk};
ghost use Rattle.model.specs.Calls.{list_lengths, list_writing, outcome, succession_call, succession_rules};
ghost use Rattle.model.specs.Calls.{written_or9};
ghost use Rattle.model.specs.Lookup.{list_part};
ghost use Rattle.model.specs.Rules.{first_broken, fits};
ghost use Rattle.words.specs.Keys.{id_before};
ghost use Rattle.words.specs.Map.{lanes_read};
ghost use Rattle.words.specs.Rows.{any};
ghost use Rattle.tables.specs.Refusals.{refusal_of};
ghost use Rattle.succession.specs.Packs.{AllRise, AsMany, Filled, listers_of, start_of};
ghost use Rattle.succession.specs.Found.{onward_of};
ghost use Rattle.succession.specs.Answers.{SameOutputs, answer_of, content_of, onward_at, outputs_of, own_list};

use crate::back::AllFound;
use crate::lists::Packed;
use crate::{converse, own};
use tables::refusal::Refusal;
use tables::verdict;
use tables::verdict::Links;
use words::by_key;
use words::by_key::ById;
use words::chain::Chain;
use words::map::MapTables;

// The outputs of the call.
#[derive(Drop)]
pub struct ListOutputs<'a> {
    pub successor_offsets: &'a mut [u32],
    pub successor_ids: &'a mut [u32],
    pub predecessor_offsets: &'a mut [u32],
    pub predecessor_ids: &'a mut [u32],
}

impl ListOutputs<'_> {
    // Whether there is room for so many offsets and identities, twice.
    #[tactic(auto, unfolding(model::specs::Calls::list_lengths))]
    fn fits(&self, starts: usize, total: usize) -> bool
        ensures { result ≡ fits (starts ∷ total ∷ starts ∷ total ∷ []) (list_lengths (outputs_of self.now)) }
    {
        starts <= self.successor_offsets.len()
            && total <= self.successor_ids.len()
            && starts <= self.predecessor_offsets.len()
            && total <= self.predecessor_ids.len()
    }
}

// How many words are written to each output.
#[derive(Clone, Copy, PartialEq, Eq, Debug)]
pub struct Counts {
    pub successor_offsets: usize,
    pub successor_ids: usize,
    pub predecessor_offsets: usize,
    pub predecessor_ids: usize,
}

// Refusals 1 to 8; where there is none, every lane's own list. A call of its own: its arrays are gone when it returns.
fn resolve_own(
    map: &MapTables,
    lanes: &[u32],
    offsets: &mut [u32; 16385],
    own: &mut [u32; 65536],
) -> Result<(), Refusal>
    ensures refusal { refusal_of result ≡ first_broken (succession_rules (lanes_read map.now lanes.now)) }
    ensures filled { IfOk result (λ _. Filled (length lanes.now / 10) (own_list (lanes_read map.now lanes.now))
        offsets.old own.old offsets.new own.new) }
{
    let mut links = Links::new();
    verdict::succession_verdict(map, lanes, &mut links)?;
    own::find_own(map, lanes, &mut links, offsets, own);
    Ok(())
}

// Writes the finished lists and the same read the other way, or refuses by 9 where an output is too short.
fn put_lists(found: &AllFound, out: &mut ListOutputs) -> Result<Counts, Refusal>
    requires as_many { AsMany found.now.lanes.lanes.now (onward_of found.now) }
    ensures outcome { let lanes : List ℕ = found.now.lanes.lanes.now in
        outcome (answer_of result) (outputs_of out.new)
        ≡ written_or9 list_writing (content_of (length lanes / 10) (onward_of found.now)
        (listers_of lanes (onward_of found.now))) (outputs_of out.old) }
    ensures same { SameOutputs out.old out.new }
{
    let starts = found.lanes.lanes.len() / 10 + 1;
    let total = found.count();
    if !out.fits(starts, total) {
        return Err(Refusal::OutputShort);
    }
    let offsets = &mut *out.successor_offsets;
    let ids = &mut *out.successor_ids;
    found.finish(offsets, ids);
    converse::converse(
        &found.lanes,
        Packed { offsets, ids },
        out.predecessor_offsets,
        out.predecessor_ids,
    );
    Ok(Counts {
        successor_offsets: starts,
        successor_ids: total,
        predecessor_offsets: starts,
        predecessor_ids: total,
    })
}

// Writes the lists of all lanes, from the lanes' own lists.
fn write_lists(lanes: &[u32], own: &Packed, out: &mut ListOutputs) -> Result<Counts, Refusal>
    requires once { (length lanes.now / 10 ≤ 16384) × (any (length lanes.now / 10) (id_before lanes.now) ≡ false) }
    requires all_rise { AllRise (length lanes.now / 10) own.now.offsets.now own.now.ids.now }
    requires few { start_of (list_part own.now.offsets.now own.now.ids.now) (length lanes.now / 10) ≤ 65536 }
    requires as_many { AsMany lanes.now (onward_at lanes.now own.now.offsets.now own.now.ids.now) }
    ensures outcome { let onward : ℕ → List ℕ = onward_at lanes.now own.now.offsets.now own.now.ids.now in
        outcome (answer_of result) (outputs_of out.new)
        ≡ written_or9 list_writing (content_of (length lanes.now / 10) onward (listers_of lanes.now onward))
        (outputs_of out.old) }
    ensures same { SameOutputs out.old out.new }
{
    let mut chain = Chain::new();
    by_key::link_ids(&mut chain, lanes);
    let lanes = ById::over(lanes, &chain);
    let mut offsets = [0u32; 16385];
    let mut ids = [0u32; 65536];
    converse::converse(&lanes, *own, &mut offsets, &mut ids);
    let finders = Packed {
        offsets: &offsets,
        ids: &ids,
    };
    let found = AllFound {
        lanes,
        own: *own,
        finders,
    };
    put_lists(&found, out)
}

// SUCCESSION: the lanes onward of every lane and the lanes before it, or the first refusal that applies.
pub fn succession(map: &MapTables, lanes: &[u32], out: &mut ListOutputs) -> Result<Counts, Refusal>
    ensures outcome { outcome (answer_of result) (outputs_of out.new)
        ≡ succession_call (lanes_read map.now lanes.now) (outputs_of out.old) }
    ensures same { SameOutputs out.old out.new }
{
    let mut offsets = [0u32; 16385];
    let mut ids = [0u32; 65536];
    resolve_own(map, lanes, &mut offsets, &mut ids)?;
    let own = Packed {
        offsets: &offsets,
        ids: &ids,
    };
    write_lists(lanes, &own, out)
}
