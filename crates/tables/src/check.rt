// Checks of whole tables, with arrays of their own: the first refusal that applies to a call, 9 and 11 left out.
ghost use Rattle.std.specs.Prelude.{◌≡◌};
ghost use Rattle.model.specs.Rules.{first_broken};
ghost use Rattle.model.specs.Calls.{repair_rules, succession_rules, reversal_rules};
ghost use Rattle.words.specs.Map.{map_read, lanes_read, all_read};
ghost use Rattle.tables.specs.Refusals.{refusal_of};

use crate::refusal::Refusal;
use crate::verdict;
use crate::verdict::Links;
use words::chain::Chain;
use words::map::MapTables;

pub fn check_repair(map: &MapTables) -> Result<(), Refusal>
    ensures { refusal_of result ≡ first_broken (repair_rules (map_read map.now)) }
{
    verdict::repair_verdict(map, &mut Chain::new())
}

pub fn check_succession(map: &MapTables, lanes: &[u32]) -> Result<(), Refusal>
    ensures { refusal_of result ≡ first_broken (succession_rules (lanes_read map.now lanes.now)) }
{
    verdict::succession_verdict(map, lanes, &mut Links::new())
}

pub fn check_reversal(
    map: &MapTables,
    lanes: &[u32],
    edges: &[f32],
    marks: &[u32],
) -> Result<(), Refusal>
    ensures { refusal_of result ≡ first_broken (reversal_rules (all_read map.now lanes.now edges.now) marks.now) }
{
    verdict::reversal_verdict(map, lanes, edges, marks, &mut Links::new())
}
