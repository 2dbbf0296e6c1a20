// The counts of an accepted call.
ghost use Rattle.std.specs.Prelude.{◌≡◌};
ghost use Rattle.model.specs.Calls.{wrote};
ghost use Rattle.vorzhyket.specs.Exported.{Words, answered};

// The rows written to each of N outputs, and the number that is returned for them, 0.
// A loop: `counts.map(..)` was tried: it asks that an iterator over N counts fits in memory, which not every N does.
#[tactic(auto, using(crate::proofs::Left::count_low))]
pub fn accepted<const N: usize>(counts: [usize; N], written: &mut [u32; N]) -> u32
    requires { Words counts }
    ensures { (result, written.new) ≡ answered (wrote counts.entry) written.old }
{
    for i in 0..N {
        written[i] = counts[i] as u32;
    }
    0
}
