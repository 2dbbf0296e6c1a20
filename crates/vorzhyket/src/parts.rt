// Where a lane's list or a name lies: the first index and the count of a part, 0 and 0 where it is empty.
ghost use Rattle.std.specs.Prelude.{◌≡◌, ◌<◌};
ghost use Rattle.vorzhyket.specs.Places.{asks_before, list_place, lookup_place, name_place, place_of};

use succession::lists::list_part;
use words::names::name_part;

// The place of a part that begins at `first`. C has no Option: where there is none, it is 0 and 0.
fn place(first: u32, count: usize) -> [u32; 2]
    requires { count < 4294967296 }
    ensures { result ≡ place_of first count }
{
    if count == 0 {
        [0, 0]
    } else {
        [first, count as u32]
    }
}

// The place of a row's list. Two slices: of those in a struct the check does not know that the elements are words.
#[tactic(auto, unfolding(crate::specs::Places::list_place), using(crate::proofs::PlaceLaws::list_long))]
fn list_place(offsets: &[u32], ids: &[u32], row: u32) -> [u32; 2]
    ensures { result ≡ list_place offsets.now ids.now row }
{
    let at = row as usize;
    let first = offsets.get(at).copied().unwrap_or(0);
    place(first, list_part(offsets, ids, at).len())
}

// The place of the lanes onward of a lane row, where before is 0, or of the lanes before.
#[tactic(auto, unfolding(crate::specs::Places::lookup_place))]
#[unsafe(no_mangle)]
pub extern "C" fn vz_list(
    successor_offsets: &[u32],
    successor_ids: &[u32],
    predecessor_offsets: &[u32],
    predecessor_ids: &[u32],
    row: u32,
    before: u32,
    part: &mut [u32; 2],
)
    ensures { part.new
        ≡ lookup_place successor_offsets.now successor_ids.now
        predecessor_offsets.now predecessor_ids.now row (asks_before before) }
{
    if before == 0 {
        *part = list_place(successor_offsets, successor_ids, row);
    } else {
        *part = list_place(predecessor_offsets, predecessor_ids, row);
    }
}

// The place of a name's bytes: 0 and 0 for an absent or misplaced name.
#[tactic(auto, unfolding(crate::specs::Places::name_place), using(crate::proofs::PlaceLaws::name_long))]
#[unsafe(no_mangle)]
pub extern "C" fn vz_name(text: &[u8], start: u32, length: u32, part: &mut [u32; 2])
    ensures { part.new ≡ name_place text.now start length }
{
    *part = place(start, name_part(text, start, length).len());
}
