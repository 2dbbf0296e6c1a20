// The bytes of names in a text.
ghost use Rattle.std.specs.Prelude.{◌≡◌, ◌<◌};
ghost use Rattle.model.specs.Text.{name_bytes};
ghost use Rattle.words.specs.Rows.{span};
ghost use Rattle.words.specs.Keys.{hash_from};

use crate::chain::BUCKETS;

// The part of the text that a name is: empty for an absent or misplaced name, which `Name::bytes` cuts down.
pub fn name_part(text: &[u8], start: u32, size: u32) -> &[u8]
    ensures { result.now ≡ name_bytes text.now (span start size) }
{
    let a = start as usize;
    text.get(a..a + size as usize).unwrap_or(&[])
}

// The bucket of some bytes.
pub fn hash(bytes: &[u8]) -> usize
    ensures { (result ≡ hash_from 7 bytes.now) × (result < 16384) }
{
    bytes
        .iter()
        .fold(7, |h, &b| (h * 31 + usize::from(b)) % BUCKETS)
}
