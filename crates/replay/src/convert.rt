// Words of the stream as what the calls take: bytes, floats and lengths, one for each word.
ghost use Rattle.std.specs.Prelude.{◌≡◌, length, vec_len, IfOk};

use std::alloc::{AllocError, Global};

// What outputs consist of, a word for each.
pub trait Entry: Copy {
    // The entry that a word stands for.
    fn of(word: u32) -> Self;

    // The word that stands for it.
    fn word(self) -> u32;
}

impl Entry for u32 {
    fn of(word: u32) -> u32 {
        word
    }

    fn word(self) -> u32 {
        self
    }
}

// The bits of a NaN.
const NAN: u32 = 0x7fc0_0000;

// A float's bits; of a NaN only that it is one.
impl Entry for f32 {
    #[tactic(auto, using(std::proofs::lemmas::Float::not_nan_f32_bits))]
    fn of(word: u32) -> f32 {
        if word % 0x8000_0000 > 0x7f80_0000 {
            f32::NAN
        } else {
            f32::from_bits(word)
        }
    }

    fn word(self) -> u32 {
        if self.is_nan() { NAN } else { self.to_bits() }
    }
}

// Bytes, a word for each.
pub fn bytes(alloc: Global, list: &[u32]) -> Result<Vec<u8>, AllocError>
    ensures { IfOk result (λ v. vec_len v ≡ length list.now) }
{
    list.iter().map(|word| (*word % 256) as u8).collect(alloc)
}

// Floats, by their bits.
pub fn floats(alloc: Global, list: &[u32]) -> Result<Vec<f32>, AllocError>
    ensures { IfOk result (λ v. vec_len v ≡ length list.now) }
{
    list.iter().map(|word| f32::of(*word)).collect(alloc)
}

// A length, which the stream has in thousandths.
pub fn thousandths(word: u32) -> f64 {
    f64::from(word) / 1000.0
}

// Lengths, a word for each.
pub fn lengths(alloc: Global, list: &[u32]) -> Result<Vec<f64>, AllocError>
    ensures { IfOk result (λ v. vec_len v ≡ length list.now) }
{
    list.iter().map(|word| thousandths(*word)).collect(alloc)
}
