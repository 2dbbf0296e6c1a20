// Rows laid one after the other.
ghost use Rattle.std.specs.Prelude.{◌≡◌, ◌++◌, ◌+◌, ◌*◌, ◌≤◌, ◌<◌, length, take};

use words::rows;

// The rows of W words laid so far: how many, and the array that begins with them (an array, since a call takes no
// heap).
#[derive(Drop)]
pub struct LaidRows<const W: usize, const N: usize> {
    pub rows: usize,
    pub words: [u32; N],
    ghost within: { rows * W ≤ N },
}

impl<const W: usize, const N: usize> LaidRows<W, N> {
    // One row more.
    pub fn put(&mut self, row: &[u32; W])
        requires { (self.old.rows < 16384) × (self.old.rows * W + W ≤ N) }
        ensures rows { self.new.rows ≡ self.old.rows + 1 }
        ensures words { take (self.new.rows * W) self.new.words ≡ take (self.old.rows * W) self.old.words ++ row.now }
    {
        rows::put(&mut self.words, self.rows * W, row);
        self.rows += 1;
    }

    // Their words.
    pub fn slice(&self) -> &[u32]
        ensures { (result.now ≡ take (self.now.rows * W) self.now.words) × (length result.now ≡ self.now.rows * W) }
    {
        &self.words[..self.rows * W]
    }
}
