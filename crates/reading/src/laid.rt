// An output as far as it is laid: its words and how many rows it has. One without room for a row is left as it is, so
// that a first run only counts. They are passed one by one: of a struct whose fields are such structs the check doesn't
// know, once it ends or is taken apart, which slice each field leaves (tried).
ghost use Rattle.std.specs.Prelude.{◌≡◌, ◌≤◌};
ghost use Rattle.reading.specs.Laid.{Run};
ghost use Rattle.reading.specs.Outs.{laid};

use words::rows;

// An output of rows of W words.
#[derive(Drop)]
pub struct Laid<'a, const W: usize> {
    pub words: &'a mut [u32],
    pub rows: usize,
}

impl<'a, const W: usize> Laid<'a, W> {
    // No row yet.
    pub fn over(words: &'a mut [u32]) -> Self
        ensures { (result.words.ghost_name ≡ words.entry.ghost_name) × (result.words.now ≡ words.old)
            × (result.rows ≡ 0) }
    {
        Laid { words, rows: 0 }
    }

    // One row more, written where there is room for it.
    pub fn put(&mut self, row: &[u32; W])
        requires { (self.old.rows ≤ 32768) × (W ≤ 7) }
        ensures put { Run W row.now 1 (laid self.old) (laid self.new) }
    {
        let at = self.rows * W;
        if at + W <= self.words.len() {
            rows::put(self.words, at, row);
        }
        self.rows += 1;
    }
}
