// Rows in hash chains: `heads` has a word for each bucket and `next` one for each row. A word is a row plus 1, and 0
// for none: four bytes a row, where an `Option<u32>` takes eight (the calls fit a stack of 1.5 MiB).
ghost use Rattle.std.specs.Prelude.{◌≡◌, true, not, ◌||◌, Bool, ℕ, ◌+◌, ◌≤◌, ◌<◌, eqb, get_or, set};
ghost use Rattle.words.specs.Rows.{any, last_of};
ghost use Rattle.words.specs.Chain.{Chained, Decides, Empty, KeyIn, Likens, Puts, stored};

// How many buckets there are, and how many rows at most.
pub const BUCKETS: usize = 16384;

// The chains of a table's rows.
#[derive(Drop)]
pub struct Chain {
    heads: [u32; BUCKETS],
    next: [u32; BUCKETS],
}

// The row that a word holds.
pub fn row_in(word: u32) -> Option<usize>
    ensures { stored result ≡ word }
{
    word.checked_sub(1).map(|r| r as usize)
}

// The word that holds a row.
pub fn word_of(row: Option<usize>) -> u32
    requires { stored row < 4294967296 }
    ensures { result ≡ stored row }
{
    match row {
        Some(r) => r as u32 + 1,
        None => 0,
    }
}

impl Chain {
    // No row.
    pub fn new() -> Self
        ensures { Empty result.heads result.next }
    {
        Chain {
            heads: [0; BUCKETS],
            next: [0; BUCKETS],
        }
    }

    // No row again.
    pub fn clear(&mut self)
        ensures { Empty self.new.heads self.new.next }
    {
        self.heads.fill(0);
    }

    // Puts row r in front of the chain of bucket b.
    pub fn link(&mut self, b: usize, r: usize)
        requires { (b < 16384) × (r < 16384) }
        ensures { self.new ≡ record {
          heads = set self.old.heads b (r + 1);
          next = set self.old.next r (get_or self.old.heads b 0);
        } }
    {
        self.next[r] = self.heads[b];
        self.heads[b] = (r + 1) as u32;
    }

    // The last row in bucket b.
    pub fn head(&self, b: usize) -> Option<usize>
        requires { b < 16384 }
        ensures { stored result ≡ get_or self.now.heads b 0 }
    {
        row_in(self.heads[b])
    }

    // The row before r in its bucket.
    pub fn after(&self, r: usize) -> Option<usize>
        requires { r < 16384 }
        ensures { stored result ≡ get_or self.now.next r 0 }
    {
        row_in(self.next[r])
    }

    // The last of the first n rows, in bucket b, that passes the test. (`successors(..).find(..)` does not prove: it
    // asks for an iterator that ends, and of a `Successors` that is never known.)
    pub fn find<F: Fn(usize) -> bool>(&self, n: usize, b: usize, test: F) -> Option<usize>
        requires in_bounds { (b < 16384) × (n ≤ 16384) }
        requires chained { (hash : ℕ → ℕ) × Chained hash n self.now.heads self.now.next }
        requires callable { (r : ℕ) → r < n → F.pre test r }
        ensures { (hash : ℕ → ℕ) (p : ℕ → Bool) → Chained hash n self.now.heads self.now.next
            → KeyIn hash p b → Decides (F.post test) p n → stored result ≡ last_of n p }
    {
        let mut at = row_in(self.heads[b]);
        while let Some(r) = at {
            if test(r) {
                return Some(r);
            }
            at = row_in(self.next[r]);
        }
        None
    }

    // Links n rows, each in its bucket, and returns whether two are alike.
    pub fn link_rows<B: Fn(usize) -> usize, A: Fn(usize, usize) -> bool>(
        &mut self,
        n: usize,
        bucket: B,
        alike: A,
    ) -> bool
        requires few { n ≤ 16384 }
        requires empty { Empty self.old.heads self.old.next }
        requires buckets { (r : ℕ) → r < n → B.pre bucket r }
        requires bounded { (r b : ℕ) → r < n → B.post bucket r b → b < 16384 }
        requires rows { (q r : ℕ) → q < r → r < n → A.pre alike q r }
        ensures { (hash : ℕ → ℕ) (same : ℕ → ℕ → Bool) → Puts (B.post bucket) hash n → Likens (A.post alike) same n
            → ((r : ℕ) → r < n → KeyIn hash (same r) (hash r))
            → (result ≡ any n (λ r. any r (same r))) × Chained hash n self.new.heads self.new.next }
    {
        let mut twice = false;
        for r in 0..n {
            let b = bucket(r);
            let before = self.find(
                r,
                b,
                |q| -> bool
                    requires { A.pre alike q r }
                    ensures { A.post alike q r result }
                { alike(q, r) },
            );
            twice |= before.is_some();
            self.link(b, r);
        }
        twice
    }
}
