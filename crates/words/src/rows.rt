// Rows of words: reading a word, and writing rows into an output.
ghost use Rattle.std.specs.Prelude.{◌≡◌, ◌+◌, ◌/◌, ◌≤◌, ◌<◌, length, get_or};
ghost use Rattle.model.specs.Reading.{row_at};
ghost use Rattle.model.specs.Rows.{written};
ghost use Rattle.model.specs.Tables.{flag, link_of, link_words};
ghost use Rattle.words.specs.Fields.{number_read};
ghost use Rattle.words.specs.Rows.{spliced};

// A word of a table, as an index.
pub fn word(table: &[u32], at: usize) -> usize
    requires { at < length table.now }
    ensures { (result ≡ get_or table.now at 0) × (result < 4294967296) }
{
    table[at] as usize
}

// Whether a flag of a table is set.
pub fn flag(table: &[u32], at: usize) -> bool
    requires { at < length table.now }
    ensures { result ≡ flag (get_or table.now at 0) }
{
    table[at] == 1
}

// The lane number of the link at words `at` and `at + 1` of a table; none where its flag is not set.
pub fn link(table: &[u32], at: usize) -> Option<u32>
    requires { at + 1 < length table.now }
    ensures { number_read result ≡ link_of (get_or table.now at 0) (get_or table.now (at + 1) 0) }
{
    flag(table, at).then_some(table[at + 1])
}

// The two words of a link: its flag and its lane number; two zeros for none.
pub fn link_words(link: Option<u32>) -> [u32; 2]
    ensures { result ≡ link_words (number_read link) }
{
    match link {
        Some(number) => [1, number],
        None => [0, 0],
    }
}

// Row k of a table with W words a row.
pub fn row<const W: usize>(table: &[u32], k: usize) -> &[u32; W]
    requires { (0 < W) × (k < length table.now / W) }
    ensures { result.now ≡ row_at W table.now k }
{
    let (rows, _) = table.as_chunks::<W>();
    &rows[k]
}

// Writes a row into an output, from word `at` on. (`copy_from_slice` would have the archive ask for C's `memmove`.)
pub fn put<T: Copy>(out: &mut [T], at: usize, row: &[T])
    requires { at + length row.now ≤ length out.old }
    ensures { out.new ≡ spliced at row.now out.old }
{
    for k in 0..row.len() {
        out[at + k] = row[k];
    }
}

// Copies a table to the front of an output.
pub fn copy(out: &mut [u32], table: &[u32])
    requires { length table.now ≤ length out.old }
    ensures { out.new ≡ written table.now out.old }
{
    put(out, 0, table);
}
