// A name: where it stands in the text.
ghost use Rattle.std.specs.Prelude.{◌≡◌, ◌+◌, ◌<◌, length};
ghost use Rattle.model.specs.Tables.{is_absent};
ghost use Rattle.model.specs.Text.{bytes_of, placed, same_in};
ghost use Rattle.words.specs.Keys.{hash_name};
ghost use Rattle.words.specs.Rows.{name_from};
ghost use Rattle.words.specs.Name.{place_of};

use crate::names;

// A name's place in the text; any place, in the text or not.
#[derive(Clone, Copy, PartialEq, Eq, Debug)]
pub struct Name {
    pub start: u32,
    pub size: u32,
}

impl Name {
    // The name at words `at` and `at + 1` of a table.
    pub fn at(table: &[u32], at: usize) -> Name
        requires { at + 1 < length table.now }
        ensures { place_of result ≡ name_from table.now at }
    {
        Name {
            start: table[at],
            size: table[at + 1],
        }
    }

    // Whether the two words mean that there is no name.
    pub fn is_absent(self) -> bool
        ensures { result ≡ is_absent self.start self.size }
    {
        self.start == 4294967295 && self.size == 0
    }

    // Whether it lies in the text.
    #[tactic(auto, unfolding(model::specs::Text::placed))]
    pub fn is_placed(self, text: &[u8]) -> bool
        ensures { result ≡ placed text.now (place_of self) }
    {
        self.start as usize + self.size as usize <= text.len()
    }

    // Its bytes, as far as the text has them.
    pub fn bytes(self, text: &[u8]) -> &[u8]
        ensures { result.now ≡ bytes_of text.now (place_of self) }
    {
        let start = self.start as usize;
        let from = start.min(text.len());
        let to = (start + self.size as usize).min(text.len());
        &text[from..to]
    }

    // Whether two names have the same bytes.
    #[tactic(auto, using(crate::proofs::KeyLaws::same_is))]
    pub fn same(self, other: Name, text: &[u8]) -> bool
        ensures { result ≡ same_in text.now (place_of self) (place_of other) }
    {
        self.bytes(text) == other.bytes(text)
    }

    // The bucket of its bytes.
    #[tactic(auto, unfolding(crate::specs::Keys::hash_name))]
    pub fn bucket(self, text: &[u8]) -> usize
        ensures { (result ≡ hash_name text.now (place_of self)) × (result < 16384) }
    {
        names::hash(self.bytes(text))
    }
}
