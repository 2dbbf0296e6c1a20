// Attributes: names that may be absent, at two words of a row.
ghost use Rattle.std.specs.Prelude.{◌≡◌, ◌+◌, ◌*◌, ◌≤◌, ◌<◌, length};
ghost use Rattle.model.specs.Tables.{name_in};
ghost use Rattle.model.specs.Reading.{reads, same_names, number_of, contact_of};
ghost use Rattle.model.specs.ReadingCalls.{name_worded, names_worded, rows_named};
ghost use Rattle.words.specs.Fields.{number_read};
ghost use Rattle.reading.specs.Read.{attribute_read, contact_read};

use crate::numbers;
use words::name::Name;

// The attribute at words `at` and `at + 1`; none where it is absent.
pub fn attribute(ws: &[u32], at: usize) -> Option<Name>
    requires { at + 1 < length ws.now }
    ensures { attribute_read result ≡ name_in ws.now at }
{
    let name = Name::at(ws, at);
    (!name.is_absent()).then_some(name)
}

// Whether the attribute is there and has just these bytes.
#[tactic(auto, using(crate::proofs::NameLaws::bytes_are))]
pub fn reads(text: &[u8], bytes: &[u8], attribute: Option<Name>) -> bool
    ensures { result ≡ reads text.now bytes.now (attribute_read attribute) }
{
    attribute.is_some_and(|name| name.bytes(text) == bytes)
}

// Whether two attributes are there and equal: two absent ones are not, and names are equal by their bytes.
pub fn same_names(text: &[u8], a: Option<Name>, b: Option<Name>) -> bool
    ensures { result ≡ same_names text.now (attribute_read a) (attribute_read b) }
{
    a.zip(b).is_some_and(|(a, b)| a.same(b, text))
}

// What a contactPoint says: nothing, the start, the end, or neither of the two, which is a loose spelling.
#[derive(Clone, Copy, PartialEq, Eq, Debug)]
pub enum ContactPoint {
    Absent,
    Start,
    End,
    Loose,
}

impl ContactPoint {
    // Whether the contact is the end.
    pub fn is_end(self) -> bool
        ensures { result ≡ (contact_read self).contact }
    {
        self == ContactPoint::End
    }

    // Whether a contact is given.
    pub fn is_given(self) -> bool
        ensures { result ≡ (contact_read self).given }
    {
        matches!(self, ContactPoint::Start | ContactPoint::End)
    }

    // Whether it is spelled loosely.
    pub fn is_loose(self) -> bool
        ensures { result ≡ (contact_read self).loose }
    {
        self == ContactPoint::Loose
    }
}

// What the attribute says as a contactPoint. (Tried: a match on the texts, of which the check leaves goals open.)
pub fn contact_of(text: &[u8], attribute: Option<Name>) -> ContactPoint
    ensures { contact_read result ≡ contact_of text.now (attribute_read attribute) }
{
    if attribute.is_none() {
        return ContactPoint::Absent;
    }
    if reads(text, b"end", attribute) {
        return ContactPoint::End;
    }
    if reads(text, b"start", attribute) {
        return ContactPoint::Start;
    }
    ContactPoint::Loose
}

// The attribute as a lane number.
pub fn number_of(text: &[u8], attribute: Option<Name>) -> Option<u32>
    ensures { number_read result ≡ number_of text.now (attribute_read attribute) }
{
    numbers::lane_number(attribute?.bytes(text))
}

// 2: whether the name is absent or lies in the text.
fn name_fits(text: &[u8], ws: &[u32], at: usize) -> bool
    requires { at + 1 < length ws.now }
    ensures { result ≡ name_worded text.now ws.now at }
{
    let name = Name::at(ws, at);
    name.is_absent() || name.is_placed(text)
}

// 2: n names from word `at` on.
pub fn names_fit(text: &[u8], ws: &[u32], at: usize, n: usize) -> bool
    requires { (at + n * 2 ≤ length ws.now) × (n ≤ 6) }
    ensures { result ≡ names_worded text.now n ws.now at }
{
    (0..n).all(|i| name_fits(text, ws, at + i * 2))
}

// 2: the n names that each row of w words begins with.
pub fn rows_named(text: &[u8], ws: &[u32], w: usize, n: usize) -> bool
    requires { (0 < w) × (w ≤ 14) × (n * 2 ≤ w) × (n ≤ 6) }
    ensures { result ≡ rows_named text.now w n ws.now }
{
    ws.chunks_exact(w).all(|row| names_fit(text, row, 0, n))
}
