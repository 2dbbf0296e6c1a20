// The recorded answers: a stream of words in decimal, one byte after each. A list is its length and then its words. A
// step is its kind and a list, which holds the step's own lists.
ghost use Rattle.std.specs.Prelude.{◌<◌, ◌≤◌, length, IfSome};
ghost use Rattle.std.specs.Iterator.{at_most};

use crate::outcome::{Kind, UnknownKind};
use std::alloc::{AllocError, Global};

// How many words are read at most.
const MOST: usize = 262144;

// The words of a text. A byte below '0' ends one, and any other is a digit of it, which is taken modulo 2 ^ 32.
pub fn words(alloc: Global, text: &[u8]) -> Result<Vec<u32>, AllocError> {
    let mut words = Vec::new(alloc);
    let mut word = 0u32;
    for b in text {
        if words.len() == MOST {
            break;
        }
        match b.checked_sub(b'0') {
            Some(digit) => word = word.wrapping_mul(10).wrapping_add(u32::from(digit)),
            None => {
                words.push(word)?;
                word = 0;
            }
        }
    }
    Ok(words)
}

// The word at a place, and 0 past the end.
pub fn word_at(words: &[u32], at: usize) -> u32 {
    words.get(at).copied().unwrap_or(0)
}

// The first n words of a list, or all where it has fewer.
pub fn front(list: &[u32], n: usize) -> &[u32] {
    &list[..list.len().min(n)]
}

// The list that the words begin with, and the words after it.
fn split_list(words: &[u32]) -> Option<(&[u32], &[u32])>
    ensures { IfSome result (λ p. length p.1.now < length words.now) }
{
    let (&n, rest) = words.split_first()?;
    rest.split_at_checked(n as usize)
}

// Lists, one after the other, as far as the words go.
#[derive(Clone, Copy)]
pub struct Lists<'a>(pub &'a [u32]);

impl<'a> Lists<'a> {
    // The next list; empty where there is none.
    pub fn list(&mut self) -> &'a [u32] {
        self.next().unwrap_or(&[])
    }
}

impl<'a> Iterator for Lists<'a> {
    type Item = &'a [u32];

    ghost remaining = { λ s. at_most (length s.0.now) };

    fn next(&mut self) -> Option<&'a [u32]> {
        let (list, rest) = split_list(self.0)?;
        self.0 = rest;
        Some(list)
    }
}

// A step, and at which word it begins.
#[derive(Clone, Copy)]
pub struct Step<'a> {
    pub at: usize,
    pub kind: Result<Kind, UnknownKind>,
    pub lists: Lists<'a>,
}

// The steps, one after the other; one whose list the words end before has no lists.
#[derive(Clone, Copy)]
pub struct Steps<'a> {
    words: &'a [u32],
    rest: &'a [u32],
    ghost within: { length rest.now ≤ length words.now },
}

impl<'a> Steps<'a> {
    // Those of a stream, from its first word on.
    pub fn over(words: &'a [u32]) -> Self {
        Steps { words, rest: words }
    }
}

impl<'a> Iterator for Steps<'a> {
    type Item = Step<'a>;

    ghost remaining = { λ s. at_most (length s.rest.now) };

    fn next(&mut self) -> Option<Step<'a>> {
        let at = self.words.len() - self.rest.len();
        let (&number, after) = self.rest.split_first()?;
        let (list, rest) = split_list(after).unwrap_or((&[], &[]));
        self.rest = rest;
        Some(Step {
            at,
            kind: Kind::try_from(number),
            lists: Lists(list),
        })
    }
}
