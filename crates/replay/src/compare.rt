// An answer and its outputs beside those that are recorded.
use crate::convert::Entry;
use crate::outcome::Outcome;
use crate::stream::{Lists, word_at};
use std::alloc::{AllocError, Global};
use tables::refusal::Refusal;

// What every output word is before a call.
const MARK: u32 = 0xdead_beef;

// How many words of an output are lent at most.
const MOST: u32 = 256;

// How many outputs a call has at most.
const OUTPUTS: usize = 6;

// What is recorded of a call: the answer, which is the refusal's number, 0 where there is none, and the rows written to
// each output; then lists. And where its outputs are made.
#[derive(Clone, Copy)]
pub struct Record<'a> {
    pub answer: &'a [u32],
    lists: Lists<'a>,
    pub alloc: Global,
}

impl<'a> Record<'a> {
    // Of the lists of a step.
    pub fn of(alloc: Global, mut lists: Lists<'a>) -> Self {
        Record {
            answer: lists.list(),
            lists,
            alloc,
        }
    }

    // The next list.
    pub fn list(&mut self) -> &'a [u32] {
        self.lists.list()
    }

    // The next output: how many words of it are lent, and the words written to it.
    pub fn output<T: Entry>(&mut self) -> Result<Output<'a, T>, AllocError> {
        let (n, written) = match self.list().split_first() {
            Some((n, written)) => (*n, written),
            None => (0, [].as_slice()),
        };
        Ok(Output {
            entries: (0..n.min(MOST)).map(|_| T::of(MARK)).collect(self.alloc)?,
            written,
        })
    }

    // The next four outputs.
    pub fn outputs(&mut self) -> Result<Outputs<'a>, AllocError> {
        Ok(Outputs(
            self.output()?,
            self.output()?,
            self.output()?,
            self.output()?,
        ))
    }

    // Is the answer that number, with those rows, and 0 for each output that the call does not have?
    pub fn has(&self, number: u32, rows: &[usize]) -> bool {
        word_at(self.answer, 0) == number
            && (0..OUTPUTS).all(|k| word_at(self.answer, k + 1) as usize
                == rows.get(k).copied().unwrap_or(0))
    }

    // Is that the answer?
    pub fn is_told<const N: usize>(&self, answer: Result<[usize; N], Refusal>) -> bool {
        match answer {
            Ok(rows) => self.has(0, &rows),
            Err(refusal) => self.has(refusal.number(), &[]),
        }
    }

    // Is that the answer, and are those the outputs?
    pub fn tells<const N: usize>(
        &self,
        answer: Result<[usize; N], Refusal>,
        outputs: Outputs,
    ) -> bool {
        self.is_told(answer)
            && outputs.0.is_recorded()
            && outputs.1.is_recorded()
            && outputs.2.is_recorded()
            && outputs.3.is_recorded()
    }

    // What came of a call that came out so: by the refusal's number.
    pub fn outcome(&self) -> Outcome {
        match word_at(self.answer, 0) {
            0 => Outcome::Accepted,
            _ => Outcome::Refused,
        }
    }
}

// An output that is lent to a call, and the words that are recorded as written to it.
#[derive(Drop)]
pub struct Output<'a, T> {
    pub entries: Vec<T>,
    written: &'a [u32],
}

impl<T: Entry> Output<'_, T> {
    // Word i after the call: as written, or as it was.
    fn word(&self, i: usize) -> u32 {
        match self.entries.as_slice().get(i) {
            Some(entry) => entry.word(),
            None => MARK,
        }
    }

    // The same as it is recorded.
    fn recorded(&self, i: usize) -> u32 {
        match self.written.get(i) {
            Some(word) => T::of(*word).word(),
            None => MARK,
        }
    }

    // Are the words written those recorded, and all others as they were?
    pub fn is_recorded(&self) -> bool {
        self.written.len() <= MOST as usize
            && (0..MOST as usize).all(|i| self.word(i) == self.recorded(i))
    }
}

// Four outputs; none of a word where the lists have ended.
#[derive(Drop)]
pub struct Outputs<'a>(
    pub Output<'a, u32>,
    pub Output<'a, u32>,
    pub Output<'a, u32>,
    pub Output<'a, u32>,
);
