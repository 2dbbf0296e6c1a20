// What several cases print.
use geometry::gap::place_bits;
use std::{fmt, io};
use tables::refusal::Refusal;

// A line: of what it is, and what is said of that.
pub fn say<T: fmt::Display + Copy>(rt: &impl Print, label: &str, said: T) -> io::Result<()> {
    println!(rt; "{label}: {said}")
}

// The words of a list, or "none".
#[derive(Clone, Copy)]
pub struct Words<'a>(pub &'a [u32]);

impl fmt::Display for Words<'_> {
    fn fmt<W: fmt::Write>(&self, f: &mut fmt::Formatter<W>) -> fmt::Result {
        let Some((first, others)) = self.0.split_first() else {
            return f.write_str("none");
        };
        first.fmt(f)?;
        for word in others {
            write!(f, " {word}")?;
        }
        Ok(())
    }
}

// The bits of a float, none of a NaN.
#[derive(Clone, Copy)]
pub struct Bits(Option<u32>);

impl Bits {
    // Those of a float.
    pub fn of(x: f32) -> Self {
        if x.is_nan() {
            Bits(None)
        } else {
            Bits(Some(x.to_bits()))
        }
    }

    // Those of a place, as rows have them. (One function with `of` would take a closure that no NaN is given to.)
    pub fn of_place(x: f32) -> Self {
        if x.is_nan() {
            Bits(None)
        } else {
            Bits(Some(place_bits(x)))
        }
    }
}

// Eight hexadecimal digits.
impl fmt::Display for Bits {
    fn fmt<W: fmt::Write>(&self, f: &mut fmt::Formatter<W>) -> fmt::Result {
        match self.0 {
            Some(bits) => write!(f, "{bits:08x}"),
            None => f.write_str("nan"),
        }
    }
}

// Whether a call took its input: a word that says so, or the refusal.
#[derive(Clone, Copy)]
pub struct Told<'a> {
    accepted: &'a str,
    refusal: Option<Refusal>,
}

impl<'a> Told<'a> {
    // What a call answered.
    pub fn of<T: Copy>(answer: Result<T, Refusal>, accepted: &'a str) -> Self {
        Told {
            accepted,
            refusal: answer.err(),
        }
    }
}

impl fmt::Display for Told<'_> {
    fn fmt<W: fmt::Write>(&self, f: &mut fmt::Formatter<W>) -> fmt::Result {
        match self.refusal {
            None => f.write_str(self.accepted),
            Some(refusal) => {
                let number = refusal.number();
                write!(f, "refusal {number}")
            }
        }
    }
}
