// The length check: where a road's plan view ends, against the road's length. All f64, each operation rounded once, in
// the order written in gaps.rs.
ghost use Rattle.std.specs.Prelude.{◌≡◌};
ghost use Rattle.model.specs.Length.{far_off, length_call};
ghost use Rattle.reading.specs.Answers.{checked_of};

use std::error::Error;
use std::fmt;

// Starts and lengths that differ in count.
#[derive(Clone, Copy, PartialEq, Eq, Debug)]
pub struct Uneven;

impl fmt::Display for Uneven {
    fn fmt<W: fmt::Write>(&self, f: &mut fmt::Formatter<W>) -> fmt::Result {
        f.write_str("starts and lengths differ in count")
    }
}

impl Error for Uneven {}

// How far a road's length may lie from where its plan view ends.
const LENGTH_TOLERANCE: f64 = 0.01;

// (length - sum).abs() > LENGTH_TOLERANCE. A NaN is never far off.
fn far_off(length: f64, sum: f64) -> bool
    ensures { result ≡ far_off length sum }
{
    let d = length - sum;
    LENGTH_TOLERANCE < d || LENGTH_TOLERANCE < -d
}

// The sum of the last start and the last length, where it is off the road's length.
pub fn check_length(starts: &[f64], lengths: &[f64], length: f64) -> Result<Option<f64>, Uneven>
    ensures { checked_of result ≡ length_call starts.now lengths.now length }
{
    if starts.len() != lengths.len() {
        return Err(Uneven);
    }
    let (Some(start), Some(last)) = (starts.last(), lengths.last()) else {
        return Ok(None);
    };
    let sum = *start + *last;
    Ok(far_off(length, sum).then_some(sum))
}
