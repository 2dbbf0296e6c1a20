// Lane numbers: text that Rust's `parse::<i32>` takes.
ghost use Rattle.std.specs.Prelude.{◌≡◌};
ghost use Rattle.model.specs.Reading.{digits, up_to, lane_number};
ghost use Rattle.words.specs.Fields.{number_read};

use words::numbers::negate;

// The number that the bytes mean, where they are digits, at least one, and it is at most `most`.
fn digits(bytes: &[u8], most: u32) -> Option<u32>
    ensures { number_read result ≡ up_to most (digits bytes.now) }
{
    if bytes.is_empty() {
        return None;
    }
    let mut number = 0u32;
    for &b in bytes {
        if !b.is_ascii_digit() {
            return None;
        }
        number = number.checked_mul(10)?.checked_add(u32::from(b - b'0'))?;
    }
    (number <= most).then_some(number)
}

// An optional + or -, then one or more digits, within the range of an i32. (Tried: `str::from_utf8` and `parse::<i32>`,
// whose contracts speak of std's own definition of such a text: the check leaves what is returned open.)
pub fn lane_number(bytes: &[u8]) -> Option<u32>
    ensures { number_read result ≡ lane_number bytes.now }
{
    let (&sign, rest) = bytes.split_first()?;
    match sign {
        b'-' => Some(negate(digits(rest, 2147483648)?)),
        b'+' => digits(rest, 2147483647),
        _ => digits(bytes, 2147483647),
    }
}
