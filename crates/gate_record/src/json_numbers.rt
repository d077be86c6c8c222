//! Tells what serde_json makes of the text of a JSON number, so that a tape and a tree of values give the same number.
ghost use Rattle.std.specs.Prelude.{◌≡◌, ◌==◌, ◌<◌, length, is_some, option_and_then, option_map, slice_index, true, false, IsTrue};
ghost use Rattle.std.specs.Str.{all_ascii_digits};
ghost use Rattle.serde_json.specs.Data.{unsigned};
ghost use Rattle.serde_json.specs.Find.{as_i64};
ghost use Rattle.serde_json.specs.Read.{float_of, number_from, number_of};

use fast_float::Numeral;

/// Returns whether serde_json takes the number: as an integer of 64 bits, or as the nearest float if that is finite.
pub(crate) fn is_taken(text: &str) -> bool
    ensures { result ≡ is_some (number_of text.now) }
{
    is_short_integer(text.as_bytes()) || taken(text).is_some()
}

// Short runs of digits are the usual case. A number of at most 18 digits always fits 64 bits, so it needn't be computed.
#[tactic(auto, using(crate::proofs::Taken::short_is_taken))]
fn is_short_integer(bytes: &[u8]) -> bool
    ensures { IsTrue result → is_some (number_of bytes.now) ≡ true }
{
    !bytes.is_empty() && bytes.len() <= 18 && are_digits(bytes)
}

fn are_digits(bytes: &[u8]) -> bool
    ensures { result ≡ all_ascii_digits bytes.now }
{
    for byte in bytes {
        if !byte.is_ascii_digit() {
            return false;
        }
    }
    true
}

/// Returns the `i64` that serde_json sees in the number. It sees none in `-0` and `2.0`, which it takes as floats.
pub(crate) fn integer(text: &str) -> Option<i64>
    ensures { result ≡ option_and_then as_i64 (number_of text.now) }
{
    taken(text)?
}

// Returns what the number is as an `i64`, inside a `Some` if serde_json takes the number at all.
fn taken(text: &str) -> Option<Option<i64>>
    ensures { result ≡ option_map as_i64 (number_of text.now) }
{
    let bytes = text.as_bytes();
    if has_minus(bytes) {
        below_zero(&Numeral::scan(&bytes[1..]))
    } else {
        from_zero(&Numeral::scan(bytes))
    }
}

fn has_minus(bytes: &[u8]) -> bool
    ensures value { result ≡ (slice_index bytes.now 0 == 45) }
    ensures len { IsTrue result → 0 < length bytes.now }
{
    !bytes.is_empty() && bytes[0] == b'-'
}

fn from_zero(numeral: &Numeral<'_>) -> Option<Option<i64>>
    ensures { result ≡ option_map as_i64 (number_from false numeral.now) }
{
    match numeral.to_u64() {
        Some(n) => Some(signed(n)),
        None => nearest(false, numeral),
    }
}

fn signed(n: u64) -> Option<i64>
    ensures { result ≡ as_i64 (unsigned n) }
{
    if n <= i64::MAX as u64 {
        Some(n as i64)
    } else {
        None
    }
}

fn below_zero(numeral: &Numeral<'_>) -> Option<Option<i64>>
    ensures { result ≡ option_map as_i64 (number_from true numeral.now) }
{
    if let Some(n) = numeral.to_i64(true) {
        if n < 0 {
            return Some(Some(n));
        }
    }
    nearest(true, numeral)
}

// serde_json takes a number that gets here as a float, which is never an `i64`.
fn nearest(negative: bool, numeral: &Numeral<'_>) -> Option<Option<i64>>
    ensures { result ≡ option_map as_i64 (float_of negative numeral.now) }
{
    let float: f64 = numeral.to_float(negative);
    if float.is_finite() { Some(None) } else { None }
}
