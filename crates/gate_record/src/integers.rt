//! Reads a number of a record, which Gerrit may write as a JSON number or as a text of digits.
ghost use Rattle.std.specs.Prelude.{◌≡◌};
ghost use Rattle.serde_json.specs.View.{view};
ghost use Rattle.gate_record.specs.Numbers.{number_in, number_of};

use serde_json::Value;

/// Returns the number that a JSON value is: a JSON number that is an `i64`, or a text of at most one sign and decimal digits that
/// writes an `i64`. Anything else is no number, for example `2.0`, `"2 "`, `""` and `"+"`.
pub fn read_number(value: &Value) -> Option<i64>
    ensures { result ≡ number_of (view value.now) }
{
    match value.as_str() {
        Some(text) => number_of_text(text),
        None => value.as_i64(),
    }
}

/// Returns the number that a text writes: at most one sign and then decimal digits, whose value is an `i64`. Any other text
/// writes none.
pub fn number_of_text(text: &str) -> Option<i64>
    ensures { result ≡ number_in text.now }
{
    text.parse::<i64>().ok()
}
