//! Writes numbers and names. When memory is refused to one of these calls, a part of what it writes may stand in the text.
ghost use Rattle.std.specs.Prelude.{◌≡◌, ◌∷◌, ◌++◌, [], decimal, string_bytes, OnOk};
ghost use Rattle.std.specs.Fmt.{signed_decimal};
ghost use Rattle.std.specs.List.{list_all};
ghost use Rattle.gate_record.specs.Names.{name_text};
ghost use Rattle.gate_line.specs.Inner.Plain.{is_plain};
ghost use Rattle.gate_line.specs.Words.{spaced_number};

use gate_record::{Memory, name_text};
use itoa::Buffer;
use std::alloc::Global;

/// Adds a number to a text, in decimal digits.
pub fn push_number(out: &mut String, number: u64) -> Result<(), Memory>
    ensures { OnOk result (string_bytes out.new ≡ string_bytes out.old ++ decimal number) }
{
    let mut digits = Buffer::new();
    out.push_str(digits.format(number))?;
    Ok(())
}

/// Adds a space and a number, in decimal digits, to a text.
pub fn push_spaced(out: &mut String, number: u64) -> Result<(), Memory>
    ensures { OnOk result (string_bytes out.new ≡ string_bytes out.old ++ spaced_number number) }
{
    out.push_str(" ")?;
    push_number(out, number)
}

/// Adds a number to a text, in decimal digits, with a `-` before them if the number is negative.
pub fn push_signed(out: &mut String, number: i64) -> Result<(), Memory>
    ensures { OnOk result (string_bytes out.new ≡ string_bytes out.old ++ signed_decimal number) }
{
    let mut digits = Buffer::new();
    out.push_str(digits.format(number))?;
    Ok(())
}

/// Adds a name to a text as JSON: in quotes, with control characters, quotes and backslashes escaped.
pub fn push_name(out: &mut String, alloc: Global, name: &str) -> Result<(), Memory>
    ensures { OnOk result (string_bytes out.new ≡ string_bytes out.old ++ name_text name.now) }
{
    if is_plain(name) {
        return push_quoted(out, name);
    }
    let name = name_text(alloc, name)?;
    out.push_str(name.as_str())?;
    Ok(())
}

// Returns whether a name has nothing to escape. Most names have nothing.
fn is_plain(name: &str) -> bool
    ensures { result ≡ list_all is_plain name.now }
{
    name.as_bytes()
        .iter()
        .all(|byte| *byte >= b' ' && *byte != b'"' && *byte != b'\\')
}

fn push_quoted(out: &mut String, text: &str) -> Result<(), Memory>
    ensures { OnOk result (string_bytes out.new ≡ string_bytes out.old ++ (34 ∷ (text.now ++ 34 ∷ []))) }
{
    out.push_str("\"")?;
    out.push_str(text)?;
    out.push_str("\"")?;
    Ok(())
}
