//! Collects the numbers of those texts of a column that pass a test.
ghost use Rattle.std.specs.Prelude.{◌≡◌, ◌+◌, ◌++◌, ◌∷◌, [], IfOk, OnOk, if◌then◌else◌};

use gate_record::Memory;

/// Counts one more text: returns its number, `last + 1`, and adds that number to `ids` if the text passes. `Memory` also means
/// that the number would be 2^32.
#[inline]
pub fn number_text(ids: &mut Vec<u32>, last: u32, passes: bool) -> Result<u32, Memory>
    ensures next { IfOk result (λ next. next ≡ last + 1) }
    ensures ids { IfOk result (λ next. ids.new.items ≡ (if passes then ids.old.items ++ next ∷ [] else ids.old.items)) }
{
    let Some(next) = last.checked_add(1) else {
        return Err(Memory);
    };
    if !passes {
        return Ok(next);
    }
    ids.push(next)?;
    Ok(next)
}
