//! Places as codes of four bytes.
ghost use Rattle.std.specs.Prelude.{◌≡◌, ◌+◌, ◌<◌, ◌≤◌, ◌⊎◌, ℕ, IfOk, OnOk, Some, length, slice_get};
ghost use Rattle.lin_wellformed.specs.Tables.{place_in};

use lin_events::OutOfMemory;

/// The code of a place: one more. A place that has no code is treated as if memory was refused: the list would be too large for any.
pub(crate) fn code_of(place: usize) -> Result<u32, OutOfMemory>
    ensures { IfOk result (λ code. code ≡ place + 1) }
{
    match u32::try_from(place.saturating_add(1)) {
        Ok(code) => Ok(code),
        Err(_) => Err(OutOfMemory),
    }
}

/// The place of a code; none has code 0.
pub(crate) fn place_of(code: u32) -> Option<usize>
    ensures { result ≡ place_in code }
{
    (code as usize).checked_sub(1)
}

/// Makes the list of codes long enough for the index. Where it was not, no code stands.
pub(crate) fn grow(codes: &mut Vec<u32>, at: usize) -> Result<(), OutOfMemory>
    ensures room { OnOk result (at < length codes.new.items) }
    ensures longer { length codes.old.items ≤ length codes.new.items }
    ensures kept { (k code : ℕ) → slice_get codes.new.items k ≡ Some code → (slice_get codes.old.items k ≡ Some code) ⊎ ((length codes.old.items ≤ k) × (code ≡ 0)) }
{
    while codes.len() <= at {
        codes.push(0)?;
    }
    Ok(())
}
