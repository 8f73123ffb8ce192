//! When numbers of 32 bits come to their end: the only cases but allocations in which the typer wants memory.

ghost use Rattle.std.specs.Prelude.{◌≡◌, ◌+◌, ◌<◌, ◌≤◌, ◌^◌, IfErr, IfOk};

use ep_int::Memory;

/// The number behind this one.
pub fn one_behind(n: u32) -> Result<u32, Memory>
    ensures next { IfOk result (λ m. m ≡ n + 1) }
    ensures full { IfErr result (λ _. 2 ^ 32 ≤ n + 1) }
{
    match n.checked_add(1) {
        Some(next) => Ok(next),
        None => Err(Memory),
    }
}

/// A count as a number.
pub fn as_number(count: usize) -> Result<u32, Memory>
    ensures number { IfOk result (λ n. n ≡ count) }
    ensures full { IfErr result (λ _. 2 ^ 32 ≤ count) }
{
    match u32::try_from(count) {
        Ok(n) => Ok(n),
        Err(_) => Err(Memory),
    }
}

/// Whether a table of so many rows takes another.
pub fn has_room(rows: u32) -> Result<(), Memory>
    ensures room { IfOk result (λ _. rows < 2 ^ 31) }
    ensures full { IfErr result (λ _. 2 ^ 31 ≤ rows) }
{
    if rows >= 1 << 31 {
        return Err(Memory);
    }
    Ok(())
}
