//! Bytes added to what is written. Each call answers `Memory` where there is no room; then what was added isn't told.
ghost use Rattle.std.specs.Prelude.{◌≡◌, ◌++◌, ◌∷◌, [], decimal, OnOk};

use cell_world::memory::Memory;
use std::alloc::Global;

/// Adds bytes.
pub(crate) fn add(line: &mut Vec<u8>, bytes: &[u8]) -> Result<(), Memory>
    ensures { OnOk result (line.new.items ≡ line.old.items ++ bytes.now) }
{
    line.extend_from_slice(bytes)?;
    Ok(())
}

/// Adds a number in decimal.
pub(crate) fn add_number(alloc: Global, line: &mut Vec<u8>, number: u64) -> Result<(), Memory>
    ensures { OnOk result (line.new.items ≡ line.old.items ++ decimal number) }
{
    let text = format!(in alloc; "{number}")?;
    add(line, text.as_bytes())
}
