//! The scanner.
ghost use Rattle.std.specs.Prelude.{◌≡◌, Some, IsTrue, OnOk, IfErr};
ghost use Rattle.text_scan.specs.Walks.{accepts};
ghost use Rattle.text_scan.specs.Places.{IsPlace};

use crate::machine::Machine;

/// Reads the whole text. `Ok` where it is a text of the machine's grammar, `Err` with the place at which no text of the grammar goes on. Takes no memory, and a step a byte.
pub fn scan<M: Machine>(text: &[u8]) -> Result<(), usize>
    ensures ok { OnOk result (IsTrue (accepts M.next M.is_end (Some M.first) text.now)) }
    ensures err { IfErr result (IsPlace (accepts M.next M.is_end (Some M.first)) text.now) }
{
    let mut state = M::start();
    for (place, byte) in text.iter().enumerate() {
        match state.step(*byte) {
            Some(after) => state = after,
            None => return Err(place),
        }
    }
    if state.ends() {
        Ok(())
    } else {
        Err(text.len())
    }
}
