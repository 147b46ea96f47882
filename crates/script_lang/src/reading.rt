//! The bytes of the script.
ghost use Rattle.std.specs.Prelude.{◌≡◌, ◌≤◌, ◌<◌, [], length, option_map, IfOk, IsErrOf};
ghost use Rattle.cell_world.specs.Counts.{Rose};
ghost use Rattle.script_lang.specs.Sources.{script_limit, IfTold, HasMore, TookAtMost};

use cell_world::outside::{Source, SourceError};
use std::alloc::Global;

/// The most bytes of a script.
const SCRIPT_BYTES: usize = 1_048_576;

/// How many bytes are asked for at once.
const BUFFER_BYTES: usize = 4_096;

/// Why a script wasn't read.
#[derive(Clone, Copy, Debug, PartialEq, Eq)]
pub enum ReadStop {
    /// The source failed.
    Fault,
    /// It gave more bytes than a script may have.
    TooLong,
    /// Want of memory.
    Memory,
}

/// All bytes of the source, where they are no more than a script may have. Each turn but the last takes at least one.
pub fn read_all<S: Source>(alloc: Global, source: &mut S) -> Result<Vec<u8>, ReadStop>
    ensures all { IfOk result (λ bytes. IfTold (S.left source.old) bytes.items) }
    ensures drained { IfOk result (λ bytes. S.left source.new ≡ option_map (λ b. []) (S.left source.old)) }
    ensures short { IfOk result (λ bytes. length bytes.items ≤ script_limit) }
    ensures long { IsErrOf result ReadStop.TooLong → HasMore script_limit (S.left source.old) }
    ensures fault { IsErrOf result ReadStop.Fault → Rose (S.faults source.old) (S.faults source.new) }
    ensures in_time { IsErrOf result ReadStop.Fault → TookAtMost script_limit (S.left source.old) (S.left source.new) }
    ensures falls { S.faults source.old ≤ S.faults source.new }
{
    let Ok(mut buffer) = vec![in alloc; 0u8; BUFFER_BYTES] else {
        return Err(ReadStop::Memory);
    };
    let mut bytes: Vec<u8> = Vec::new(alloc);
    loop {
        match source.take(alloc, &mut buffer) {
            Err(SourceError::Failed) => return Err(ReadStop::Fault),
            Err(SourceError::Memory) => return Err(ReadStop::Memory),
            Ok(0) => return Ok(bytes),
            Ok(taken) => {
                if taken > SCRIPT_BYTES - bytes.len() {
                    return Err(ReadStop::TooLong);
                }
                if bytes.extend_from_slice(&buffer[..taken]).is_err() {
                    return Err(ReadStop::Memory);
                }
            }
        }
    }
}
