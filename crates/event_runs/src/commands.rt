//! Commands on mappings, in the map of the tests.
ghost use Rattle.std.specs.Prelude.{◌≡◌, IfOk, true};
ghost use Rattle.map_ops.specs.Planning.{is_asked};

use crate::words::{map, word};
use cell_world::cells::Token;
use cell_world::locations::Location;
use plain_model::commands::{Command, HighText};
use std::test::Fail;

/// The token of the tests.
pub const TOKEN: Token = Token(1 << 64);

/// `add m LOW HIGH LOCATION`.
pub fn add(low: &[u8], high: &[u8], at: Location) -> Result<Command, Fail>
    ensures { IfOk result (λ command. is_asked command ≡ true) }
{
    let high = HighText::At(word(high)?);
    Ok(Command::Add(map()?, word(low)?, high, at))
}

/// `offline m KEY`.
pub fn offline(key: &[u8]) -> Result<Command, Fail>
    ensures { IfOk result (λ command. is_asked command ≡ true) }
{
    Ok(Command::Offline(map()?, word(key)?, None))
}

/// `online m KEY`.
pub fn online(key: &[u8]) -> Result<Command, Fail>
    ensures { IfOk result (λ command. is_asked command ≡ true) }
{
    Ok(Command::Online(map()?, word(key)?, None))
}

/// `delete m KEY`.
pub fn delete(key: &[u8]) -> Result<Command, Fail>
    ensures { IfOk result (λ command. is_asked command ≡ true) }
{
    Ok(Command::Delete(map()?, word(key)?, None))
}

/// `move m KEY LOCATION`.
pub fn move_to(key: &[u8], at: Location) -> Result<Command, Fail>
    ensures { IfOk result (λ command. is_asked command ≡ true) }
{
    Ok(Command::Move(map()?, word(key)?, at, None))
}

/// `split m KEY`, with a token or without.
pub fn split(key: &[u8], token: Option<Token>) -> Result<Command, Fail>
    ensures { IfOk result (λ command. is_asked command ≡ true) }
{
    Ok(Command::Split(map()?, word(key)?, token))
}

/// `merge m KEY`.
pub fn merge(key: &[u8]) -> Result<Command, Fail>
    ensures { IfOk result (λ command. is_asked command ≡ true) }
{
    Ok(Command::Merge(map()?, word(key)?, None))
}

/// `lock m KEY TOKEN`.
pub fn lock(key: &[u8]) -> Result<Command, Fail>
    ensures { IfOk result (λ command. is_asked command ≡ true) }
{
    Ok(Command::Lock(map()?, word(key)?, TOKEN))
}

/// `unlock m KEY TOKEN`.
pub fn unlock(key: &[u8]) -> Result<Command, Fail>
    ensures { IfOk result (λ command. is_asked command ≡ true) }
{
    Ok(Command::Unlock(map()?, word(key)?, TOKEN))
}
