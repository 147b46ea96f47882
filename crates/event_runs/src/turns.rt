//! What sessions do by turns, as tables of the tests have it.
ghost use Rattle.std.specs.Prelude.{◌≡◌, IfOk, true};
ghost use Rattle.map_ops.specs.Planning.{is_asked};

use crate::commands::{add, delete, lock, merge, move_to, offline, online, split, unlock};
use crate::words::{here, there};
use plain_model::commands::Command;
use std::alloc::Global;
use std::test::Fail;

/// What is asked of the mapping of a key.
#[derive(Clone, Copy)]
pub enum Verb {
    Offline,
    Online,
    Delete,
    /// To `s/b`.
    MoveThere,
    Split,
    Merge,
    Lock,
    Unlock,
}

/// What a session does.
#[derive(Clone, Copy)]
pub enum Turn {
    /// Asks `add m LOW HIGH s/a`.
    Add(u32, u32),
    /// Asks this of the mapping of the key.
    Ask(Verb, u32),
    /// Asks `list m`.
    List,
    /// Asks `shards m`.
    Shards,
    /// Makes one step more of what it has going.
    Go,
    /// Goes on until its command ends.
    GoOn,
}

/// The command on the mapping of a key, without a token where it may have one.
fn command_on(verb: Verb, key: &[u8]) -> Result<Command, Fail>
    ensures { IfOk result (λ command. is_asked command ≡ true) }
{
    match verb {
        Verb::Offline => offline(key),
        Verb::Online => online(key),
        Verb::Delete => delete(key),
        Verb::MoveThere => move_to(key, there()?),
        Verb::Split => split(key, None),
        Verb::Merge => merge(key),
        Verb::Lock => lock(key),
        Verb::Unlock => unlock(key),
    }
}

/// The command on the mapping of the key that is this number.
pub fn on_key(alloc: Global, verb: Verb, key: u32) -> Result<Command, Fail>
    ensures { IfOk result (λ command. is_asked command ≡ true) }
{
    let key = format!(in alloc; "{key}")?;
    command_on(verb, key.as_bytes())
}

/// `add m LOW HIGH s/a`.
pub fn add_here(alloc: Global, low: u32, high: u32) -> Result<Command, Fail>
    ensures { IfOk result (λ command. is_asked command ≡ true) }
{
    let low = format!(in alloc; "{low}")?;
    let high = format!(in alloc; "{high}")?;
    add(low.as_bytes(), high.as_bytes(), here()?)
}
