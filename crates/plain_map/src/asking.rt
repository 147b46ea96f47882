//! One command of a session.
#![tactic(auto, unfolding(plain_model::specs::Refusing::refusal))]

ghost use Rattle.std.specs.Prelude.{◌≡◌, IfOk, IsTrue};
ghost use Rattle.plain_model.specs.Refusing.{refusal};
ghost use Rattle.plain_map.specs.Asking.{Asks, Accepts, is_built};
ghost use Rattle.plain_tables.specs.State.{state_of, nothing_yet};

use crate::effects::{
    do_add, do_addpoint, do_delete, do_lock, do_map, do_merge, do_move, do_offline, do_online,
    do_shard, do_split, do_table, do_unlock, do_unmap, do_unshard,
};
use crate::map_refusals::{
    map_refusal, shard_refusal, table_refusal, unmap_refusal, unshard_refusal,
};
use crate::mapping_refusals::{
    add_refusal, addpoint_refusal, delete_refusal, lock_refusal, merge_refusal, move_refusal,
    offline_refusal, online_refusal, split_refusal, unlock_refusal,
};
use crate::row_effects::{do_close, do_del, do_find, do_get, do_list, do_open, do_put, do_shards};
use crate::row_refusals::{
    close_refusal, del_refusal, find_refusal, get_refusal, list_refusal, open_refusal, put_refusal,
    shards_refusal,
};
use cell_world::locations::Location;
use cell_world::memory::Memory;
use plain_model::commands::Command;
use plain_model::replies::{Refusal, Reply};
use plain_tables::state::PlainTables;
use std::alloc::Global;

/// Whether the command is built: all are but `peek`, recovery and jobs.
pub fn is_built(command: &Command) -> bool
    ensures { result ≡ is_built command.now }
{
    match command {
        Command::Peek(_, _)
        | Command::Detach(_)
        | Command::Attach(_)
        | Command::Differences(_, _)
        | Command::Resolve(_, _, _, _)
        | Command::Discard(_)
        | Command::Clear(_)
        | Command::Job(_, _, _, _, _)
        | Command::Step(_)
        | Command::Run(_) => false,
        _ => true,
    }
}

/// The refusal that the command gets, if it is refused.
fn refusal(plain: &PlainTables, session: u32, command: &Command) -> Option<Refusal>
    requires { IsTrue (is_built command.now) }
    ensures { result ≡ refusal (state_of plain.now) session command.now }
{
    match command {
        Command::Map(name, _, _) => map_refusal(plain, name),
        Command::Unmap(name) => unmap_refusal(plain, name),
        Command::Shard(name, location) => shard_refusal(plain, name, location),
        Command::Unshard(name, location) => unshard_refusal(plain, name, location),
        Command::Table(name, table) => table_refusal(plain, name, table),
        Command::Add(name, low, high, location) => add_refusal(plain, name, low, high, location),
        Command::Addpoint(name, key, location) => addpoint_refusal(plain, name, key, location),
        Command::Delete(name, key, token) => delete_refusal(plain, name, key, token),
        Command::Offline(name, key, token) => offline_refusal(plain, name, key, token),
        Command::Online(name, key, token) => online_refusal(plain, name, key, token),
        Command::Move(name, key, location, token) => {
            move_refusal(plain, name, key, location, token)
        }
        Command::Split(name, key, token) => split_refusal(plain, name, key, token),
        Command::Merge(name, key, token) => merge_refusal(plain, name, key, token),
        Command::Lock(name, key, _) => lock_refusal(plain, name, key),
        Command::Unlock(name, key, token) => unlock_refusal(plain, name, key, *token),
        Command::Find(name, key) => find_refusal(plain, name, key),
        Command::List(name) => list_refusal(plain, name),
        Command::Shards(name) => shards_refusal(plain, name),
        Command::Open(number, name, key) => open_refusal(plain, session, *number, name, key),
        Command::Close(number) => close_refusal(plain, session, *number),
        Command::Put(number, table, _, _) => put_refusal(plain, session, *number, table),
        Command::Get(number, table, id) => get_refusal(plain, session, *number, table, *id),
        Command::Del(number, table, id) => del_refusal(plain, session, *number, table, *id),
        Command::Peek(_, _)
        | Command::Detach(_)
        | Command::Attach(_)
        | Command::Differences(_, _)
        | Command::Resolve(_, _, _, _)
        | Command::Discard(_)
        | Command::Clear(_)
        | Command::Job(_, _, _, _, _)
        | Command::Step(_)
        | Command::Run(_) => unreachable!(),
    }
}

/// Does an accepted command.
fn accept(plain: &mut PlainTables, session: u32, command: &Command) -> Result<Reply, Memory>
    requires { IsTrue (is_built command.now) }
    ensures { Accepts (state_of plain.old) session command.now (state_of plain.new) result }
{
    match command {
        Command::Map(name, kind, keys) => do_map(plain, name, *kind, *keys),
        Command::Unmap(name) => do_unmap(plain, name),
        Command::Shard(name, location) => do_shard(plain, name, location),
        Command::Unshard(name, location) => do_unshard(plain, name, location),
        Command::Table(name, table) => do_table(plain, name, table),
        Command::Add(name, low, high, location) => do_add(plain, name, low, high, location),
        Command::Addpoint(name, key, location) => do_addpoint(plain, name, key, location),
        Command::Delete(name, key, _) => do_delete(plain, name, key),
        Command::Offline(name, key, _) => do_offline(plain, name, key),
        Command::Online(name, key, _) => do_online(plain, name, key),
        Command::Move(name, key, location, _) => do_move(plain, name, key, location),
        Command::Split(name, key, _) => do_split(plain, name, key),
        Command::Merge(name, key, _) => do_merge(plain, name, key),
        Command::Lock(name, key, token) => do_lock(plain, name, key, *token),
        Command::Unlock(name, key, _) => do_unlock(plain, name, key),
        Command::Find(name, key) => do_find(plain, name, key),
        Command::List(name) => do_list(plain, name),
        Command::Shards(name) => do_shards(plain, name),
        Command::Open(number, name, key) => do_open(plain, session, *number, name, key),
        Command::Close(number) => do_close(plain, session, *number),
        Command::Put(number, table, id, bytes) => {
            do_put(plain, session, *number, table, *id, bytes)
        }
        Command::Get(number, table, id) => do_get(plain, session, *number, table, *id),
        Command::Del(number, table, id) => do_del(plain, session, *number, table, *id),
        Command::Peek(_, _)
        | Command::Detach(_)
        | Command::Attach(_)
        | Command::Differences(_, _)
        | Command::Resolve(_, _, _, _)
        | Command::Discard(_)
        | Command::Clear(_)
        | Command::Job(_, _, _, _, _)
        | Command::Step(_)
        | Command::Run(_) => unreachable!(),
    }
}

/// The plain shard map: a slow program that answers as the plain step does.
#[derive(Drop)]
pub struct PlainMap {
    pub tables: PlainTables,
}

impl PlainMap {
    /// Nothing stands, and these locations are known.
    pub fn empty(alloc: Global, locations: &[Location]) -> Result<PlainMap, Memory>
        ensures { IfOk result (λ made. state_of made.tables ≡ nothing_yet locations.now) }
    {
        let tables = PlainTables::empty(alloc, locations)?;
        Ok(PlainMap { tables })
    }

    /// Asks a command of a session: the tables and the reply are those of the plain step.
    /// `Memory` is want of memory, and changes nothing. Each change takes time by the size of the tables.
    pub fn ask(&mut self, session: u32, command: &Command) -> Result<Reply, Memory>
        requires { IsTrue (is_built command.now) }
        ensures { Asks (state_of self.old.tables) session command.now (state_of self.new.tables) result }
    {
        match refusal(&self.tables, session, command) {
            Some(refusal) => Ok(Reply::Refused(refusal)),
            None => accept(&mut self.tables, session, command),
        }
    }
}
