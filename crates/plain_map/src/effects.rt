//! What accepted commands do to maps, shards, tables and mappings.
ghost use Rattle.std.specs.Prelude.{ℕ, Option};
ghost use Rattle.cell_world.specs.declared.cells.Token.{Token as AToken};
ghost use Rattle.plain_map.specs.Asking.{Accepts};
ghost use Rattle.plain_tables.specs.State.{state_of};

use cell_world::cells::{KeyType, MapKind, Status, Token};
use cell_world::key_texts::KeyText;
use cell_world::locations::Location;
use cell_world::memory::Memory;
use cell_world::names::Name;
use plain_model::commands::{Command, HighText};
use plain_model::replies::Reply;
use plain_tables::changes::{
    drop_map, drop_shard, drop_tables, end_under, put_map, put_shard, put_table,
};
use plain_tables::exchanges::{added, cut_at, removed, with_location, with_status, with_token};
use plain_tables::named::point_at;
use plain_tables::state::PlainTables;

pub fn do_map(
    plain: &mut PlainTables,
    name: &Name,
    kind: MapKind,
    keys: KeyType,
) -> Result<Reply, Memory>
    ensures { (i : ℕ) → Accepts (state_of plain.old) i (Command.Map name.now kind keys) (state_of plain.new) result }
{
    put_map(&mut plain.maps, name, kind, keys)?;
    Ok(Reply::Ok)
}

pub fn do_unmap(plain: &mut PlainTables, name: &Name) -> Result<Reply, Memory>
    ensures { (i : ℕ) → Accepts (state_of plain.old) i (Command.Unmap name.now) (state_of plain.new) result }
{
    drop_map(&mut plain.maps, name);
    drop_tables(&mut plain.tables, name);
    Ok(Reply::Ok)
}

pub fn do_shard(plain: &mut PlainTables, name: &Name, location: &Location) -> Result<Reply, Memory>
    ensures { (i : ℕ) → Accepts (state_of plain.old) i (Command.Shard name.now location.now) (state_of plain.new) result }
{
    put_shard(&mut plain.shards, name, location)?;
    Ok(Reply::Ok)
}

pub fn do_unshard(
    plain: &mut PlainTables,
    name: &Name,
    location: &Location,
) -> Result<Reply, Memory>
    ensures { (i : ℕ) → Accepts (state_of plain.old) i (Command.Unshard name.now location.now) (state_of plain.new) result }
{
    drop_shard(&mut plain.shards, name, location);
    Ok(Reply::Ok)
}

pub fn do_table(plain: &mut PlainTables, name: &Name, table: &Name) -> Result<Reply, Memory>
    ensures { (i : ℕ) → Accepts (state_of plain.old) i (Command.Table name.now table.now) (state_of plain.new) result }
{
    put_table(&mut plain.tables, name, table)?;
    Ok(Reply::Ok)
}

pub fn do_add(
    plain: &mut PlainTables,
    name: &Name,
    low: &KeyText,
    high: &HighText,
    location: &Location,
) -> Result<Reply, Memory>
    ensures { (i : ℕ) → Accepts (state_of plain.old) i (Command.Add name.now low.now high.now location.now) (state_of plain.new) result }
{
    let range = plain.range_in(name, low, high);
    plain.exchange(&added(name, location, &range))?;
    Ok(Reply::Ok)
}

pub fn do_addpoint(
    plain: &mut PlainTables,
    name: &Name,
    key: &KeyText,
    location: &Location,
) -> Result<Reply, Memory>
    ensures { (i : ℕ) → Accepts (state_of plain.old) i (Command.Addpoint name.now key.now location.now) (state_of plain.new) result }
{
    let point = point_at(plain.key_in(name, key));
    plain.exchange(&added(name, location, &point))?;
    Ok(Reply::Ok)
}

pub fn do_delete(plain: &mut PlainTables, name: &Name, key: &KeyText) -> Result<Reply, Memory>
    ensures { (i : ℕ) (token : Option AToken) → Accepts (state_of plain.old) i (Command.Delete name.now key.now token) (state_of plain.new) result }
{
    let piece = plain.mapping_of(name, key);
    plain.exchange(&removed(&piece))?;
    Ok(Reply::Ok)
}

pub fn do_offline(plain: &mut PlainTables, name: &Name, key: &KeyText) -> Result<Reply, Memory>
    ensures { (i : ℕ) (token : Option AToken) → Accepts (state_of plain.old) i (Command.Offline name.now key.now token) (state_of plain.new) result }
{
    let piece = plain.mapping_of(name, key);
    plain.exchange(&with_status(Status::Offline, &piece))?;
    end_under(&mut plain.links, &piece);
    Ok(Reply::Ok)
}

pub fn do_online(plain: &mut PlainTables, name: &Name, key: &KeyText) -> Result<Reply, Memory>
    ensures { (i : ℕ) (token : Option AToken) → Accepts (state_of plain.old) i (Command.Online name.now key.now token) (state_of plain.new) result }
{
    let piece = plain.mapping_of(name, key);
    plain.exchange(&with_status(Status::Online, &piece))?;
    Ok(Reply::Ok)
}

pub fn do_move(
    plain: &mut PlainTables,
    name: &Name,
    key: &KeyText,
    location: &Location,
) -> Result<Reply, Memory>
    ensures { (i : ℕ) (token : Option AToken) → Accepts (state_of plain.old) i (Command.Move name.now key.now location.now token) (state_of plain.new) result }
{
    let piece = plain.mapping_of(name, key);
    plain.exchange(&with_location(location, &piece))?;
    Ok(Reply::Ok)
}

pub fn do_split(plain: &mut PlainTables, name: &Name, key: &KeyText) -> Result<Reply, Memory>
    ensures { (i : ℕ) (token : Option AToken) → Accepts (state_of plain.old) i (Command.Split name.now key.now token) (state_of plain.new) result }
{
    let piece = plain.mapping_of(name, key);
    let key = plain.key_in(name, key);
    plain.exchange(&cut_at(&key, &piece))?;
    Ok(Reply::Ok)
}

pub fn do_merge(plain: &mut PlainTables, name: &Name, key: &KeyText) -> Result<Reply, Memory>
    ensures { (i : ℕ) (token : Option AToken) → Accepts (state_of plain.old) i (Command.Merge name.now key.now token) (state_of plain.new) result }
{
    let piece = plain.mapping_of(name, key);
    let exchange = plain.merged_with_next(&piece);
    plain.exchange(&exchange)?;
    Ok(Reply::Ok)
}

pub fn do_lock(
    plain: &mut PlainTables,
    name: &Name,
    key: &KeyText,
    token: Token,
) -> Result<Reply, Memory>
    ensures { (i : ℕ) → Accepts (state_of plain.old) i (Command.Lock name.now key.now token) (state_of plain.new) result }
{
    let piece = plain.mapping_of(name, key);
    plain.exchange(&with_token(Some(token), &piece))?;
    Ok(Reply::Ok)
}

pub fn do_unlock(plain: &mut PlainTables, name: &Name, key: &KeyText) -> Result<Reply, Memory>
    ensures { (i : ℕ) (token : AToken) → Accepts (state_of plain.old) i (Command.Unlock name.now key.now token) (state_of plain.new) result }
{
    let piece = plain.mapping_of(name, key);
    plain.exchange(&with_token(None, &piece))?;
    Ok(Reply::Ok)
}
