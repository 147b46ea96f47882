//! What accepted questions and commands of connections and rows do, and answer.
ghost use Rattle.std.specs.Prelude.{◌≡◌, ℕ, OnOk, OnErr, IfOk};
ghost use Rattle.std.specs.Option.{option_copied};
ghost use Rattle.plain_model.specs.Steps.{shown_type, shown_mapping, shown_location, mappings_of_map, shards_of_map, with_connection, connection_to, shown_row};
ghost use Rattle.plain_map.specs.Asking.{Accepts, Answers};
ghost use Rattle.plain_tables.specs.State.{state_of, connections_of, link_shown};

use cell_world::cells::KeyType;
use cell_world::items::{Items, RowBytes};
use cell_world::key_texts::KeyText;
use cell_world::locations::Location;
use cell_world::memory::Memory;
use cell_world::names::Name;
use cell_world::norm_keys::NormKey;
use cell_world::operations::Piece;
use plain_model::commands::Command;
use plain_model::replies::Reply;
use plain_tables::changes::{drop_link, drop_row, put_link, put_row};
use plain_tables::named::row_of;
use plain_tables::state::{Link, PlainTables};
use std::alloc::{AllocError, Global};
use std::collections::BTreeMap;

/// Where a mapping is, as it is told.
fn shown_location(piece: &Option<Piece>) -> Reply
    ensures { result ≡ shown_location piece.now }
{
    match piece {
        Some(piece) => Reply::At(piece.location),
        None => Reply::Ok,
    }
}

/// A mapping, as it is told.
fn shown_mapping(keys: KeyType, piece: &Option<Piece>) -> Reply
    ensures { result ≡ shown_mapping keys piece.now }
{
    match piece {
        Some(piece) => Reply::Mapping(keys, *piece),
        None => Reply::Ok,
    }
}

/// A live connection to a key at its owner's location.
fn connection_to(name: &Name, key: &Option<NormKey>, piece: &Option<Piece>) -> Option<Link>
    ensures { link_shown result ≡ connection_to name.now key.now piece.now }
{
    match (key, piece) {
        (Some(key), Some(piece)) => Some(Link {
            map: *name,
            key: *key,
            location: piece.location,
            live: true,
        }),
        _ => None,
    }
}

/// The session's connection of this number is this one, or none.
fn set_link(
    links: &mut BTreeMap<(u32, u32), Link>,
    session: u32,
    number: u32,
    link: &Option<Link>,
) -> Result<(), Memory>
    ensures ok { OnOk result (connections_of links.new ≡ with_connection (connections_of links.old) session number (link_shown link.now)) }
    ensures err { OnErr result (connections_of links.new ≡ connections_of links.old) }
{
    match link {
        Some(link) => put_link(links, session, number, link),
        None => {
            drop_link(links, session, number);
            Ok(())
        }
    }
}

/// The bytes of a row, as they are told.
fn shown_row(alloc: Global, bytes: Option<&RowBytes>) -> Result<Reply, Memory>
    ensures { IfOk result (λ reply. reply ≡ shown_row (option_copied bytes.entry)) }
{
    match bytes {
        Some(bytes) => Ok(Reply::Row(bytes.copied(alloc)?)),
        None => Ok(Reply::Ok),
    }
}

/// The type with which keys of a map are shown.
fn shown_type(plain: &PlainTables, name: &Name) -> KeyType
    ensures { result ≡ shown_type (state_of plain.now) name.now }
{
    plain.type_of_map(name).unwrap_or(KeyType::Int)
}

/// The mappings of a map, in key order.
fn pieces_of(plain: &PlainTables, name: &Name) -> Result<Vec<Piece>, AllocError>
    ensures { IfOk result (λ found. found.items ≡ mappings_of_map (state_of plain.now) name.now) }
{
    plain
        .pieces()
        .filter(|piece| name.cmp(&piece.map).is_eq())
        .copied()
        .collect(plain.alloc)
}

/// The shards of a map, in byte order.
fn shards_of(plain: &PlainTables, name: &Name) -> Result<Vec<Location>, AllocError>
    ensures { IfOk result (λ found. found.items ≡ shards_of_map (state_of plain.now) name.now) }
{
    plain
        .all_shards()
        .filter_map(|shard| {
            if name.cmp(&shard.0).is_eq() {
                Some(shard.1)
            } else {
                None
            }
        })
        .collect(plain.alloc)
}

pub fn do_find(plain: &PlainTables, name: &Name, key: &KeyText) -> Result<Reply, Memory>
    ensures { (i : ℕ) → Answers (state_of plain.now) i (Command.Find name.now key.now) result }
{
    let piece = plain.mapping_of(name, key);
    Ok(shown_mapping(shown_type(plain, name), &piece))
}

pub fn do_list(plain: &PlainTables, name: &Name) -> Result<Reply, Memory>
    ensures { (i : ℕ) → Answers (state_of plain.now) i (Command.List name.now) result }
{
    let keys = shown_type(plain, name);
    match pieces_of(plain, name) {
        Ok(found) => Ok(Reply::Mappings(keys, Items::from_vec(found))),
        Err(_) => Err(Memory),
    }
}

pub fn do_shards(plain: &PlainTables, name: &Name) -> Result<Reply, Memory>
    ensures { (i : ℕ) → Answers (state_of plain.now) i (Command.Shards name.now) result }
{
    match shards_of(plain, name) {
        Ok(found) => Ok(Reply::Shards(Items::from_vec(found))),
        Err(_) => Err(Memory),
    }
}

pub fn do_open(
    plain: &mut PlainTables,
    session: u32,
    number: u32,
    name: &Name,
    key: &KeyText,
) -> Result<Reply, Memory>
    ensures { Accepts (state_of plain.old) session (Command.Open number name.now key.now) (state_of plain.new) result }
{
    let piece = plain.mapping_of(name, key);
    let link = connection_to(name, &plain.key_in(name, key), &piece);
    set_link(&mut plain.links, session, number, &link)?;
    Ok(shown_location(&piece))
}

pub fn do_close(plain: &mut PlainTables, session: u32, number: u32) -> Result<Reply, Memory>
    ensures { Accepts (state_of plain.old) session (Command.Close number) (state_of plain.new) result }
{
    drop_link(&mut plain.links, session, number);
    Ok(Reply::Ok)
}

pub fn do_put(
    plain: &mut PlainTables,
    session: u32,
    number: u32,
    table: &Name,
    id: u64,
    bytes: &RowBytes,
) -> Result<Reply, Memory>
    ensures { Accepts (state_of plain.old) session (Command.Put number table.now id bytes.now) (state_of plain.new) result }
{
    let link = plain.link_at(session, number);
    if let Some(link) = link {
        let row = row_of(&link, table, id);
        let copy = bytes.copied(plain.alloc)?;
        put_row(&mut plain.rows, &row, copy)?;
    }
    Ok(Reply::Ok)
}

pub fn do_get(
    plain: &PlainTables,
    session: u32,
    number: u32,
    table: &Name,
    id: u64,
) -> Result<Reply, Memory>
    ensures { Answers (state_of plain.now) session (Command.Get number table.now id) result }
{
    let link = plain.link_at(session, number);
    match link {
        Some(link) => shown_row(plain.alloc, plain.row_at(&row_of(&link, table, id))),
        None => Ok(Reply::Ok),
    }
}

pub fn do_del(
    plain: &mut PlainTables,
    session: u32,
    number: u32,
    table: &Name,
    id: u64,
) -> Result<Reply, Memory>
    ensures { Accepts (state_of plain.old) session (Command.Del number table.now id) (state_of plain.new) result }
{
    let link = plain.link_at(session, number);
    if let Some(link) = link {
        drop_row(&mut plain.rows, &row_of(&link, table, id));
    }
    Ok(Reply::Ok)
}
