//! The refusals of questions, connections and rows, in order.
ghost use Rattle.std.specs.Prelude.{◌≡◌, ℕ};
ghost use Rattle.cell_world.specs.Texts.{Text};
ghost use Rattle.plain_model.specs.Refusing.{checks, first_refusal};
ghost use Rattle.plain_tables.specs.State.{state_of};

use crate::checks::{
    bad_key, detached, ended, first, no_connection, no_map, no_mapping, no_row, no_table,
    number_in_use, owner_offline, unresolved,
};
use cell_world::key_texts::KeyText;
use cell_world::names::Name;
use plain_model::commands::Command;
use plain_model::replies::Refusal;
use plain_tables::named::location_of_mapping;
use plain_tables::state::PlainTables;

pub fn find_refusal(plain: &PlainTables, name: &Name, key: &KeyText) -> Option<Refusal>
    ensures { (i : ℕ) → result ≡ first_refusal (checks (state_of plain.now) i (Command.Find name.now key.now)) }
{
    first(&[
        no_map(plain, name),
        bad_key(&plain.key_in(name, key)),
        no_mapping(&plain.mapping_of(name, key)),
    ])
}

pub fn list_refusal(plain: &PlainTables, name: &Name) -> Option<Refusal>
    ensures { (i : ℕ) → result ≡ first_refusal (checks (state_of plain.now) i (Command.List name.now)) }
{
    first(&[no_map(plain, name)])
}

pub fn shards_refusal(plain: &PlainTables, name: &Name) -> Option<Refusal>
    ensures { (i : ℕ) → result ≡ first_refusal (checks (state_of plain.now) i (Command.Shards name.now)) }
{
    first(&[no_map(plain, name)])
}

pub fn open_refusal(
    plain: &PlainTables,
    session: u32,
    number: u32,
    name: &Name,
    key: &KeyText,
) -> Option<Refusal>
    ensures { result ≡ first_refusal (checks (state_of plain.now) session (Command.Open number name.now key.now)) }
{
    let piece = plain.mapping_of(name, key);
    let at = location_of_mapping(&piece);
    first(&[
        number_in_use(&plain.link_at(session, number)),
        no_map(plain, name),
        bad_key(&plain.key_in(name, key)),
        no_mapping(&piece),
        detached(plain, &at),
        unresolved(plain, &at),
        owner_offline(&piece),
    ])
}

pub fn close_refusal(plain: &PlainTables, session: u32, number: u32) -> Option<Refusal>
    ensures { result ≡ first_refusal (checks (state_of plain.now) session (Command.Close number)) }
{
    first(&[no_connection(&plain.link_at(session, number))])
}

pub fn put_refusal(plain: &PlainTables, session: u32, number: u32, table: &Name) -> Option<Refusal>
    ensures { (id : ℕ) (bytes : Text) → result ≡ first_refusal (checks (state_of plain.now) session (Command.Put number table.now id bytes)) }
{
    let link = plain.link_at(session, number);
    first(&[
        no_connection(&link),
        ended(&link),
        no_table(plain, &link, table),
    ])
}

pub fn get_refusal(
    plain: &PlainTables,
    session: u32,
    number: u32,
    table: &Name,
    id: u64,
) -> Option<Refusal>
    ensures { result ≡ first_refusal (checks (state_of plain.now) session (Command.Get number table.now id)) }
{
    let link = plain.link_at(session, number);
    first(&[
        no_connection(&link),
        ended(&link),
        no_table(plain, &link, table),
        no_row(plain, &link, table, id),
    ])
}

pub fn del_refusal(
    plain: &PlainTables,
    session: u32,
    number: u32,
    table: &Name,
    id: u64,
) -> Option<Refusal>
    ensures { result ≡ first_refusal (checks (state_of plain.now) session (Command.Del number table.now id)) }
{
    let link = plain.link_at(session, number);
    first(&[
        no_connection(&link),
        ended(&link),
        no_table(plain, &link, table),
        no_row(plain, &link, table, id),
    ])
}
