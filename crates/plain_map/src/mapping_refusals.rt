//! The refusals of mappings, in order.
ghost use Rattle.std.specs.Prelude.{◌≡◌, ℕ};
ghost use Rattle.cell_world.specs.declared.cells.Token.{Token as AToken};
ghost use Rattle.plain_model.specs.Refusing.{checks, first_refusal};
ghost use Rattle.plain_tables.specs.State.{state_of};

use crate::checks::{
    bad_key, bad_range, bad_split, detached, first, has_token, locked, no_location, no_map,
    no_mapping, not_a_shard, not_locked, not_mergeable, not_offline, overlap, rows_present,
    same_shard, same_status_already, unresolved, wrong_kind,
};
use cell_world::cells::{MapKind, Status, Token};
use cell_world::key_texts::KeyText;
use cell_world::locations::Location;
use cell_world::names::Name;
use plain_model::commands::{Command, HighText};
use plain_model::replies::Refusal;
use plain_tables::named::{location_of_mapping, point_at};
use plain_tables::state::PlainTables;

pub fn add_refusal(
    plain: &PlainTables,
    name: &Name,
    low: &KeyText,
    high: &HighText,
    location: &Location,
) -> Option<Refusal>
    ensures { (i : ℕ) → result ≡ first_refusal (checks (state_of plain.now) i (Command.Add name.now low.now high.now location.now)) }
{
    let range = plain.range_in(name, low, high);
    let at = Some(*location);
    first(&[
        no_map(plain, name),
        wrong_kind(plain, name, MapKind::Range),
        bad_key(&range),
        bad_range(&plain.key_in(name, low), &plain.high_in(name, high)),
        no_location(plain, location),
        not_a_shard(plain, name, location),
        detached(plain, &at),
        unresolved(plain, &at),
        overlap(plain, name, &range),
    ])
}

pub fn addpoint_refusal(
    plain: &PlainTables,
    name: &Name,
    key: &KeyText,
    location: &Location,
) -> Option<Refusal>
    ensures { (i : ℕ) → result ≡ first_refusal (checks (state_of plain.now) i (Command.Addpoint name.now key.now location.now)) }
{
    let key = plain.key_in(name, key);
    let at = Some(*location);
    first(&[
        no_map(plain, name),
        wrong_kind(plain, name, MapKind::List),
        bad_key(&key),
        no_location(plain, location),
        not_a_shard(plain, name, location),
        detached(plain, &at),
        unresolved(plain, &at),
        overlap(plain, name, &point_at(key)),
    ])
}

pub fn delete_refusal(
    plain: &PlainTables,
    name: &Name,
    key: &KeyText,
    token: &Option<Token>,
) -> Option<Refusal>
    ensures { (i : ℕ) → result ≡ first_refusal (checks (state_of plain.now) i (Command.Delete name.now key.now token.now)) }
{
    let piece = plain.mapping_of(name, key);
    let at = location_of_mapping(&piece);
    first(&[
        no_map(plain, name),
        bad_key(&plain.key_in(name, key)),
        no_mapping(&piece),
        detached(plain, &at),
        unresolved(plain, &at),
        locked(token, &piece),
        not_offline(&piece),
        rows_present(plain, &piece),
    ])
}

pub fn offline_refusal(
    plain: &PlainTables,
    name: &Name,
    key: &KeyText,
    token: &Option<Token>,
) -> Option<Refusal>
    ensures { (i : ℕ) → result ≡ first_refusal (checks (state_of plain.now) i (Command.Offline name.now key.now token.now)) }
{
    let piece = plain.mapping_of(name, key);
    let at = location_of_mapping(&piece);
    first(&[
        no_map(plain, name),
        bad_key(&plain.key_in(name, key)),
        no_mapping(&piece),
        detached(plain, &at),
        unresolved(plain, &at),
        locked(token, &piece),
        same_status_already(Status::Offline, &piece),
    ])
}

pub fn online_refusal(
    plain: &PlainTables,
    name: &Name,
    key: &KeyText,
    token: &Option<Token>,
) -> Option<Refusal>
    ensures { (i : ℕ) → result ≡ first_refusal (checks (state_of plain.now) i (Command.Online name.now key.now token.now)) }
{
    let piece = plain.mapping_of(name, key);
    let at = location_of_mapping(&piece);
    first(&[
        no_map(plain, name),
        bad_key(&plain.key_in(name, key)),
        no_mapping(&piece),
        detached(plain, &at),
        unresolved(plain, &at),
        locked(token, &piece),
        same_status_already(Status::Online, &piece),
    ])
}

pub fn move_refusal(
    plain: &PlainTables,
    name: &Name,
    key: &KeyText,
    location: &Location,
    token: &Option<Token>,
) -> Option<Refusal>
    ensures { (i : ℕ) → result ≡ first_refusal (checks (state_of plain.now) i (Command.Move name.now key.now location.now token.now)) }
{
    let piece = plain.mapping_of(name, key);
    let from = location_of_mapping(&piece);
    let to = Some(*location);
    first(&[
        no_map(plain, name),
        bad_key(&plain.key_in(name, key)),
        no_mapping(&piece),
        detached(plain, &from),
        unresolved(plain, &from),
        locked(token, &piece),
        no_location(plain, location),
        not_a_shard(plain, name, location),
        detached(plain, &to),
        unresolved(plain, &to),
        same_shard(location, &piece),
        not_offline(&piece),
        rows_present(plain, &piece),
    ])
}

pub fn split_refusal(
    plain: &PlainTables,
    name: &Name,
    key: &KeyText,
    token: &Option<Token>,
) -> Option<Refusal>
    ensures { (i : ℕ) → result ≡ first_refusal (checks (state_of plain.now) i (Command.Split name.now key.now token.now)) }
{
    let piece = plain.mapping_of(name, key);
    let at = location_of_mapping(&piece);
    first(&[
        no_map(plain, name),
        wrong_kind(plain, name, MapKind::Range),
        bad_key(&plain.key_in(name, key)),
        no_mapping(&piece),
        detached(plain, &at),
        unresolved(plain, &at),
        locked(token, &piece),
        bad_split(&plain.key_in(name, key), &piece),
    ])
}

pub fn merge_refusal(
    plain: &PlainTables,
    name: &Name,
    key: &KeyText,
    token: &Option<Token>,
) -> Option<Refusal>
    ensures { (i : ℕ) → result ≡ first_refusal (checks (state_of plain.now) i (Command.Merge name.now key.now token.now)) }
{
    let piece = plain.mapping_of(name, key);
    let at = location_of_mapping(&piece);
    first(&[
        no_map(plain, name),
        wrong_kind(plain, name, MapKind::Range),
        bad_key(&plain.key_in(name, key)),
        no_mapping(&piece),
        detached(plain, &at),
        unresolved(plain, &at),
        locked(token, &piece),
        not_mergeable(plain, &piece),
    ])
}

pub fn lock_refusal(plain: &PlainTables, name: &Name, key: &KeyText) -> Option<Refusal>
    ensures { (i : ℕ) (token : AToken) → result ≡ first_refusal (checks (state_of plain.now) i (Command.Lock name.now key.now token)) }
{
    let piece = plain.mapping_of(name, key);
    let at = location_of_mapping(&piece);
    first(&[
        no_map(plain, name),
        bad_key(&plain.key_in(name, key)),
        no_mapping(&piece),
        detached(plain, &at),
        unresolved(plain, &at),
        has_token(&piece),
    ])
}

pub fn unlock_refusal(
    plain: &PlainTables,
    name: &Name,
    key: &KeyText,
    token: Token,
) -> Option<Refusal>
    ensures { (i : ℕ) → result ≡ first_refusal (checks (state_of plain.now) i (Command.Unlock name.now key.now token)) }
{
    let piece = plain.mapping_of(name, key);
    let at = location_of_mapping(&piece);
    first(&[
        no_map(plain, name),
        bad_key(&plain.key_in(name, key)),
        no_mapping(&piece),
        detached(plain, &at),
        unresolved(plain, &at),
        not_locked(&piece),
        locked(&Some(token), &piece),
    ])
}
