//! The table of one store's cells in `sqlite`: four statements with parameters, over any store.
//!
//! A row has the kind of the cell, its key and its value, as bytes. What they spell isn't known here.
#![tactic(auto)]

ghost use Rattle.std.specs.Prelude.{◌≡◌, ◌++◌, ℕ, ℤ, false, Some, None, option_map, [], ◌∷◌, List, map, IsTrue, IfOk, OnOk, OnErr};
ghost use Rattle.cell_table.specs.Cells.{cells_schema, no_schema, Entry, row_of, IsFloor, IsScan, Holds, look, others, IsMade, AreMade};
ghost use Rattle.sqlite_value.specs.declared.value.Value.TheVariants.{Blob};
ghost use Rattle.sqlite.specs.Held.{state};
ghost use Rattle.sqlite.specs.State.{HasCleanDisk, KeepsCommit, Survives};

use sqlite::types::ValueRef;
use sqlite::{Alter, Connection, Error, Row, Transaction, params};

/// Makes the table in an empty database. After an error there is none.
pub fn create<S: Alter>(conn: &mut Connection<S>) -> Result<usize, Error>
    requires { (state S.Store conn.old).now.schema ≡ no_schema }
    ensures empty { HasCleanDisk (state S.Store conn.new) → OnOk result (Holds (state S.Store conn.new).now []) }
    ensures mode { HasCleanDisk (state S.Store conn.new) → OnOk result ((state S.Store conn.new).in_transaction ≡ (state S.Store conn.old).in_transaction) }
{
    conn.execute(
        "CREATE TABLE cells (t INTEGER NOT NULL, k BLOB NOT NULL, v BLOB NOT NULL, PRIMARY KEY (t, k)) STRICT",
        &[],
    )
}

/// The row of the kind with the greatest key at or below this one, if any: its key and its value.
pub fn floor<S: Alter>(conn: &mut Connection<S>, kind: u32, key: &[u8]) -> Result<Vec<Row>, Error>
    ensures rows { HasCleanDisk (state S.Store conn.new) → IfOk result (λ rows. (all : List Entry) → Holds (state S.Store conn.old).now all → IsFloor all kind key.now rows.items) }
    ensures same { HasCleanDisk (state S.Store conn.new) → IsTrue (state S.Store conn.new).is_open → (state S.Store conn.old).in_transaction ≡ false → (state S.Store conn.old).now.schema ≡ cells_schema → (state S.Store conn.new).now ≡ (state S.Store conn.old).now }
    ensures mode { (state S.Store conn.old).in_transaction ≡ false → (state S.Store conn.new).in_transaction ≡ false }
{
    let _settled = conn.is_autocommit();
    conn.query_all(
        "SELECT k, v FROM cells WHERE t = ?1 AND k <= ?2 ORDER BY k DESC LIMIT 1",
        params![kind, key],
    )
}

/// The rows of the kind with keys at or above this one, in the order of their keys: `limit` of them, or all where
/// there are fewer. Each is its key and its value.
pub fn scan<S: Alter>(
    conn: &mut Connection<S>,
    kind: u32,
    key: &[u8],
    limit: u32,
) -> Result<Vec<Row>, Error>
    ensures rows { HasCleanDisk (state S.Store conn.new) → IfOk result (λ rows. (all : List Entry) → Holds (state S.Store conn.old).now all → IsScan all kind key.now limit rows.items) }
    ensures same { HasCleanDisk (state S.Store conn.new) → IsTrue (state S.Store conn.new).is_open → (state S.Store conn.old).in_transaction ≡ false → (state S.Store conn.old).now.schema ≡ cells_schema → (state S.Store conn.new).now ≡ (state S.Store conn.old).now }
    ensures mode { (state S.Store conn.old).in_transaction ≡ false → (state S.Store conn.new).in_transaction ≡ false }
{
    let _settled = conn.is_autocommit();
    conn.query_all(
        "SELECT k, v FROM cells WHERE t = ?1 AND k >= ?2 ORDER BY k LIMIT ?3",
        params![kind, key, limit],
    )
}

/// The value of a row that has this key.
fn value_at(row: &Row, key: &[u8]) -> Result<Option<Vec<u8>>, Error>
    ensures there { IfOk result (λ v. (w : List ℕ) → row.now ≡ Blob key.now ∷ Blob w ∷ [] → option_map (λ b. b.items) v ≡ Some w) }
    ensures other { IfOk result (λ v. (k w : List ℕ) → row.now ≡ Blob k ∷ Blob w ∷ [] → (k ≡ key.now → ⊥) → option_map (λ b. b.items) v ≡ None) }
{
    match row.get_ref(0)? {
        ValueRef::Blob(found) if found == key => Ok(Some(row.get(1)?)),
        _ => Ok(None),
    }
}

/// The value of the row of this kind and key.
pub fn read<S: Alter>(
    conn: &mut Connection<S>,
    kind: u32,
    key: &[u8],
) -> Result<Option<Vec<u8>>, Error>
    ensures value { HasCleanDisk (state S.Store conn.new) → IfOk result (λ v. (all : List Entry) → Holds (state S.Store conn.old).now all → option_map (λ b. b.items) v ≡ look all kind key.now) }
    ensures same { HasCleanDisk (state S.Store conn.new) → IsTrue (state S.Store conn.new).is_open → (state S.Store conn.old).in_transaction ≡ false → (state S.Store conn.old).now.schema ≡ cells_schema → (state S.Store conn.new).now ≡ (state S.Store conn.old).now }
    ensures mode { (state S.Store conn.old).in_transaction ≡ false → (state S.Store conn.new).in_transaction ≡ false }
{
    let rows = floor(conn, kind, key)?;
    match rows.as_slice().first() {
        Some(row) => value_at(row, key),
        None => Ok(None),
    }
}

/// The row of this kind and key has this value, whether or not there was one before.
pub fn put<S: Alter>(
    conn: &mut Connection<S>,
    kind: u32,
    key: &[u8],
    value: &[u8],
) -> Result<usize, Error>
    ensures { HasCleanDisk (state S.Store conn.new) → OnOk result ((all : List Entry) → Holds (state S.Store conn.old).now all
        → (id : ℤ) × Holds (state S.Store conn.new).now (others kind key.now all ++ record { id = id; kind = kind; key = key.now; value = value.now } ∷ [])) }
{
    conn.execute(
        "INSERT OR REPLACE INTO cells (t, k, v) VALUES (?1, ?2, ?3)",
        params![kind, key, value],
    )
}

/// No row is of this kind and key.
pub fn delete<S: Alter>(conn: &mut Connection<S>, kind: u32, key: &[u8]) -> Result<usize, Error>
    ensures { HasCleanDisk (state S.Store conn.new) → OnOk result ((all : List Entry) → Holds (state S.Store conn.old).now all → Holds (state S.Store conn.new).now (others kind key.now all)) }
{
    conn.execute(
        "DELETE FROM cells WHERE t = ?1 AND k = ?2",
        params![kind, key],
    )
}

/// What a change does to one row: its new value, or `None` where it goes.
#[derive(Debug, Drop)]
pub struct Op {
    pub kind: u32,
    pub key: Vec<u8>,
    pub value: Option<Vec<u8>>,
}

/// Makes one of a change's puts and deletes.
fn make<S: Alter>(tx: &mut Transaction<'_, S>, op: &Op) -> Result<usize, Error>
    ensures same_reference { tx.new.conn.ghost_name ≡ tx.old.conn.ghost_name }
    ensures made { HasCleanDisk (state S.Store tx.new.conn.now) → OnOk result ((all : List Entry) → Holds (state S.Store tx.old.conn.now).now all → (next : List Entry) × IsMade op.now all next × Holds (state S.Store tx.new.conn.now).now next) }
    ensures inside { HasCleanDisk (state S.Store tx.new.conn.now) → IsTrue (state S.Store tx.old.conn.now).in_transaction → OnOk result (IsTrue (state S.Store tx.new.conn.now).in_transaction) }
    ensures kept { HasCleanDisk (state S.Store tx.new.conn.now) → KeepsCommit (state S.Store tx.old.conn.now) (state S.Store tx.new.conn.now) }
    ensures survives { Survives (state S.Store tx.old.conn.now) (state S.Store tx.new.conn.now) (λ _. ⊥) }
{
    match &op.value {
        Some(value) => tx.execute(
            "INSERT OR REPLACE INTO cells (t, k, v) VALUES (?1, ?2, ?3)",
            params![op.kind, &op.key, value],
        ),
        None => tx.execute(
            "DELETE FROM cells WHERE t = ?1 AND k = ?2",
            params![op.kind, &op.key],
        ),
    }
}

/// Makes them in order, up to the first that is refused.
fn make_all<S: Alter>(tx: &mut Transaction<'_, S>, ops: &[Op]) -> Result<(), Error>
    ensures same_reference { tx.new.conn.ghost_name ≡ tx.old.conn.ghost_name }
    ensures made { HasCleanDisk (state S.Store tx.new.conn.now) → OnOk result ((all : List Entry) → Holds (state S.Store tx.old.conn.now).now all → (next : List Entry) × AreMade ops.now all next × Holds (state S.Store tx.new.conn.now).now next) }
    ensures inside { HasCleanDisk (state S.Store tx.new.conn.now) → IsTrue (state S.Store tx.old.conn.now).in_transaction → OnOk result (IsTrue (state S.Store tx.new.conn.now).in_transaction) }
    ensures kept { HasCleanDisk (state S.Store tx.new.conn.now) → KeepsCommit (state S.Store tx.old.conn.now) (state S.Store tx.new.conn.now) }
    ensures survives { Survives (state S.Store tx.old.conn.now) (state S.Store tx.new.conn.now) (λ _. ⊥) }
{
    'each: for op in ops {
        make(tx, op)?;
    }
    Ok(())
}

/// Makes all of the puts and deletes in turn, in one transaction, or none of them. After an error none is made, or
/// the connection is shut, and each later call is refused.
pub fn change<S: Alter>(conn: &mut Connection<S>, ops: &[Op]) -> Result<(), Error>
    requires { (state S.Store conn.old).in_transaction ≡ false }
    ensures made { HasCleanDisk (state S.Store conn.new) → OnOk result ((all : List Entry) → Holds (state S.Store conn.old).now all → (next : List Entry) × AreMade ops.now all next × Holds (state S.Store conn.new).now next) }
    ensures unmade { HasCleanDisk (state S.Store conn.new) → IsTrue (state S.Store conn.new).is_open → OnErr result (((state S.Store conn.new).now ≡ (state S.Store conn.old).now) × ((state S.Store conn.new).committed ≡ (state S.Store conn.old).committed)) }
    ensures idle { (state S.Store conn.new).in_transaction ≡ false }
{
    let _settled = conn.is_autocommit();
    let mut tx = conn.transaction();
    make_all(&mut tx, ops)?;
    tx.commit()
}
