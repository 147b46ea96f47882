//! Where the tables are kept: in memory, or in files.
ghost use Rattle.std.specs.Prelude.{◌≡◌, Bool, true, false, IfOk};
ghost use Rattle.std.proofs.Common.{refl, sym, true≢false};
ghost use Rattle.sqlite.proofs.Callers.{memory_is_clean};
ghost use Rattle.sqlite_site.specs.Kept.{IsSteady, IsNew};

use crate::refused::Refused;
use sqlite::{Alter, Connection, File, FileStore, MemStore};
use std::alloc::Global;

/// A kind of store, and how a connection to one is opened again.
pub trait Keeping: Alter + Drop {
    /// What tells one store of the kind from the others.
    type Place: Drop;

    /// Whether a store of the kind tells its cells: it always does its part, and is new where it is opened.
    ghost tells: { Bool };

    /// Opens the store at a place, and makes its table where there is none.
    fn open(alloc: Global, place: &Self::Place) -> Result<Connection<Self>, Refused>
        ensures { tells ≡ true → IfOk result (λ conn. IsNew Self.Store conn) };

    /// Lets the connection go and opens the store anew, where that may change what it shows. After an error there may
    /// be no connection.
    fn reopen(
        conn: &mut Option<Connection<Self>>,
        alloc: Global,
        place: &Self::Place,
    ) -> Result<(), Refused>
        ensures { tells ≡ true → conn.new ≡ conn.old };

    /// A store that tells its cells has always done its part, and is open.
    ghost steady: { tells ≡ true → IsSteady Self.Store };
}

/// Where the file of a site is.
#[derive(Drop)]
pub struct Path {
    pub rt: HostRuntime,
    pub path: String,
}

impl Keeping for MemStore {
    type Place = ();

    ghost tells = { true };

    ghost steady = { λ _ h. (memory_is_clean h, refl) };

    fn open(alloc: Global, _place: &()) -> Result<Connection<MemStore>, Refused> {
        let Ok(mut conn) = Connection::open_in_memory(alloc) else {
            return Err(Refused::Memory);
        };
        cell_table::create(&mut conn)?;
        Ok(conn)
    }

    fn reopen(
        _conn: &mut Option<Connection<MemStore>>,
        _alloc: Global,
        _place: &(),
    ) -> Result<(), Refused> {
        Ok(())
    }
}

/// Makes the table where there is none. What there is stays.
fn make_missing<S: Alter>(conn: &mut Connection<S>) -> Result<(), Refused> {
    conn.execute(
        "CREATE TABLE IF NOT EXISTS cells (t INTEGER NOT NULL, k BLOB NOT NULL, v BLOB NOT NULL, PRIMARY KEY (t, k)) STRICT",
        &[],
    )?;
    Ok(())
}

impl Keeping for FileStore<File> {
    type Place = Path;

    ghost tells = { false };

    ghost steady = { λ e _. absurd (true≢false (sym e)) };

    fn open(_alloc: Global, place: &Path) -> Result<Connection<FileStore<File>>, Refused> {
        let mut conn = Connection::open(&place.rt, place.path.as_str())?;
        make_missing(&mut conn)?;
        Ok(conn)
    }

    fn reopen(
        conn: &mut Option<Connection<FileStore<File>>>,
        alloc: Global,
        place: &Path,
    ) -> Result<(), Refused> {
        *conn = None;
        *conn = Some(Self::open(alloc, place)?);
        Ok(())
    }
}
