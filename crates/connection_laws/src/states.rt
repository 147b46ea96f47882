//! States that connections don't tell apart. Each law is the contract of a function that does nothing.
ghost use Rattle.std.specs.Prelude.{◌≡◌};
ghost use Rattle.cell_world.specs.Stores.{Rows};
ghost use Rattle.cell_world.specs.Plain.{PlainState, Connection, Connections, nobody};
ghost use Rattle.connections.specs.Links.{IsOwned, AreOwned};

/// In a new run nobody is connected, so each connection is owned.
pub fn nobody_is_owned()
    ensures { (s : PlainState) → AreOwned s nobody }
{}

/// Whether connections are owned turns on maps, mappings and site states alone: what leaves these leaves it.
pub fn other_parts_mean_nothing()
    ensures one { (s t : PlainState) → t.maps ≡ s.maps → t.mappings ≡ s.mappings → t.away ≡ s.away → (c : Connection) → IsOwned s c → IsOwned t c }
    ensures all { (s t : PlainState) → t.maps ≡ s.maps → t.mappings ≡ s.mappings → t.away ≡ s.away → (connections : Connections) → AreOwned s connections → AreOwned t connections }
    ensures rows { (s : PlainState) (rows : Rows) (connections : Connections) → AreOwned s connections → AreOwned (record s { rows = rows }) connections }
{}
