//! What the copy of the tables answers of one map.
ghost use Rattle.std.specs.Prelude.{◌≡◌, option_map};
ghost use Rattle.std.specs.FinMap as map;
ghost use Rattle.cell_world.specs.Stores.{Store};
ghost use Rattle.global_tables.specs.Known.{known_of};

use cell_world::cells::KeyType;
use cell_world::names::Name;
use global_tables::known::KnownTables;

/// The key type of the map. `None` exactly where no map has the name.
pub fn key_type_of(known: &KnownTables, name: &Name) -> Option<KeyType>
    ensures { (s : Store) → known.now ≡ known_of s → result ≡ option_map (λ m. m.1) (map.get s.maps name.now) }
{
    match known.map(name) {
        None => None,
        Some((_, key_type)) => Some(key_type),
    }
}
