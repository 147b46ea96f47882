//! A session's way to the rows under one key.
ghost use Rattle.std.specs.Prelude.{◌≡◌, false};
ghost use Rattle.connections.specs.Links.{connection, is_under, is_to};

use cell_world::locations::Location;
use cell_world::names::Name;
use cell_world::norm_keys::NormKey;
use cell_world::spans::Span;

/// A session's way to the rows under one key.
#[derive(Clone, Copy, PartialEq, Eq)]
pub struct Link {
    /// The map that was named.
    pub map: Name,
    pub key: NormKey,
    /// The owner's, when it was opened.
    pub location: Location,
    /// False once it was ended.
    pub live: bool,
}

impl Link {
    /// Whether it is to a key of the span in the map.
    pub fn is_under(&self, map: &Name, span: &Span) -> bool
        ensures { result ≡ is_under map.now span.now (connection self.now) }
    {
        map.cmp(&self.map).is_eq() && span.contains(&self.key)
    }

    /// Whether it is to the location.
    pub fn is_to(&self, at: &Location) -> bool
        ensures { result ≡ is_to at.now (connection self.now) }
    {
        self.location.cmp(at).is_eq()
    }

    /// The connection once it was ended.
    pub fn ended(&self) -> Link
        ensures { result ≡ record self.now { live = false } }
    {
        Link {
            live: false,
            ..*self
        }
    }
}
