//! What a command reaches, and which operations are in its way.
ghost use Rattle.std.specs.Prelude.{◌≡◌};
ghost use Rattle.cell_world.specs.Operations as operation;

use crate::sites::is_site_of;
use cell_world::operations::{Op, Reach};

/// Whether what a command reaches conflicts with a logged operation: a span of its map that overlaps its hull, a shard of its map or a site that is one of its sites. Takes no memory.
pub fn conflicts(reach: &Reach, logged: &Op) -> bool
    ensures { result ≡ operation.conflicts reach.now logged.now }
{
    match reach {
        Reach::Nothing => false,
        Reach::Part(name, span) => name.cmp(&logged.map).is_eq() && span.overlaps(&logged.hull),
        Reach::Shard(name, location) => name.cmp(&logged.map).is_eq()
            && is_site_of(logged, location),
        Reach::Whole(location) => is_site_of(logged, location),
    }
}

/// What an operation reaches: its hull. Takes no memory.
pub fn reach_of(op: &Op) -> Reach
    ensures { result ≡ operation.reach_of op.now }
{
    Reach::Part(op.map, op.hull)
}
