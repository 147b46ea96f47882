//! What a live connection gives the laws of rows. Each law is the contract of a function that does nothing.
ghost use Rattle.std.specs.Prelude.{IsTrue};
ghost use Rattle.cell_world.specs.Keys.{is_among};
ghost use Rattle.cell_world.specs.Images.{Image};
ghost use Rattle.cell_world.specs.Plain.{Connection};
ghost use Rattle.cell_world.specs.Meaning.{meaning};
ghost use Rattle.connections.specs.Links.{IsOwned};
ghost use Rattle.connection_laws.specs.Keeping.{HasOwner};

/// The key of an owned connection, whose location the world knows, has an owner that is there, online, at an attached site. That the world knows it is asked for: a sound image doesn't say so of the locations of its mappings.
pub fn owned_connections_have_owners()
    ensures { (image : Image) (c : Connection) → IsOwned (meaning image) c → IsTrue (is_among image.locations c.location) → HasOwner image c }
{}
