//! Locations of shards.
ghost use Rattle.std.specs.Prelude.{◌≡◌};
ghost use Rattle.record_form.specs.Reading.{Gives};
ghost use Rattle.record_form.specs.Fields.{fits_part, location_next, location_at};
ghost use Rattle.record_form.specs.declared.locations.InLocation.TheVariants.{Server, Database};

use crate::numbers::byte;
use crate::stops::Stop;
use crate::texts::{Steps, text};
use cell_world::locations::Location;

/// How much of a location was read: so many bytes of its server, or of its database.
#[derive(Clone, Copy)]
pub(crate) enum InLocation {
    Server(usize),
    Database(usize),
}

/// Whether the byte may stand after so many bytes of a server or a database.
fn fits_part(before: usize, byte: u8) -> bool
    ensures { result ≡ fits_part before byte }
{
    let first = matches!(byte, b'A'..=b'Z' | b'a'..=b'z' | b'0'..=b'9');
    if before == 0 {
        first
    } else {
        first || matches!(byte, b'_' | b'-' | b'.')
    }
}

/// Where a byte of the server leads: a slash to the database, if 1 to 64 bytes are left for it.
fn server_step(before: usize, left: usize, byte: u8) -> Option<InLocation>
    ensures { result ≡ location_next left (Server before) byte }
{
    if byte == b'/' {
        if before < 1 || left < 1 || 64 < left {
            return None;
        }
        return Some(InLocation::Database(0));
    }
    if !fits_part(before, byte) || left < 2 || 64 <= before || 128 - before < left {
        return None;
    }
    Some(InLocation::Server(before + 1))
}

/// Where a byte of the database leads, however many bytes are left for it.
fn database_step(before: usize, _left: usize, byte: u8) -> Option<InLocation>
    ensures { result ≡ location_next _left (Database before) byte }
{
    if !fits_part(before, byte) || 64 <= before {
        return None;
    }
    Some(InLocation::Database(before + 1))
}

impl Steps for InLocation {
    ghost next = { location_next };

    fn step(self, left: usize, byte: u8) -> Option<InLocation> {
        match self {
            InLocation::Server(before) => server_step(before, left, byte),
            InLocation::Database(before) => database_step(before, left, byte),
        }
    }
}

/// A location: one length byte from 3 to 129, and then its bytes.
#[tactic(auto, unfolding(crate::specs::Fields::location_at))]
pub(crate) fn location(input: &mut &[u8]) -> Result<Location, Stop>
    ensures { Gives location_at input.old.now input.new.now result }
{
    let len = byte(input, 3, 129)?;
    let bytes = text(input, len as usize, InLocation::Server(0))?;
    Ok(Location::read(bytes).unwrap())
}
