//! The connections of all sessions.
ghost use Rattle.std.specs.Prelude.{◌≡◌, length, Some, IfOk};
ghost use Rattle.cell_world.specs.Plain.{nobody};
ghost use Rattle.plain_model.specs.Steps.{ended_under, ended_where};
ghost use Rattle.connections.specs.Links.{is_to, is_under, of_sessions};

use crate::table::Connections;
use cell_world::locations::Location;
use cell_world::memory::Memory;
use cell_world::names::Name;
use cell_world::operations::Piece;
use cell_world::spans::Span;
use std::alloc::Global;

/// The connections of all sessions.
#[derive(Drop)]
pub struct Connected {
    /// Each session's, that of session 1 first.
    pub sessions: Vec<Connections>,
}

impl Connected {
    /// So many sessions, none of them with a connection.
    pub fn new(alloc: Global, sessions: u32) -> Result<Connected, Memory>
        ensures nobody { IfOk result (λ connected. of_sessions connected.sessions.items ≡ nobody) }
        ensures sessions { IfOk result (λ connected. length connected.sessions.items ≡ sessions) }
    {
        let mut tables: Vec<Connections> = Vec::new(alloc);
        for _ in 0..sessions {
            tables.push(Connections::new())?;
        }
        Ok(Connected { sessions: tables })
    }

    /// Each connection to a key of the span in the map is ended.
    pub fn end_span(&mut self, map: &Name, span: &Span)
        ensures ended { of_sessions self.new.sessions.items ≡ ended_where (is_under map.now span.now) (of_sessions self.old.sessions.items) }
        ensures sessions { length self.new.sessions.items ≡ length self.old.sessions.items }
    {
        for table in self.sessions.iter_mut() {
            table.end_span(map, span);
        }
    }

    /// Each connection to the location is ended.
    pub fn end_site(&mut self, at: &Location)
        ensures ended { of_sessions self.new.sessions.items ≡ ended_where (is_to at.now) (of_sessions self.old.sessions.items) }
        ensures sessions { length self.new.sessions.items ≡ length self.old.sessions.items }
    {
        for table in self.sessions.iter_mut() {
            table.end_site(at);
        }
    }

    /// Each connection to a key of the mapping is ended.
    pub fn end_under(&mut self, piece: &Piece)
        ensures ended { of_sessions self.new.sessions.items ≡ ended_under (Some piece.now) (of_sessions self.old.sessions.items) }
        ensures sessions { length self.new.sessions.items ≡ length self.old.sessions.items }
    {
        self.end_span(&piece.map, &piece.span);
    }
}
