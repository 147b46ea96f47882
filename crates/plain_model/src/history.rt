//! What was asked and answered, in order.
ghost use Rattle.std.specs.Prelude.{◌≡◌, ◌+◌, ◌≤◌, ◌++◌, ◌∷◌, [], length, OnOk, OnErr};

use crate::commands::Command;
use crate::replies::Reply;
use cell_world::memory::Memory;
use std::alloc::Global;
use std::marker::Model;

/// One command of a session, or one committed step of its job.
#[derive(Drop)]
pub struct Entry {
    /// From 1.
    pub session: u32,
    pub command: Command,
    /// None for a step of a job, whose command has its reply later.
    pub reply: Option<Reply>,
    /// How much had happened when the entry was made: the length of the trail.
    pub moment: u64,
    /// The operation that it commits or abandons, or 0.
    pub operation: u64,
}

/// Entries in order. Contracts see them as a list.
#[derive(Drop)]
pub struct History {
    entries: Vec<Entry>,
}

impl Model for History {
    ghost use Rattle.std.specs.Prelude.{List};
    ghost use Rattle.plain_model.specs.declared.history.Entry.{Entry};

    ghost Value = { List Entry };

    ghost view = { λ history. history.entries.items };
}

impl History {
    /// Without entries. Takes no memory.
    pub fn new(alloc: Global) -> History
        ensures { result ≡ [] }
    {
        History {
            entries: Vec::new(alloc),
        }
    }

    /// The number of entries.
    pub fn len(&self) -> usize
        ensures { result ≡ length self.now }
    {
        self.entries.len()
    }

    /// The entries, in order.
    pub fn as_slice(&self) -> &[Entry]
        ensures { result.now ≡ self.now }
    {
        self.entries.as_slice()
    }
}

/// A history that grows, and the room that was made for entries to come. Contracts see the entries and the room.
#[derive(Drop)]
pub struct Journal {
    kept: Vec<Entry>,
}

impl Model for Journal {
    ghost use Rattle.std.specs.Prelude.{◌-◌};
    ghost use Rattle.std.specs.Vec.{vec_len, vec_capacity};
    ghost use Rattle.plain_model.specs.Journals.{Journaled};

    ghost Value = { Journaled };

    ghost view = { λ journal. record { entries = journal.kept.items; room = vec_capacity journal.kept - vec_len journal.kept } };
}

impl Journal {
    /// Without entries and without room. Takes no memory.
    pub fn new(alloc: Global) -> Journal
        ensures { result.entries ≡ [] }
    {
        Journal {
            kept: Vec::new(alloc),
        }
    }

    /// The number of entries.
    pub fn len(&self) -> usize
        ensures { result ≡ length self.now.entries }
    {
        self.kept.len()
    }

    /// The entries, in order.
    pub fn as_slice(&self) -> &[Entry]
        ensures { result.now ≡ self.now.entries }
    {
        self.kept.as_slice()
    }

    /// Makes room for so many entries more. `Memory` leaves the room as it was.
    pub fn make_room(&mut self, more: usize) -> Result<(), Memory>
        ensures entries { self.new.entries ≡ self.old.entries }
        ensures ok { OnOk result (more ≤ self.new.room) }
        ensures err { OnErr result (self.new.room ≡ self.old.room) }
    {
        self.kept.reserve(more)?;
        Ok(())
    }

    /// Adds an entry at the end, where there is room. Takes no memory.
    pub fn push(&mut self, entry: Entry)
        requires { 1 ≤ self.old.room }
        ensures entries { self.new.entries ≡ self.old.entries ++ entry ∷ [] }
        ensures room { self.new.room + 1 ≡ self.old.room }
    {
        self.kept.push_reserved(entry);
    }

    /// The history of these entries. Takes no memory.
    pub fn into_history(self) -> History
        ensures { result ≡ self.entries }
    {
        History { entries: self.kept }
    }
}
