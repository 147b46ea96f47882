//! What is true of each value of the types of cells and keys. The calls do nothing.
ghost use Rattle.cell_world.specs.Spelled.{IsToken, IsMarkValue, IsLocalRow, IsRowName, AreCounters, IsTypedKey, IsTyped};

use crate::cells::{Cell, CellKey, Counters, LocalRow, Mark, RowName, Token};

impl Token {
    /// Tells what is true of each value of the type. Does nothing.
    pub fn known(&self)
        ensures { IsToken self.now }
    {
        let _number = self.0;
    }
}

impl Mark {
    /// Tells what is true of each value of the type. Does nothing.
    pub fn known(&self)
        ensures { IsMarkValue self.now }
    {
        if let Mark::Old(number) = self {
            let _number = *number;
        }
    }
}

impl Counters {
    /// Tells what is true of each value of the type. Does nothing.
    pub fn known(&self)
        ensures { AreCounters self.now }
    {
        let _operation = self.operation;
        let _job = self.job;
    }
}

impl LocalRow {
    /// Tells what is true of each value of the type. Does nothing.
    pub fn known(&self)
        ensures { IsLocalRow self.now }
    {
        let _number = self.number;
        self.map.known();
        self.span.known();
        self.mark.known();
    }
}

impl RowName {
    /// Tells what is true of each value of the type. Does nothing.
    pub fn known(&self)
        ensures { IsRowName self.now }
    {
        let _number = self.number;
        self.map.known();
        self.key.known();
        self.table.known();
    }
}

impl CellKey {
    /// Tells what is true of each value of the type. Does nothing.
    pub fn known(&self)
        ensures { IsTypedKey self.now }
    {
        match self {
            CellKey::Map(name) => name.known(),
            CellKey::Shard(name, location) => {
                name.known();
                location.known();
            }
            CellKey::Table(name, table) => {
                name.known();
                table.known();
            }
            CellKey::Piece(name, low) => {
                name.known();
                low.known();
            }
            CellKey::Log(number) => {
                let _number = *number;
            }
            CellKey::Job(number) => {
                let _number = *number;
            }
            CellKey::Counter => {}
            CellKey::SiteState(location) => location.known(),
            CellKey::Local(name, low, number) => {
                let _number = *number;
                name.known();
                low.known();
            }
            CellKey::Row(row) => row.known(),
        }
    }
}

impl Cell {
    /// Tells what is true of each value of the type. Does nothing.
    pub fn known(&self)
        ensures { IsTyped self.now }
    {
        match self {
            Cell::Map(name, _, _) => name.known(),
            Cell::Shard(name, location) => {
                name.known();
                location.known();
            }
            Cell::Table(name, table) => {
                name.known();
                table.known();
            }
            Cell::Piece(piece) => piece.known(),
            Cell::Log(op) => op.known(),
            Cell::Job(job) => job.known(),
            Cell::Counter(counters) => counters.known(),
            Cell::SiteState(location, _) => location.known(),
            Cell::Local(row) => row.known(),
            Cell::Row(row, bytes) => {
                row.known();
                bytes.known();
            }
        }
    }
}
