//! Mappings, the long operations that change them, and the jobs that move them.
ghost use Rattle.cell_world.specs.Spelled.{IsPiece, ArePieces, IsPhase, IsJob, IsExtra, IsOp};

use crate::cells::{Status, Token};
use crate::locations::Location;
use crate::names::Name;
use crate::norm_keys::NormKey;
use crate::spans::{High, Span};

/// A mapping: the location owns the keys of the span.
#[derive(Clone, Copy, PartialEq, Eq)]
pub struct Piece {
    pub map: Name,
    /// The keys that it binds.
    pub span: Span,
    /// Where they are.
    pub location: Location,
    pub status: Status,
    /// Its lock, if it has one.
    pub token: Option<Token>,
}

impl Piece {
    /// Tells what is true of each value of the type. Does nothing.
    pub fn known(&self)
        ensures { IsPiece self.now }
    {
        self.map.known();
        self.span.known();
        self.location.known();
        if let Some(token) = &self.token {
            token.known();
        }
    }
}

/// At most two mappings. In a cell there is a second one only beside a first; of two the lower is the first in a lawful operation.
#[derive(Clone, Copy, PartialEq, Eq)]
pub struct Pieces {
    pub one: Option<Piece>,
    pub two: Option<Piece>,
}

impl Pieces {
    /// Tells what is true of each value of the type. Does nothing.
    pub fn known(&self)
        ensures { ArePieces self.now }
    {
        if let Some(piece) = &self.one {
            piece.known();
        }
        if let Some(piece) = &self.two {
            piece.known();
        }
    }
}

/// Where a job's batch from the cursor on stands.
#[derive(Clone, Copy, PartialEq, Eq)]
pub enum Phase {
    /// No batch is under way.
    Idle,
    /// The rows from the cursor up to this end are copied to the target.
    Copying(High),
    /// They belong to the target, and are deleted at the source.
    Moved(High),
}

impl Phase {
    /// Tells what is true of each value of the type. Does nothing.
    pub fn known(&self)
        ensures { IsPhase self.now }
    {
        match self {
            Phase::Idle => {}
            Phase::Copying(end) => end.known(),
            Phase::Moved(end) => end.known(),
        }
    }
}

/// A job that moves the keys of a range from one shard to another, batch by batch.
#[derive(Clone, Copy, PartialEq, Eq)]
pub struct JobRow {
    pub number: u32,
    /// A range map.
    pub map: Name,
    /// The range to be moved, from `low` up to `high`.
    pub low: NormKey,
    pub high: High,
    /// From here.
    pub source: Location,
    /// To there.
    pub target: Location,
    /// The most rows of one batch, from 1 to 100,000.
    pub batch: u32,
    /// What is below it is moved.
    pub cursor: High,
    pub phase: Phase,
}

impl JobRow {
    /// Tells what is true of each value of the type. Does nothing.
    pub fn known(&self)
        ensures { IsJob self.now }
    {
        let _number = self.number;
        let _batch = self.batch;
        self.map.known();
        self.low.known();
        self.high.known();
        self.source.known();
        self.target.known();
        self.cursor.known();
        self.phase.known();
    }
}

/// What an operation does to a job as it commits.
#[derive(Clone, Copy, PartialEq, Eq)]
pub enum Extra {
    None,
    JobPut(JobRow),
    JobDrop(u32),
}

impl Extra {
    /// Tells what is true of each value of the type. Does nothing.
    pub fn known(&self)
        ensures { IsExtra self.now }
    {
        match self {
            Extra::None => {}
            Extra::JobPut(job) => job.known(),
            Extra::JobDrop(number) => {
                let _number = *number;
            }
        }
    }
}

/// A long operation: it replaces old mappings by new ones in several transactions.
#[derive(Clone, Copy, PartialEq, Eq)]
pub struct Op {
    pub number: u64,
    pub map: Name,
    /// The least span over the old and the new mappings.
    pub hull: Span,
    /// The mappings that it replaces.
    pub olds: Pieces,
    /// The mappings that stand afterwards in their place.
    pub news: Pieces,
    /// The job that it goes on with, if it is a step of one.
    pub extra: Extra,
}

impl Op {
    /// Tells what is true of each value of the type. Does nothing.
    pub fn known(&self)
        ensures { IsOp self.now }
    {
        let _number = self.number;
        self.map.known();
        self.hull.known();
        self.olds.known();
        self.news.known();
        self.extra.known();
    }
}

/// What a command touches, as far as operations under way must keep off it.
#[derive(Clone, Copy, PartialEq, Eq)]
pub enum Reach {
    Nothing,
    /// The keys of a span of a map.
    Part(Name, Span),
    /// A shard of a map.
    Shard(Name, Location),
    /// All of a site.
    Whole(Location),
}

/// How far a long operation has come.
#[derive(Clone, Copy, PartialEq, Eq)]
pub enum StageName {
    /// Its log row is put.
    Logged,
    /// The site of the old mappings has its marks.
    SourceDone,
    /// So has the other site of the new mappings.
    TargetDone,
    /// The new mappings have replaced the old ones, and the log row is gone.
    Committed,
    /// Its marks are gone.
    Settled,
}
