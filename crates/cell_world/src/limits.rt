//! The limits of the project, each once: code, clauses and definitions cite them.

/// The longest name, in bytes.
pub const NAME_BYTES: usize = 32;

/// The longest server or database of a location, in bytes.
pub const PART_BYTES: usize = 64;

/// The longest location, in bytes: two parts and the `/` between them.
pub const LOCATION_BYTES: usize = 129;

/// The longest key as it is written, in bytes.
pub const KEY_TEXT_BYTES: usize = 300;

/// The longest key in its normal form, in bytes.
pub const KEY_BYTES: usize = 128;

/// The longest value of a row, in bytes.
pub const ROW_BYTES: usize = 1024;

/// The most locations of a world.
pub const MOST_LOCATIONS: usize = 64;

/// The most maps that stand.
pub const MOST_MAPS: usize = 64;

/// The most tables of a map.
pub const MOST_TABLES: usize = 16;

/// The most jobs that stand.
pub const MOST_JOBS: usize = 64;

/// The last number that a job is given.
pub const LAST_JOB: u32 = 4_294_967_294;

/// The most rows of one batch of a job. The least is 1.
pub const BATCH_ROWS: u32 = 100_000;
