//! Local rows and operations as short lines of numbers, so that a test reads as a table.

/// In the place of a high key: the span is a point.
pub(crate) const POINT: u8 = 255;
/// In the place of a high key: the range is unbounded.
pub(crate) const MAX: u8 = 254;
/// The mark New; 0 is Plain, and another number is Old of the operation of this number.
pub(crate) const NEW: u8 = 9;

/// A local row of the map `m`, with keys of one byte.
#[derive(Clone, Copy)]
pub(crate) struct Line {
    pub low: u8,
    pub high: u8,
    pub number: u8,
    pub online: bool,
    pub mark: u8,
}

/// An online row.
pub(crate) fn on(low: u8, high: u8, number: u8, mark: u8) -> Line {
    Line {
        low,
        high,
        number,
        online: true,
        mark,
    }
}

/// An offline row.
pub(crate) fn off(low: u8, high: u8, number: u8, mark: u8) -> Line {
    Line {
        low,
        high,
        number,
        online: false,
        mark,
    }
}

/// A mapping of an operation.
#[derive(Clone, Copy)]
pub(crate) struct Part {
    pub low: u8,
    pub high: u8,
    pub online: bool,
    /// At the world's location; else at one that it doesn't know.
    pub here: bool,
}

/// An online mapping at the world's location.
pub(crate) fn live(low: u8, high: u8) -> Option<Part> {
    Some(Part {
        low,
        high,
        online: true,
        here: true,
    })
}

/// An offline one.
pub(crate) fn idle(low: u8, high: u8) -> Option<Part> {
    Some(Part {
        low,
        high,
        online: false,
        here: true,
    })
}

/// An offline one elsewhere.
pub(crate) fn away(low: u8, high: u8) -> Option<Part> {
    Some(Part {
        low,
        high,
        online: false,
        here: false,
    })
}

/// Operation 1: its hull, and its old and new mappings.
#[derive(Clone, Copy)]
pub(crate) struct Shape {
    pub low: u8,
    pub high: u8,
    pub old: Option<Part>,
    pub other_old: Option<Part>,
    pub new: Option<Part>,
    pub other_new: Option<Part>,
}

/// An operation with at most one old mapping and one new one.
pub(crate) fn exchange(low: u8, high: u8, old: Option<Part>, new: Option<Part>) -> Shape {
    Shape {
        low,
        high,
        old,
        other_old: None,
        new,
        other_new: None,
    }
}

/// The number of a line: those of different lines differ.
fn code(line: &Line) -> u64 {
    let bit = if line.online { 1u64 } else { 0u64 };
    code_of(
        line.low,
        line.high,
        u64::from(line.number),
        u64::from(line.mark),
        bit,
    )
}

/// The number of a row with these keys, this maker, this mark and this status.
pub(crate) fn code_of(low: u8, high: u8, number: u64, mark: u64, bit: u64) -> u64 {
    let keys = u64::from(low)
        .wrapping_mul(256)
        .wrapping_add(u64::from(high));
    let made = keys.wrapping_mul(256).wrapping_add(number);
    made.wrapping_mul(256)
        .wrapping_add(mark)
        .wrapping_mul(2)
        .wrapping_add(bit)
}

/// Whether these are the numbers of the lines, in order.
pub(crate) fn are(codes: &[u64], lines: &[Line]) -> bool {
    if codes.len() != lines.len() {
        return false;
    }
    for (index, line) in lines.iter().enumerate() {
        if codes[index] != code(line) {
            return false;
        }
    }
    true
}
