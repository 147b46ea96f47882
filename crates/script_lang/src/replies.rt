//! Replies as they are written.
ghost use Rattle.std.specs.Prelude.{◌≡◌, ◌++◌, OnOk, IfOk, map, codes, decimal};
ghost use Rattle.cell_world.specs.KeyPrinting.{key_text, bytes_text};
ghost use Rattle.std.specs.List.{flat_map};
ghost use Rattle.plain_model.specs.Lines.{span_words, then_word, refusal_text, numbered, mapping_line, difference_line, lines_of, tag_text, whole_line, reply_lines};
ghost use Rattle.plain_model.specs.declared.replies.Reply.TheVariants as reply;

use crate::adding::{add, add_number};
use crate::key_words::{add_bytes, add_key};
use crate::reply_words::{
    add_difference, add_mapping, add_numbered, add_refusal, add_span, add_word,
};
use cell_world::cells::KeyType;
use cell_world::locations::Location;
use cell_world::memory::Memory;
use cell_world::norm_keys::NormKey;
use cell_world::operations::Piece;
use cell_world::spans::Span;
use plain_model::replies::{Difference, Refusal, Reply};
use std::alloc::Global;

/// Adds what stands before each line: the session's number and a space, where lines are tagged.
fn add_tag(alloc: Global, line: &mut Vec<u8>, tag: Option<u32>) -> Result<(), Memory>
    ensures { OnOk result (line.new.items ≡ line.old.items ++ tag_text tag) }
{
    match tag {
        None => Ok(()),
        Some(session) => {
            add_number(alloc, line, u64::from(session))?;
            add(line, b" ")
        }
    }
}

/// Adds a mapping's whole line.
fn add_mapping_line(
    alloc: Global,
    lines: &mut Vec<u8>,
    tag: Option<u32>,
    keys: KeyType,
    piece: &Piece,
) -> Result<(), Memory>
    ensures { OnOk result (lines.new.items ≡ lines.old.items ++ whole_line tag (mapping_line keys piece.now)) }
{
    add_tag(alloc, lines, tag)?;
    add_mapping(alloc, lines, keys, piece)?;
    add(lines, b"\n")
}

/// Adds a difference's whole line.
fn add_difference_line(
    alloc: Global,
    lines: &mut Vec<u8>,
    tag: Option<u32>,
    keys: KeyType,
    difference: &Difference,
) -> Result<(), Memory>
    ensures { OnOk result (lines.new.items ≡ lines.old.items ++ whole_line tag (difference_line keys difference.now)) }
{
    add_tag(alloc, lines, tag)?;
    add_difference(alloc, lines, keys, difference)?;
    add(lines, b"\n")
}

/// Adds a location's whole line.
fn add_location_line(
    alloc: Global,
    lines: &mut Vec<u8>,
    tag: Option<u32>,
    location: &Location,
) -> Result<(), Memory>
    ensures { OnOk result (lines.new.items ≡ lines.old.items ++ whole_line tag location.now) }
{
    add_tag(alloc, lines, tag)?;
    add(lines, location.as_slice())?;
    add(lines, b"\n")
}

/// Adds a whole line of a word and a number.
fn add_count_line(
    alloc: Global,
    lines: &mut Vec<u8>,
    tag: Option<u32>,
    word: &[u8],
    count: u64,
) -> Result<(), Memory>
    ensures { OnOk result (lines.new.items ≡ lines.old.items ++ whole_line tag (numbered word.now count)) }
{
    add_tag(alloc, lines, tag)?;
    add_numbered(alloc, lines, word, count)?;
    add(lines, b"\n")
}

/// Adds a whole line.
fn add_line(alloc: Global, lines: &mut Vec<u8>, tag: Option<u32>, line: &[u8]) -> Result<(), Memory>
    ensures { OnOk result (lines.new.items ≡ lines.old.items ++ whole_line tag line.now) }
{
    add_tag(alloc, lines, tag)?;
    add(lines, line)?;
    add(lines, b"\n")
}

/// Adds the whole line of a refusal.
fn add_refusal_line(
    alloc: Global,
    lines: &mut Vec<u8>,
    tag: Option<u32>,
    refusal: Refusal,
) -> Result<(), Memory>
    ensures { OnOk result (lines.new.items ≡ lines.old.items ++ whole_line tag (refusal_text refusal)) }
{
    add_tag(alloc, lines, tag)?;
    add_refusal(alloc, lines, refusal)?;
    add(lines, b"\n")
}

/// Adds the whole line of where a key is.
fn add_at_line(
    alloc: Global,
    lines: &mut Vec<u8>,
    tag: Option<u32>,
    location: &Location,
) -> Result<(), Memory>
    ensures { OnOk result (lines.new.items ≡ lines.old.items ++ whole_line tag (codes "at" ++ then_word location.now)) }
{
    add_tag(alloc, lines, tag)?;
    add(lines, b"at")?;
    add_word(lines, location.as_slice())?;
    add(lines, b"\n")
}

/// Adds the whole line of a row's value.
fn add_row_line(
    alloc: Global,
    lines: &mut Vec<u8>,
    tag: Option<u32>,
    bytes: &[u8],
) -> Result<(), Memory>
    ensures { OnOk result (lines.new.items ≡ lines.old.items ++ whole_line tag (codes "row" ++ then_word (bytes_text bytes.now))) }
{
    add_tag(alloc, lines, tag)?;
    add(lines, b"row ")?;
    add_bytes(alloc, lines, bytes)?;
    add(lines, b"\n")
}

/// Adds the whole line of a job's cursor.
fn add_cursor_line(
    alloc: Global,
    lines: &mut Vec<u8>,
    tag: Option<u32>,
    keys: KeyType,
    key: &NormKey,
) -> Result<(), Memory>
    ensures { OnOk result (lines.new.items ≡ lines.old.items ++ whole_line tag (codes "cursor" ++ then_word (key_text keys key.now))) }
{
    add_tag(alloc, lines, tag)?;
    add(lines, b"cursor ")?;
    add_key(alloc, lines, keys, key)?;
    add(lines, b"\n")
}

/// Adds what the cache knows of a key.
fn add_known(
    alloc: Global,
    line: &mut Vec<u8>,
    keys: KeyType,
    span: &Span,
    location: &Location,
    place: u64,
) -> Result<(), Memory>
    ensures { OnOk result (line.new.items ≡ line.old.items ++ (codes "known" ++ then_word (span_words keys span.now) ++ then_word location.now ++ then_word (decimal place))) }
{
    add(line, b"known ")?;
    add_span(alloc, line, keys, span)?;
    add_word(line, location.as_slice())?;
    add(line, b" ")?;
    add_number(alloc, line, place)
}

/// Adds the whole line of what the cache knows of a key.
fn add_known_line(
    alloc: Global,
    lines: &mut Vec<u8>,
    tag: Option<u32>,
    keys: KeyType,
    span: &Span,
    location: &Location,
    place: u64,
) -> Result<(), Memory>
    ensures { OnOk result (lines.new.items ≡ lines.old.items ++ whole_line tag (codes "known" ++ then_word (span_words keys span.now) ++ then_word location.now ++ then_word (decimal place))) }
{
    add_tag(alloc, lines, tag)?;
    add_known(alloc, lines, keys, span, location, place)?;
    add(lines, b"\n")
}

/// Adds the lines of mappings.
fn add_mappings(
    alloc: Global,
    lines: &mut Vec<u8>,
    tag: Option<u32>,
    keys: KeyType,
    pieces: &[Piece],
) -> Result<(), Memory>
    ensures { OnOk result (lines.new.items ≡ lines.old.items ++ flat_map (whole_line tag) (map (mapping_line keys) pieces.now)) }
{
    for piece in pieces {
        add_mapping_line(alloc, lines, tag, keys, piece)?;
    }
    Ok(())
}

/// Adds the lines of differences.
fn add_differences(
    alloc: Global,
    lines: &mut Vec<u8>,
    tag: Option<u32>,
    keys: KeyType,
    differences: &[Difference],
) -> Result<(), Memory>
    ensures { OnOk result (lines.new.items ≡ lines.old.items ++ flat_map (whole_line tag) (map (difference_line keys) differences.now)) }
{
    for difference in differences {
        add_difference_line(alloc, lines, tag, keys, difference)?;
    }
    Ok(())
}

/// Adds the lines of locations.
fn add_locations(
    alloc: Global,
    lines: &mut Vec<u8>,
    tag: Option<u32>,
    locations: &[Location],
) -> Result<(), Memory>
    ensures { OnOk result (lines.new.items ≡ lines.old.items ++ flat_map (whole_line tag) locations.now) }
{
    for location in locations {
        add_location_line(alloc, lines, tag, location)?;
    }
    Ok(())
}

/// Adds how many mappings there are, and their lines.
#[tactic(auto, unfolding(plain_model::specs::Lines::lines_of))]
fn add_mapping_list(
    alloc: Global,
    lines: &mut Vec<u8>,
    tag: Option<u32>,
    keys: KeyType,
    pieces: &[Piece],
) -> Result<(), Memory>
    ensures { OnOk result (lines.new.items ≡ lines.old.items ++ reply_lines tag (reply.Mappings keys pieces.now)) }
{
    add_count_line(alloc, lines, tag, b"mappings", pieces.len() as u64)?;
    add_mappings(alloc, lines, tag, keys, pieces)
}

/// Adds how many differences there are, and their lines.
#[tactic(auto, unfolding(plain_model::specs::Lines::lines_of))]
fn add_difference_list(
    alloc: Global,
    lines: &mut Vec<u8>,
    tag: Option<u32>,
    keys: KeyType,
    differences: &[Difference],
) -> Result<(), Memory>
    ensures { OnOk result (lines.new.items ≡ lines.old.items ++ reply_lines tag (reply.Differences keys differences.now)) }
{
    add_count_line(alloc, lines, tag, b"differences", differences.len() as u64)?;
    add_differences(alloc, lines, tag, keys, differences)
}

/// Adds how many shards there are, and their lines.
#[tactic(auto, unfolding(plain_model::specs::Lines::lines_of))]
fn add_location_list(
    alloc: Global,
    lines: &mut Vec<u8>,
    tag: Option<u32>,
    locations: &[Location],
) -> Result<(), Memory>
    ensures { OnOk result (lines.new.items ≡ lines.old.items ++ reply_lines tag (reply.Shards locations.now)) }
{
    add_count_line(alloc, lines, tag, b"shards", locations.len() as u64)?;
    add_locations(alloc, lines, tag, locations)
}

/// Adds the lines of a reply.
#[tactic(auto, unfolding(plain_model::specs::Lines::lines_of))]
fn add_reply(
    alloc: Global,
    lines: &mut Vec<u8>,
    tag: Option<u32>,
    reply: &Reply,
) -> Result<(), Memory>
    ensures { OnOk result (lines.new.items ≡ lines.old.items ++ reply_lines tag reply.now) }
{
    match reply {
        Reply::Ok => add_line(alloc, lines, tag, b"ok"),
        Reply::Mapping(keys, piece) => add_mapping_line(alloc, lines, tag, *keys, piece),
        Reply::Mappings(keys, pieces) => {
            add_mapping_list(alloc, lines, tag, *keys, pieces.as_slice())
        }
        Reply::Shards(locations) => add_location_list(alloc, lines, tag, locations.as_slice()),
        Reply::At(location) => add_at_line(alloc, lines, tag, location),
        Reply::Row(bytes) => add_row_line(alloc, lines, tag, bytes.as_slice()),
        Reply::Known(keys, span, location, place) => {
            add_known_line(alloc, lines, tag, *keys, span, location, *place)
        }
        Reply::Unknown => add_line(alloc, lines, tag, b"unknown"),
        Reply::Differences(keys, differences) => {
            add_difference_list(alloc, lines, tag, *keys, differences.as_slice())
        }
        Reply::Discarded(count) => {
            add_count_line(alloc, lines, tag, b"discarded", u64::from(*count))
        }
        Reply::Job(job) => add_count_line(alloc, lines, tag, b"job", u64::from(*job)),
        Reply::Cursor(keys, key) => add_cursor_line(alloc, lines, tag, *keys, key),
        Reply::Done(job) => add_count_line(alloc, lines, tag, b"done", u64::from(*job)),
        Reply::Refused(refusal) => add_refusal_line(alloc, lines, tag, *refusal),
        Reply::Pending(operation) => add_count_line(alloc, lines, tag, b"pending", *operation),
        Reply::Fault => add_line(alloc, lines, tag, b"fault"),
        Reply::Memory => add_line(alloc, lines, tag, b"memory"),
    }
}

/// The lines of a reply, each with its end; with the session's number and a space before each where lines are tagged. Takes time by the number of bytes.
pub fn write_reply(alloc: Global, tag: Option<u32>, reply: &Reply) -> Result<Vec<u8>, Memory>
    ensures { IfOk result (λ lines. lines.items ≡ reply_lines tag reply.now) }
{
    let mut lines = Vec::new(alloc);
    add_reply(alloc, &mut lines, tag, reply)?;
    Ok(lines)
}
