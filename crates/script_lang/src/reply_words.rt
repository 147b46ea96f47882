//! The words and parts of the lines of replies.
ghost use Rattle.std.specs.Prelude.{◌≡◌, ◌++◌, OnOk};
ghost use Rattle.plain_model.specs.Lines.{status_word, status_or_dash, high_word, span_words, then_token, then_word, label_word, refusal_text, numbered, mapping_line, difference_line};

use crate::adding::{add, add_number};
use crate::key_words::{add_key, add_token};
use cell_world::cells::{KeyType, Status, Token};
use cell_world::memory::Memory;
use cell_world::operations::Piece;
use cell_world::spans::{High, Span};
use plain_model::replies::{Difference, Label, Refusal};
use std::alloc::Global;

fn status_word(status: Status) -> &'static [u8]
    ensures { result.now ≡ status_word status }
{
    match status {
        Status::Online => b"online",
        Status::Offline => b"offline",
    }
}

/// A status, or `-` where there is none.
fn status_or_dash(status: Option<Status>) -> &'static [u8]
    ensures { result.now ≡ status_or_dash status }
{
    match status {
        None => b"-",
        Some(status) => status_word(status),
    }
}

fn label_word(label: Label) -> &'static [u8]
    ensures { result.now ≡ label_word label }
{
    match label {
        Label::GlobalOnly => b"global-only",
        Label::ShardOnly => b"shard-only",
        Label::Both => b"both",
    }
}

/// Adds a space and a word.
pub(crate) fn add_word(line: &mut Vec<u8>, word: &[u8]) -> Result<(), Memory>
    ensures { OnOk result (line.new.items ≡ line.old.items ++ then_word word.now) }
{
    add(line, b" ")?;
    add(line, word)
}

/// Adds the end of a range.
fn add_high(alloc: Global, line: &mut Vec<u8>, keys: KeyType, high: &High) -> Result<(), Memory>
    ensures { OnOk result (line.new.items ≡ line.old.items ++ high_word keys high.now) }
{
    match high {
        High::At(key) => add_key(alloc, line, keys, key),
        High::Max => add(line, b"max"),
    }
}

/// Adds the keys of a span.
pub(crate) fn add_span(
    alloc: Global,
    line: &mut Vec<u8>,
    keys: KeyType,
    span: &Span,
) -> Result<(), Memory>
    ensures { OnOk result (line.new.items ≡ line.old.items ++ span_words keys span.now) }
{
    match span {
        Span::Range(low, high) => {
            add_key(alloc, line, keys, low)?;
            add(line, b" ")?;
            add_high(alloc, line, keys, high)
        }
        Span::Point(key) => add_key(alloc, line, keys, key),
    }
}

/// Adds a space and the token, where there is one.
fn add_maybe_token(line: &mut Vec<u8>, token: Option<Token>) -> Result<(), Memory>
    ensures { OnOk result (line.new.items ≡ line.old.items ++ then_token token) }
{
    match token {
        None => Ok(()),
        Some(token) => {
            add(line, b" ")?;
            add_token(line, token)
        }
    }
}

/// Adds a mapping.
pub(crate) fn add_mapping(
    alloc: Global,
    line: &mut Vec<u8>,
    keys: KeyType,
    piece: &Piece,
) -> Result<(), Memory>
    ensures { OnOk result (line.new.items ≡ line.old.items ++ mapping_line keys piece.now) }
{
    add_span(alloc, line, keys, &piece.span)?;
    add_word(line, piece.location.as_slice())?;
    add_word(line, status_word(piece.status))?;
    add_maybe_token(line, piece.token)
}

/// Adds a difference.
pub(crate) fn add_difference(
    alloc: Global,
    line: &mut Vec<u8>,
    keys: KeyType,
    difference: &Difference,
) -> Result<(), Memory>
    ensures { OnOk result (line.new.items ≡ line.old.items ++ difference_line keys difference.now) }
{
    add_span(alloc, line, keys, &difference.span)?;
    add_word(line, label_word(difference.label))?;
    add_word(line, status_or_dash(difference.global))?;
    add_word(line, status_or_dash(difference.shard))
}

/// Adds a word, a space and a number.
pub(crate) fn add_numbered(
    alloc: Global,
    line: &mut Vec<u8>,
    word: &[u8],
    number: u64,
) -> Result<(), Memory>
    ensures { OnOk result (line.new.items ≡ line.old.items ++ numbered word.now number) }
{
    add(line, word)?;
    add(line, b" ")?;
    add_number(alloc, line, number)
}

/// Adds why a command was refused.
#[tactic(auto, unfolding(plain_model::specs::Lines::refusal_text))]
pub(crate) fn add_refusal(alloc: Global, line: &mut Vec<u8>, refusal: Refusal) -> Result<(), Memory>
    ensures { OnOk result (line.new.items ≡ line.old.items ++ refusal_text refusal) }
{
    match refusal {
        Refusal::NoMap => add(line, b"no-map"),
        Refusal::MapExists => add(line, b"map-exists"),
        Refusal::MapInUse => add(line, b"map-in-use"),
        Refusal::NoLocation => add(line, b"no-location"),
        Refusal::NotAShard => add(line, b"not-a-shard"),
        Refusal::ShardExists => add(line, b"shard-exists"),
        Refusal::ShardInUse => add(line, b"shard-in-use"),
        Refusal::WrongKind => add(line, b"wrong-kind"),
        Refusal::BadRange => add(line, b"bad-range"),
        Refusal::Overlap => add(line, b"overlap"),
        Refusal::NoMapping => add(line, b"no-mapping"),
        Refusal::NotOffline => add(line, b"not-offline"),
        Refusal::SameStatus => add(line, b"same-status"),
        Refusal::Locked => add(line, b"locked"),
        Refusal::BadSplit => add(line, b"bad-split"),
        Refusal::NotMergeable => add(line, b"not-mergeable"),
        Refusal::RowsPresent => add(line, b"rows-present"),
        Refusal::Offline => add(line, b"offline"),
        Refusal::Ended => add(line, b"ended"),
        Refusal::NoTable => add(line, b"no-table"),
        Refusal::TableExists => add(line, b"table-exists"),
        Refusal::Detached => add(line, b"detached"),
        Refusal::Unresolved => add(line, b"unresolved"),
        Refusal::Attached => add(line, b"attached"),
        Refusal::DifferencesLeft(n) => add_numbered(alloc, line, b"differences-left", n),
        Refusal::StrayRows(n) => add_numbered(alloc, line, b"stray-rows", n),
        Refusal::NoJob => add(line, b"no-job"),
        Refusal::Absent => add(line, b"absent"),
        Refusal::SameShard => add(line, b"same-shard"),
        Refusal::NumberInUse => add(line, b"number-in-use"),
        Refusal::Full => add(line, b"full"),
        Refusal::NoConnection => add(line, b"no-connection"),
        Refusal::JobInProgress => add(line, b"job-in-progress"),
        Refusal::JobRunning => add(line, b"job-running"),
        Refusal::BadKey => add(line, b"bad-key"),
    }
}
