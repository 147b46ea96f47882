//! Writing the parts of cells. Each call adds the part's bytes at the end; a failed one leaves some of them.
ghost use Rattle.std.specs.Prelude.{◌≡◌, ◌++◌, ◌∷◌, ◌<◌, [], length, OnOk};
ghost use Rattle.std.specs.Int.{w16, w32, w64, w128, to_be_bytes};
ghost use Rattle.record_form.specs.Layout.{text_bytes, end_bytes, span_bytes, status_byte, map_kind_byte, key_type_byte, away_byte, token_bytes, mark_bytes, phase_bytes};

use cell_world::cells::{Away, KeyType, MapKind, Mark, Status, Token};
use cell_world::locations::Location;
use cell_world::names::Name;
use cell_world::norm_keys::NormKey;
use cell_world::operations::Phase;
use cell_world::spans::{High, Span};
use std::alloc::AllocError;

pub(crate) fn put_byte(out: &mut Vec<u8>, byte: u8) -> Result<(), AllocError>
    ensures { OnOk result (out.new.items ≡ out.old.items ++ byte ∷ []) }
{
    out.push(byte)?;
    Ok(())
}

pub(crate) fn put_4(out: &mut Vec<u8>, number: u32) -> Result<(), AllocError>
    ensures { OnOk result (out.new.items ≡ out.old.items ++ to_be_bytes w32 number) }
{
    out.extend_from_slice(&number.to_be_bytes())
}

pub(crate) fn put_8(out: &mut Vec<u8>, number: u64) -> Result<(), AllocError>
    ensures { OnOk result (out.new.items ≡ out.old.items ++ to_be_bytes w64 number) }
{
    out.extend_from_slice(&number.to_be_bytes())
}

fn put_text(out: &mut Vec<u8>, text: &[u8]) -> Result<(), AllocError>
    requires { length text.now < 256 }
    ensures { OnOk result (out.new.items ≡ out.old.items ++ text_bytes text.now) }
{
    put_byte(out, text.len() as u8)?;
    out.extend_from_slice(text)
}

pub(crate) fn put_name(out: &mut Vec<u8>, name: &Name) -> Result<(), AllocError>
    ensures { OnOk result (out.new.items ≡ out.old.items ++ text_bytes name.now) }
{
    name.known();
    put_text(out, name.as_slice())
}

pub(crate) fn put_location(out: &mut Vec<u8>, location: &Location) -> Result<(), AllocError>
    ensures { OnOk result (out.new.items ≡ out.old.items ++ text_bytes location.now) }
{
    location.known();
    put_text(out, location.as_slice())
}

pub(crate) fn put_key(out: &mut Vec<u8>, key: &NormKey) -> Result<(), AllocError>
    ensures { OnOk result (out.new.items ≡ out.old.items ++ text_bytes key.now) }
{
    key.known();
    put_text(out, key.as_slice())
}

pub(crate) fn put_end(out: &mut Vec<u8>, end: &High) -> Result<(), AllocError>
    ensures { OnOk result (out.new.items ≡ out.old.items ++ end_bytes end.now) }
{
    match end {
        High::At(key) => {
            put_byte(out, 0)?;
            put_key(out, key)
        }
        High::Max => put_byte(out, 1),
    }
}

pub(crate) fn put_span(out: &mut Vec<u8>, span: &Span) -> Result<(), AllocError>
    ensures { OnOk result (out.new.items ≡ out.old.items ++ span_bytes span.now) }
{
    match span {
        Span::Range(low, high) => {
            put_byte(out, 0)?;
            put_key(out, low)?;
            put_end(out, high)
        }
        Span::Point(at) => {
            put_byte(out, 1)?;
            put_key(out, at)
        }
    }
}

pub(crate) fn put_token(out: &mut Vec<u8>, token: &Option<Token>) -> Result<(), AllocError>
    ensures { OnOk result (out.new.items ≡ out.old.items ++ token_bytes token.now) }
{
    match token {
        None => put_byte(out, 0),
        Some(token) => {
            put_byte(out, 1)?;
            out.extend_from_slice(&token.0.to_be_bytes())
        }
    }
}

pub(crate) fn put_mark(out: &mut Vec<u8>, mark: &Mark) -> Result<(), AllocError>
    ensures { OnOk result (out.new.items ≡ out.old.items ++ mark_bytes mark.now) }
{
    match mark {
        Mark::Plain => put_byte(out, 0),
        Mark::Old(number) => {
            put_byte(out, 1)?;
            put_8(out, *number)
        }
        Mark::New => put_byte(out, 2),
    }
}

pub(crate) fn put_phase(out: &mut Vec<u8>, phase: &Phase) -> Result<(), AllocError>
    ensures { OnOk result (out.new.items ≡ out.old.items ++ phase_bytes phase.now) }
{
    match phase {
        Phase::Idle => put_byte(out, 0),
        Phase::Copying(end) => {
            put_byte(out, 1)?;
            put_end(out, end)
        }
        Phase::Moved(end) => {
            put_byte(out, 2)?;
            put_end(out, end)
        }
    }
}

pub(crate) fn status_byte(status: Status) -> u8
    ensures { result ≡ status_byte status }
{
    match status {
        Status::Offline => 0,
        Status::Online => 1,
    }
}

pub(crate) fn map_kind_byte(kind: MapKind) -> u8
    ensures { result ≡ map_kind_byte kind }
{
    match kind {
        MapKind::Range => 1,
        MapKind::List => 2,
    }
}

pub(crate) fn key_type_byte(key_type: KeyType) -> u8
    ensures { result ≡ key_type_byte key_type }
{
    match key_type {
        KeyType::Int => 1,
        KeyType::Long => 2,
        KeyType::Guid => 3,
        KeyType::Bytes => 4,
        KeyType::Datetime => 5,
        KeyType::Timespan => 6,
    }
}

pub(crate) fn away_byte(state: Away) -> u8
    ensures { result ≡ away_byte state }
{
    match state {
        Away::Detached => 1,
        Away::Suspect => 2,
    }
}
