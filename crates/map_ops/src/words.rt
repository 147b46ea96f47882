//! Keys and ends as they are written, and the spans that they make.
ghost use Rattle.std.specs.Prelude.{◌≡◌, IfSome, IfOk, IsTrue};
ghost use Rattle.cell_world.specs.Keys.{before};
ghost use Rattle.cell_world.specs.KeyForms.{is_normal, is_normal_end, is_span_of, normal_of};
ghost use Rattle.cell_world.specs.declared.cells.MapKind.TheVariants as kind;
ghost use Rattle.map_ops.specs.Adding.{end_in, point_by, range_by};

use cell_world::cells::KeyType;
use cell_world::key_texts::KeyText;
use cell_world::norm_keys::NormKey;
use cell_world::spans::{High, Span};
use key_space::reading::read_key;
use plain_model::commands::HighText;
use plain_model::replies::Refusal;

/// The key of the type that the word is, if it is one.
pub fn key_in(key_type: KeyType, text: &KeyText) -> Option<NormKey>
    ensures key { result ≡ normal_of key_type text.now }
    ensures normal { IfSome result (λ key. IsTrue (is_normal key_type key)) }
{
    text.known();
    match read_key(key_type, text.as_slice()) {
        Ok(key) => {
            let _type = key.kind();
            Some(key.normal())
        }
        Err(_) => None,
    }
}

/// The end that the word is, in a map of this key type, if it is one.
fn end_in(key_type: KeyType, text: &HighText) -> Option<High>
    ensures end { result ≡ end_in key_type text.now }
    ensures normal { IfSome result (λ end. IsTrue (is_normal_end key_type end)) }
{
    match text {
        HighText::At(text) => match key_in(key_type, text) {
            Some(key) => Some(High::At(key)),
            None => None,
        },
        HighText::Max => Some(High::Max),
    }
}

/// Whether the key is before the end.
fn is_before(key: &NormKey, end: &High) -> bool
    ensures { result ≡ before key.now end.now }
{
    match end {
        High::At(high) => key.cmp(high).is_lt(),
        High::Max => true,
    }
}

/// The range from one word up to another, in a range map of this key type; or `BadKey` or `BadRange`.
pub fn range_between(key_type: KeyType, low: &KeyText, high: &HighText) -> Result<Span, Refusal>
    ensures range { result ≡ range_by (normal_of key_type low.now) (end_in key_type high.now) }
    ensures span { IfOk result (λ span. IsTrue (is_span_of kind.Range key_type span)) }
{
    match (key_in(key_type, low), end_in(key_type, high)) {
        (Some(low), Some(high)) => {
            if is_before(&low, &high) {
                Ok(Span::Range(low, high))
            } else {
                Err(Refusal::BadRange)
            }
        }
        _ => Err(Refusal::BadKey),
    }
}

/// The point of a word, in a list map of this key type; or `BadKey`.
pub fn point_at(key_type: KeyType, text: &KeyText) -> Result<Span, Refusal>
    ensures point { result ≡ point_by (normal_of key_type text.now) }
    ensures span { IfOk result (λ span. IsTrue (is_span_of kind.List key_type span)) }
{
    match key_in(key_type, text) {
        Some(key) => Ok(Span::Point(key)),
        None => Err(Refusal::BadKey),
    }
}
