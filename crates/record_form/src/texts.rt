//! Texts of a known length.
ghost use Rattle.std.specs.Prelude.{◌≡◌, ℕ, Option};
ghost use Rattle.record_form.specs.Reading.{raw_at, text_at, GivesSeen};

use crate::stops::Stop;

/// The texts of a grammar that have a known length, told by what is to be known of the bytes read so far.
pub(crate) trait Steps: Copy {
    /// Where a byte leads from a state, with so many bytes after it. None where no text of that length goes on with it.
    ghost next: { ℕ → Self → ℕ → Option Self };

    /// Where a byte leads.
    fn step(self, left: usize, byte: u8) -> Option<Self>
        ensures { result ≡ next left self byte };
}

/// So many bytes, of a text of the grammar. Takes no memory.
pub(crate) fn text<'a, S: Steps>(
    input: &mut &'a [u8],
    len: usize,
    start: S,
) -> Result<&'a [u8], Stop>
    ensures { GivesSeen (λ x. x.now) (text_at S.next len start) input.old.now input.new.now result }
{
    let bytes = *input;
    let mut state = start;
    for i in 0..len {
        if i >= bytes.len() {
            return Err(Stop::Left(0));
        }
        match state.step(len - 1 - i, bytes[i]) {
            Some(after) => state = after,
            None => return Err(Stop::Left(bytes.len() - i)),
        }
    }
    let (front, rest) = bytes.split_at(len);
    *input = rest;
    Ok(front)
}

/// So many bytes, whichever they are. Takes no memory.
pub(crate) fn raw<'a>(input: &mut &'a [u8], len: usize) -> Result<&'a [u8], Stop>
    ensures { GivesSeen (λ x. x.now) (raw_at len) input.old.now input.new.now result }
{
    let bytes = *input;
    if bytes.len() < len {
        return Err(Stop::Left(0));
    }
    let (front, rest) = bytes.split_at(len);
    *input = rest;
    Ok(front)
}
