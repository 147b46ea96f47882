//! Names of maps and tables.
ghost use Rattle.std.specs.Prelude.{◌≡◌};
ghost use Rattle.cell_world.specs.Texts.{is_letter, is_name_byte};
ghost use Rattle.record_form.specs.Reading.{Gives};
ghost use Rattle.record_form.specs.Fields.{name_next, name_at};

use crate::numbers::byte;
use crate::stops::Stop;
use crate::texts::{Steps, text};
use cell_world::names::Name;

/// How much of a name was read.
#[derive(Clone, Copy)]
pub(crate) enum InName {
    First,
    Later,
}

fn is_letter(byte: u8) -> bool
    ensures { result ≡ is_letter byte }
{
    matches!(byte, b'A'..=b'Z' | b'a'..=b'z')
}

fn is_name_byte(byte: u8) -> bool
    ensures { result ≡ is_name_byte byte }
{
    matches!(byte, b'A'..=b'Z' | b'a'..=b'z' | b'0'..=b'9' | b'_')
}

impl Steps for InName {
    ghost next = { name_next };

    fn step(self, _left: usize, byte: u8) -> Option<InName> {
        let fits = match self {
            InName::First => is_letter(byte),
            InName::Later => is_name_byte(byte),
        };
        if fits { Some(InName::Later) } else { None }
    }
}

/// A name: one length byte from 1 to 32, and then its bytes.
#[tactic(auto, unfolding(crate::specs::Fields::name_at))]
pub(crate) fn name(input: &mut &[u8]) -> Result<Name, Stop>
    ensures { Gives name_at input.old.now input.new.now result }
{
    let len = byte(input, 1, 32)?;
    let bytes = text(input, len as usize, InName::First)?;
    Ok(Name::read(bytes).unwrap())
}
