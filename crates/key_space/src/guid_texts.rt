//! The texts of guids: 8, 4, 4, 4 and 12 hexadecimal digits with `-` between.
ghost use Rattle.std.specs.Prelude.{◌≡◌, ◌<◌, ◌^◌, length, IsTrue, IfOk, IfErr, OnOk, Some, is_some};
ghost use Rattle.cell_world.specs.KeyForms.{guid_bytes};
ghost use Rattle.key_space.specs.Texts.{IsAtPlace};
ghost use Rattle.key_space.specs.HexTexts.{fits_left};

use crate::faults::{KeyFault, in_grammar};
use crate::hex_digits::is_hex;
use crate::values::Guid;
use text_scan::machine::Machine;
use uuid::Uuid;

/// The length of a guid's text.
const TEXT_BYTES: u8 = 36;

/// How far the text of a guid was read: how many bytes are still to come.
#[derive(Clone, Copy)]
pub struct GuidLeft {
    bytes: u8,
}

/// Whether the byte may come where so many are left.
fn fits_left(left: u8, byte: u8) -> bool
    ensures { result ≡ fits_left left byte }
{
    if left == 28 || (left == 23 || (left == 18 || left == 13)) {
        byte == b'-'
    } else {
        is_hex(byte)
    }
}

impl Machine for GuidLeft {
    ghost use Rattle.key_space.specs.HexTexts.{guid_next, guid_end, guid_live};

    ghost first = { record { bytes = 36 } };

    ghost next = { guid_next };

    ghost is_end = { guid_end };

    ghost live = { guid_live };

    fn start() -> Self {
        GuidLeft { bytes: TEXT_BYTES }
    }

    fn step(self, byte: u8) -> Option<Self> {
        if self.bytes == 0 {
            return None;
        }
        if fits_left(self.bytes, byte) {
            Some(GuidLeft {
                bytes: self.bytes - 1,
            })
        } else {
            None
        }
    }

    fn ends(self) -> bool {
        self.bytes == 0
    }
}

/// Whether the text is a guid's.
fn check(text: &[u8]) -> Result<(), KeyFault>
    requires { length text.now < 2 ^ 32 }
    ensures ok { OnOk result (IsTrue (is_some (guid_bytes text.now))) }
    ensures err { IfErr result (IsAtPlace (λ t. is_some (guid_bytes t)) text.now) }
{
    in_grammar::<GuidLeft>(text)
}

/// The guid that the text stands for.
pub(crate) fn read_guid(text: &[u8]) -> Result<Guid, KeyFault>
    requires { length text.now < 2 ^ 32 }
    ensures ok { IfOk result (λ bytes. guid_bytes text.now ≡ Some bytes) }
    ensures err { IfErr result (IsAtPlace (λ t. is_some (guid_bytes t)) text.now) }
{
    check(text)?;
    let id = Uuid::try_parse_ascii(text).unwrap();
    Ok(Guid::of(&id.into_bytes()))
}
