//! The texts of bytes keys: `0x` and two hexadecimal digits a byte.
ghost use Rattle.std.specs.Prelude.{◌≡◌, ◌≤◌, ◌<◌, ◌^◌, length, take, IsTrue, IfOk, IfErr, OnOk, Some, is_some};
ghost use Rattle.cell_world.specs.KeyForms.{hex_bytes, without_zeros, normal_of};
ghost use Rattle.cell_world.specs.declared.cells.KeyType.TheVariants as types;
ghost use Rattle.cell_world.specs.declared.limits.TheConstants.{KEY_BYTES};
ghost use Rattle.key_space.specs.Texts.{written_bytes, IsAtPlace, IsKeyFault};

use crate::faults::{KeyFault, in_grammar};
use crate::hex_digits::is_hex;
use crate::values::{KeyBytes, norm};
use cell_world::limits::KEY_BYTES;
use text_scan::machine::Machine;

/// How far the text of a bytes key was read: after an even or an odd number of digits.
#[derive(Clone, Copy)]
pub enum BytesAt {
    Start,
    Zero,
    Even,
    Odd,
}

impl Machine for BytesAt {
    ghost use Rattle.key_space.specs.declared.bytes_texts.BytesAt.TheVariants.{Start};
    ghost use Rattle.key_space.specs.HexTexts.{bytes_next, bytes_end, bytes_live};

    ghost first = { Start };

    ghost next = { bytes_next };

    ghost is_end = { bytes_end };

    ghost live = { bytes_live };

    fn start() -> Self {
        BytesAt::Start
    }

    fn step(self, byte: u8) -> Option<Self> {
        match self {
            BytesAt::Start => if byte == b'0' {
                Some(BytesAt::Zero)
            } else {
                None
            },
            BytesAt::Zero => if byte == b'x' {
                Some(BytesAt::Even)
            } else {
                None
            },
            BytesAt::Even => if is_hex(byte) {
                Some(BytesAt::Odd)
            } else {
                None
            },
            BytesAt::Odd => if is_hex(byte) {
                Some(BytesAt::Even)
            } else {
                None
            },
        }
    }

    fn ends(self) -> bool {
        match self {
            BytesAt::Even => true,
            BytesAt::Start | BytesAt::Zero | BytesAt::Odd => false,
        }
    }
}

/// Whether the text is `0x` and pairs of digits.
fn check(text: &[u8]) -> Result<(), KeyFault>
    requires { length text.now < 2 ^ 32 }
    ensures ok { OnOk result (IsTrue (is_some (written_bytes text.now))) }
    ensures err { IfErr result (IsAtPlace (λ t. is_some (written_bytes t)) text.now) }
{
    in_grammar::<BytesAt>(text)
}

/// The bytes of pairs of digits go to the front of the room; how many they are.
fn decode(digits: &[u8], room: &mut [u8; KEY_BYTES]) -> usize
    requires pairs { IsTrue (is_some (hex_bytes digits.now)) }
    requires fits { length digits.now ≤ 256 }
    ensures bytes { hex_bytes digits.now ≡ Some (take result room.new) }
    ensures fits { result ≤ KEY_BYTES }
{
    let count = digits.len() / 2;
    hex::decode_to_slice(digits, &mut room[..count]).unwrap();
    count
}

/// The bytes without the zeros at their end.
fn without_zeros(bytes: &[u8]) -> &[u8]
    ensures value { result.now ≡ without_zeros bytes.now }
    ensures fits { length result.now ≤ length bytes.now }
{
    let mut len = bytes.len();
    while len > 0 && bytes[len - 1] == 0 {
        len -= 1;
    }
    &bytes[..len]
}

/// The key of bytes as written.
fn key_of_written(bytes: &[u8]) -> KeyBytes
    requires { length bytes.now ≤ KEY_BYTES }
    ensures { result ≡ without_zeros bytes.now }
{
    let form = norm(without_zeros(bytes));
    form.known();
    KeyBytes::of(&form).unwrap()
}

/// The bytes key that the text stands for.
pub(crate) fn read_bytes(text: &[u8]) -> Result<KeyBytes, KeyFault>
    requires { length text.now < 2 ^ 32 }
    ensures ok { IfOk result (λ bytes. normal_of types.Bytes text.now ≡ Some bytes) }
    ensures err { IfErr result (IsKeyFault types.Bytes text.now) }
{
    check(text)?;
    let digits = &text[2..];
    if digits.len() > 2 * KEY_BYTES {
        return Err(KeyFault::TooLong);
    }
    let mut room = [0u8; KEY_BYTES];
    let count = decode(digits, &mut room);
    Ok(key_of_written(&room[..count]))
}
