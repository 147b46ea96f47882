//! Hexadecimal digits.
ghost use Rattle.std.specs.Prelude.{◌≡◌};
ghost use Rattle.key_space.specs.HexTexts.{is_hex};

/// Whether the byte is a hexadecimal digit, of either case.
pub(crate) fn is_hex(byte: u8) -> bool
    ensures { result ≡ is_hex byte }
{
    matches!(byte, b'0'..=b'9' | b'a'..=b'f' | b'A'..=b'F')
}
