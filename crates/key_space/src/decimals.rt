//! Decimal texts: int, long, timespan and datetime keys.
ghost use Rattle.std.specs.Prelude.{◌≡◌, ℕ, ◌≤◌, ◌<◌, ◌^◌, length, IsTrue, IfSome, IfNone, IfErr, OnOk, Some, None, is_some, FitsSigned};
ghost use Rattle.std.specs.Int.{w32, w64};
ghost use Rattle.cell_world.specs.Texts.{is_digit};
ghost use Rattle.cell_world.specs.KeyForms.{number_of, signed_number};
ghost use Rattle.key_space.specs.Values.{moved_up};
ghost use Rattle.key_space.specs.Texts.{is_signed_text, IsAtPlace};

use crate::faults::{KeyFault, in_grammar};
use text_scan::machine::Machine;

/// How far a number with a sign was read.
#[derive(Clone, Copy)]
pub enum Signed {
    Start,
    Minus,
    Zero,
    Digits,
}

/// How far a number without a sign was read.
#[derive(Clone, Copy)]
pub enum Unsigned {
    Start,
    Zero,
    Digits,
}

fn is_digit(byte: u8) -> bool
    ensures { result ≡ is_digit byte }
{
    matches!(byte, b'0'..=b'9')
}

impl Machine for Signed {
    ghost use Rattle.key_space.specs.declared.decimals.Signed.TheVariants as s;
    ghost use Rattle.key_space.specs.Decimals.{signed_next, signed_end, signed_live};

    ghost first = { s.Start };

    ghost next = { signed_next };

    ghost is_end = { signed_end };

    ghost live = { signed_live };

    fn start() -> Self {
        Signed::Start
    }

    fn step(self, byte: u8) -> Option<Self> {
        match self {
            Signed::Start => {
                if byte == b'-' {
                    Some(Signed::Minus)
                } else if byte == b'0' {
                    Some(Signed::Zero)
                } else if is_digit(byte) {
                    Some(Signed::Digits)
                } else {
                    None
                }
            }
            Signed::Minus => {
                if byte == b'0' {
                    None
                } else if is_digit(byte) {
                    Some(Signed::Digits)
                } else {
                    None
                }
            }
            Signed::Zero => None,
            Signed::Digits => if is_digit(byte) {
                Some(Signed::Digits)
            } else {
                None
            },
        }
    }

    fn ends(self) -> bool {
        match self {
            Signed::Start | Signed::Minus => false,
            Signed::Zero | Signed::Digits => true,
        }
    }
}

impl Machine for Unsigned {
    ghost use Rattle.key_space.specs.declared.decimals.Unsigned.TheVariants as u;
    ghost use Rattle.key_space.specs.Decimals.{unsigned_next, unsigned_end, unsigned_live};

    ghost first = { u.Start };

    ghost next = { unsigned_next };

    ghost is_end = { unsigned_end };

    ghost live = { unsigned_live };

    fn start() -> Self {
        Unsigned::Start
    }

    fn step(self, byte: u8) -> Option<Self> {
        match self {
            Unsigned::Start => {
                if byte == b'0' {
                    Some(Unsigned::Zero)
                } else if is_digit(byte) {
                    Some(Unsigned::Digits)
                } else {
                    None
                }
            }
            Unsigned::Zero => None,
            Unsigned::Digits => if is_digit(byte) {
                Some(Unsigned::Digits)
            } else {
                None
            },
        }
    }

    fn ends(self) -> bool {
        match self {
            Unsigned::Start => false,
            Unsigned::Zero | Unsigned::Digits => true,
        }
    }
}

/// Whether the text is a number with a sign.
pub(crate) fn check_signed(text: &[u8]) -> Result<(), KeyFault>
    requires { length text.now < 2 ^ 32 }
    ensures ok { OnOk result (IsTrue (is_signed_text text.now)) }
    ensures err { IfErr result (IsAtPlace is_signed_text text.now) }
{
    in_grammar::<Signed>(text)
}

/// Whether the text is a number without a sign.
pub(crate) fn check_unsigned(text: &[u8]) -> Result<(), KeyFault>
    requires { length text.now < 2 ^ 32 }
    ensures ok { OnOk result (IsTrue (is_some (number_of text.now))) }
    ensures err { IfErr result (IsAtPlace (λ t. is_some (number_of t)) text.now) }
{
    in_grammar::<Unsigned>(text)
}

/// The number of 32 bits that the text stands for.
pub(crate) fn int_at(text: &[u8]) -> Option<i32>
    requires { IsTrue (is_signed_text text.now) }
    ensures some { IfSome result (λ x. signed_number (2 ^ 31) text.now ≡ Some (moved_up (2 ^ 31) x)) }
    ensures none { IfNone result (signed_number (2 ^ 31) text.now ≡ None) }
    ensures fits { IfSome result (FitsSigned w32) }
{
    let digits = std::str::from_utf8(text).unwrap();
    match digits.parse::<i32>() {
        Ok(x) => Some(x),
        Err(_) => None,
    }
}

/// The number of 64 bits that the text stands for.
pub(crate) fn long_at(text: &[u8]) -> Option<i64>
    requires { IsTrue (is_signed_text text.now) }
    ensures some { IfSome result (λ x. signed_number (2 ^ 63) text.now ≡ Some (moved_up (2 ^ 63) x)) }
    ensures none { IfNone result (signed_number (2 ^ 63) text.now ≡ None) }
    ensures fits { IfSome result (FitsSigned w64) }
{
    let digits = std::str::from_utf8(text).unwrap();
    match digits.parse::<i64>() {
        Ok(x) => Some(x),
        Err(_) => None,
    }
}

/// The number below 2^64 that the text stands for.
pub(crate) fn number_at(text: &[u8]) -> Option<u64>
    requires { IsTrue (is_some (number_of text.now)) }
    ensures some { IfSome result (λ n. number_of text.now ≡ Some n) }
    ensures none { IfNone result ((n : ℕ) → number_of text.now ≡ Some n → 2 ^ 64 ≤ n) }
{
    let digits = std::str::from_utf8(text).unwrap();
    match digits.parse::<u64>() {
        Ok(n) => Some(n),
        Err(_) => None,
    }
}
