//! Signed numbers as bytes: the sign bit flipped, big-endian.
ghost use Rattle.std.specs.Prelude.{◌≡◌, ◌↔◌, ◌^◌, length, IsSome, IfSome};
ghost use Rattle.std.specs.Int.{w32, w64, to_be_bytes};
ghost use Rattle.key_space.specs.Values.{moved_up};

/// The normal form of an int.
pub(crate) fn form_of_int(x: i32) -> [u8; 4]
    ensures { result ≡ to_be_bytes w32 (moved_up (2 ^ 31) x) }
{
    x.cast_unsigned().wrapping_add(1 << 31).to_be_bytes()
}

/// The normal form of a long.
pub(crate) fn form_of_long(x: i64) -> [u8; 8]
    ensures { result ≡ to_be_bytes w64 (moved_up (2 ^ 63) x) }
{
    x.cast_unsigned().wrapping_add(1 << 63).to_be_bytes()
}

/// The int of a normal form.
pub(crate) fn int_of(form: &[u8]) -> Option<i32>
    ensures some { IsSome result ↔ (length form.now ≡ 4) }
    ensures value { IfSome result (λ x. form.now ≡ to_be_bytes w32 (moved_up (2 ^ 31) x)) }
{
    match form {
        [a, b, c, d] => {
            let moved = u32::from_be_bytes([*a, *b, *c, *d]);
            Some(moved.wrapping_add(1 << 31).cast_signed())
        }
        _ => None,
    }
}

/// The long of a normal form.
pub(crate) fn long_of(form: &[u8]) -> Option<i64>
    ensures some { IsSome result ↔ (length form.now ≡ 8) }
    ensures value { IfSome result (λ x. form.now ≡ to_be_bytes w64 (moved_up (2 ^ 63) x)) }
{
    match form {
        [a, b, c, d, e, f, g, h] => {
            let moved = u64::from_be_bytes([*a, *b, *c, *d, *e, *f, *g, *h]);
            Some(moved.wrapping_add(1 << 63).cast_signed())
        }
        _ => None,
    }
}
