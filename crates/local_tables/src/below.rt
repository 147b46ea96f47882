//! The key just below another one.
ghost use Rattle.std.specs.Prelude.{◌≡◌, ◌<◌, ◌≤◌, ◌-◌, ◌++◌, ◌∷◌, [], length, replicate};
ghost use Rattle.std.specs.Option.{MatchOption};
ghost use Rattle.local_tables.specs.Below.{IsJustBelow};

use cell_world::norm_keys::NormKey;

/// The front, and the greatest bytes behind it.
fn filled<const N: usize>(front: &[u8]) -> [u8; N]
    requires { length front.now ≤ N }
    ensures { result ≡ front.now ++ replicate (N - length front.now) 255 }
{
    let mut bytes = [255u8; N];
    bytes[..front.len()].copy_from_slice(front);
    bytes
}

/// The front, one byte more, and the greatest bytes behind them.
fn topped(front: &[u8], last: u8) -> [u8; 128]
    requires { length front.now < 128 }
    ensures { result ≡ front.now ++ last ∷ replicate (127 - length front.now) 255 }
{
    let mut bytes: [u8; 128] = filled(front);
    bytes[front.len()] = last;
    bytes
}

/// The greatest key before this one. `None` exactly for the empty key, which is the least. Takes no memory.
pub fn key_below(key: &NormKey) -> Option<NormKey>
    ensures { MatchOption result (key.now ≡ []) (λ below. IsJustBelow below key.now) }
{
    key.known();
    let bytes = key.as_slice();
    let length = bytes.len();
    if length == 0 {
        return None;
    }
    let front = &bytes[..length - 1];
    let last = bytes[length - 1];
    if last == 0 {
        return NormKey::of_bytes(front);
    }
    NormKey::of_bytes(&topped(front, last - 1))
}
