//! Texts of at most so many bytes, kept in a fixed array.
ghost use Rattle.std.specs.Prelude.{◌≡◌, ◌≤◌, ◌++◌, ◌-◌, length, replicate};

use crate::grammar::known_bytes;
use std::cmp::Ordering;
use std::marker::Model;

/// At most `N` bytes, ordered byte by byte with a proper prefix first. Contracts see the bytes.
#[derive(Clone, Copy)]
pub struct Padded<const N: usize> {
    len: u16,
    bytes: [u8; N],
}

impl<const N: usize> Model for Padded<N> {
    ghost use Rattle.std.specs.Prelude.{ℕ, List, length, take, replicate, ◌++◌, ◌-◌, ◌≡◌};
    ghost use Rattle.cell_world.specs.Fixed.{IsPadded, given_back};

    ghost Value = { List ℕ };

    ghost view = { λ t. take t.len t.bytes };

    ghost invariant = { λ t. IsPadded N t.len t.bytes };

    ghost inverse = { λ xs. record { len = length xs; bytes = xs ++ replicate (N - length xs) 0 } };

    ghost inverse_ok = { λ t h. λ i. record { len = (given_back N t.len t.bytes h i).0; bytes = (given_back N t.len t.bytes h i).1 } };
}

impl<const N: usize> Padded<N> {
    /// The text with these bytes. Takes no memory.
    pub fn of(bytes: &[u8]) -> Padded<N>
        requires fits { length bytes.now ≤ N }
        requires counted { N ≤ 65535 }
        ensures { result ≡ bytes.now }
    {
        known_bytes(bytes);
        Padded {
            len: bytes.len() as u16,
            bytes: with_zeros(bytes),
        }
    }

    /// Its bytes.
    pub fn as_slice(&self) -> &[u8]
        ensures { result.now ≡ self.now }
    {
        &self.bytes[..self.len as usize]
    }
}

/// The bytes, and zeros behind them.
fn with_zeros<const N: usize>(bytes: &[u8]) -> [u8; N]
    requires { length bytes.now ≤ N }
    ensures { result ≡ bytes.now ++ replicate (N - length bytes.now) 0 }
{
    let mut room = [0u8; N];
    room[..bytes.len()].copy_from_slice(bytes);
    room
}

impl<const N: usize> PartialEq for Padded<N> {
    ghost use Rattle.cell_world.specs.ByteOrder.{byte_eq, byte_eq_alike};

    ghost eq = { byte_eq };

    ghost laws = { byte_eq_alike };

    fn eq(&self, other: &Padded<N>) -> bool {
        self.as_slice() == other.as_slice()
    }
}

impl<const N: usize> Eq for Padded<N> {
    ghost use Rattle.cell_world.specs.ByteOrder.{byte_eq_laws};

    ghost laws = { byte_eq_laws };
}

impl<const N: usize> PartialOrd for Padded<N> {
    ghost use Rattle.std.specs.Ordering.{as_partial_cmp};
    ghost use Rattle.cell_world.specs.ByteOrder.{byte_cmp, byte_partial_order};

    ghost partial_cmp = { as_partial_cmp byte_cmp };

    ghost laws = { byte_partial_order };

    fn partial_cmp(&self, other: &Padded<N>) -> Option<Ordering> {
        Some(self.cmp(other))
    }
}

impl<const N: usize> Ord for Padded<N> {
    ghost use Rattle.cell_world.specs.ByteOrder.{byte_cmp, byte_cmp_total, byte_cmp_agrees, byte_cmp_ties};

    ghost cmp = { byte_cmp };

    ghost total = { byte_cmp_total };

    ghost matches_partial_cmp = { byte_cmp_agrees };

    ghost matches_eq = { byte_cmp_ties };

    fn cmp(&self, other: &Padded<N>) -> Ordering {
        self.as_slice().cmp(other.as_slice())
    }
}
