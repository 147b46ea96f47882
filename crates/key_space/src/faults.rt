//! Why a text is no key.
ghost use Rattle.std.specs.Prelude.{◌<◌, ◌^◌, length, Some, IsTrue, OnOk, IfErr};
ghost use Rattle.text_scan.specs.Walks.{accepts};
ghost use Rattle.key_space.specs.Texts.{IsAtPlace};

use text_scan::machine::Machine;
use text_scan::scanning::scan;
use thiserror::Error;

/// Why a text is no key of a type.
#[derive(Debug, Drop, Clone, Copy, PartialEq, Eq, Error)]
pub enum KeyFault {
    /// The first byte, counted from 0, at which no text of the type's grammar goes on, or the length where the text ends too early.
    #[error("no text of the key type goes on at byte {0}")]
    NotInGrammar(u32),
    /// A number that is none of the type's values.
    #[error("the number is none of the key type's values")]
    OutOfRange,
    /// A bytes key of more than 128 bytes as written.
    #[error("a bytes key of more than 128 bytes")]
    TooLong,
    /// Want of memory. Reading a key takes none, so this comes of its callers alone.
    #[error("out of memory")]
    Memory,
}

/// Whether the text is in the machine's grammar.
pub(crate) fn in_grammar<M: Machine>(text: &[u8]) -> Result<(), KeyFault>
    requires { length text.now < 2 ^ 32 }
    ensures ok { OnOk result (IsTrue (accepts M.next M.is_end (Some M.first) text.now)) }
    ensures err { IfErr result (IsAtPlace (accepts M.next M.is_end (Some M.first)) text.now) }
{
    match scan::<M>(text) {
        Ok(()) => Ok(()),
        Err(place) => {
            prove!(place <= text.len());
            Err(KeyFault::NotInGrammar(place as u32))
        }
    }
}
