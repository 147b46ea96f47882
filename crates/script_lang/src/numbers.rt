//! Number words: decimal, without a sign and without leading zeros.
ghost use Rattle.std.specs.Prelude.{◌≡◌, ℕ, ◌≤◌, ◌<◌, ◌^◌, IsTrue, IfOk, IfErr, IfSome, IfNone, Some, None, is_some};
ghost use Rattle.std.specs.List.{list_all};
ghost use Rattle.cell_world.specs.Texts.{is_digit};
ghost use Rattle.cell_world.specs.KeyForms.{number_of};
ghost use Rattle.plain_model.specs.declared.finish.Reason.TheVariants.{BadWord};
ghost use Rattle.script_lang.specs.Spelling.{number_within};
ghost use Rattle.script_lang.specs.Reading.{IsRead, IsUnread};
ghost use Rattle.script_lang.specs.Values.{OfNumber};
ghost use Rattle.script_lang.specs.WordKinds as kind;

use plain_model::finish::Reason;

fn is_digit(byte: u8) -> bool
    ensures { result ≡ is_digit byte }
{
    matches!(byte, b'0'..=b'9')
}

fn all_digits(bytes: &[u8]) -> bool
    ensures { result ≡ list_all is_digit bytes.now }
{
    bytes.iter().all(|byte| is_digit(*byte))
}

/// Whether a word is a number, however large.
fn is_number(word: &[u8]) -> bool
    ensures { result ≡ is_some (number_of word.now) }
{
    match word {
        [] => false,
        [only] => is_digit(*only),
        [first, _, ..] => *first != b'0' && all_digits(word),
    }
}

/// The number of a number word, where it is below 2^64.
fn number_at(word: &[u8]) -> Option<u64>
    requires { IsTrue (is_some (number_of word.now)) }
    ensures some { IfSome result (λ n. number_of word.now ≡ Some n) }
    ensures none { IfNone result ((n : ℕ) → number_of word.now ≡ Some n → 2 ^ 64 ≤ n) }
{
    let digits = std::str::from_utf8(word).unwrap();
    match digits.parse::<u64>() {
        Ok(n) => Some(n),
        Err(_) => None,
    }
}

/// The number of a word, from the least to the most.
pub(crate) fn number_within(word: &[u8], least: u64, most: u64) -> Option<u64>
    ensures value { result ≡ number_within least most word.now }
    ensures range { IfSome result (λ n. (least ≤ n) × (n ≤ most)) }
{
    if !is_number(word) {
        return None;
    }
    let number = number_at(word)?;
    if least <= number && number <= most {
        Some(number)
    } else {
        None
    }
}

/// The number of a word, of 32 bits at most.
fn small_at(word: &[u8], number: u32, least: u32, most: u32) -> Result<u32, Reason>
    ensures ok { IfOk result (λ n. number_within least most word.now ≡ Some n) }
    ensures err { IfErr result (λ reason. (reason ≡ BadWord number) × (number_within least most word.now ≡ None)) }
{
    match number_within(word, u64::from(least), u64::from(most)) {
        Some(n) => Ok(n as u32),
        None => Err(Reason::BadWord(number)),
    }
}

/// The number of a connection, from 1 to 64.
#[tactic(auto, unfolding(crate::specs::Spelling::value_of))]
pub(crate) fn connection_at(word: &[u8], number: u32) -> Result<u32, Reason>
    ensures ok { IfOk result (λ n. IsRead kind.Connection word.now (OfNumber n)) }
    ensures err { IfErr result (IsUnread kind.Connection word.now number) }
{
    small_at(word, number, 1, 64)
}

/// The number of a difference or a job, from 1 to 4294967295.
#[tactic(auto, unfolding(crate::specs::Spelling::value_of))]
pub(crate) fn listed_at(word: &[u8], number: u32) -> Result<u32, Reason>
    ensures ok { IfOk result (λ n. IsRead kind.Number word.now (OfNumber n)) }
    ensures err { IfErr result (IsUnread kind.Number word.now number) }
{
    small_at(word, number, 1, u32::MAX)
}

/// The rows of a batch, from 1 to 100,000.
#[tactic(auto, unfolding(crate::specs::Spelling::value_of))]
pub(crate) fn batch_at(word: &[u8], number: u32) -> Result<u32, Reason>
    ensures ok { IfOk result (λ n. IsRead kind.Batch word.now (OfNumber n)) }
    ensures err { IfErr result (IsUnread kind.Batch word.now number) }
{
    small_at(word, number, 1, 100_000)
}

/// The number of a session, from 1 to 16.
#[tactic(auto, unfolding(crate::specs::Spelling::value_of))]
pub(crate) fn session_at(word: &[u8], number: u32) -> Result<u32, Reason>
    ensures ok { IfOk result (λ n. IsRead kind.Session word.now (OfNumber n)) }
    ensures err { IfErr result (IsUnread kind.Session word.now number) }
{
    small_at(word, number, 1, 16)
}

/// The number of a row, from 0 to 18446744073709551615.
#[tactic(auto, unfolding(crate::specs::Spelling::value_of))]
pub(crate) fn row_number_at(word: &[u8], number: u32) -> Result<u64, Reason>
    ensures ok { IfOk result (λ n. IsRead kind.RowNumber word.now (OfNumber n)) }
    ensures err { IfErr result (IsUnread kind.RowNumber word.now number) }
{
    match number_within(word, 0, u64::MAX) {
        Some(n) => Ok(n),
        None => Err(Reason::BadWord(number)),
    }
}
