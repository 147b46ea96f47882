//! What an event comes to before its lines are written.

use crate::answers::Answer;
use plain_model::commands::Command;

/// What a command that was asked, or that went on, came to.
#[derive(Drop)]
pub enum Came {
    /// Its operation of this number is live.
    Going(u64),
    /// It ended with an answer. The number is that of its operation, once its log row was tried, and 0 before.
    Ended(Command, Answer, u64),
}
