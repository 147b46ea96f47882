//! Keys of six types: their values, their normal forms and their texts.
#![tactic(auto)]

mod bytes_texts;
mod decimals;
pub mod faults;
mod guid_texts;
mod hex_digits;
pub mod keys;
pub mod laws;
mod numbers;
pub mod reading;
pub mod values;
pub mod writing;
