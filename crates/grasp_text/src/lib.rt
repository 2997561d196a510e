//! Messages as lines of text, in both directions.
//!
//! A line is words with one blank between two. Each message has exactly one line.
#![tactic(auto)]

mod digits;
mod fault;
mod hexes;
mod lists;
mod message;
mod names;
mod numbers;
mod parts;
mod prefixes;
mod texts;
mod values;
mod words;
mod writing;

pub use digits::front_bytes;
pub use fault::{TextFault, WordFault};
pub use hexes::{address, push_address};
pub use message::{
    lines_are_messages_or_bad, lines_are_printable, lines_are_their_words, lines_have_one_message,
    lines_have_one_place, message_of, words_are_read, words_are_taken,
};
pub use numbers::{front_digits, number, push_number};
pub use parts::{read_locator, read_objective, read_optional_locator};
pub use prefixes::{prefix, push_prefix};
pub use texts::{front_plain, push_text, text};
pub use values::{bytes, push_bytes, push_value, value};
pub use words::Words;
pub use writing::{
    line_of, push_line, push_locator, push_objective, push_optional_locator, push_optional_value,
    push_word,
};
