//! Lines of a script of a network of doubters.

use grasp_cbor::Chars;
use grasp_script::LineAct;
use grasp_types::{List, Prefix};

/// What a line behind the header is.
#[derive(Debug, Drop)]
pub enum DoubtLineAct {
    /// What a line of any script is.
    Plain(LineAct),
    /// The node's doubter makes its next call.
    Doubter { node: u8 },
    /// The node's doubter is to ask at this peer whether the prefix was ever accepted.
    Ask { node: u8, prefix: Prefix, peer: u8 },
}

/// A line behind the header.
#[derive(Debug, Drop)]
pub struct DoubtLine {
    /// The line, without its line end.
    pub text: Chars,
    /// What it is.
    pub act: DoubtLineAct,
}

/// The lines behind the header, in order.
pub type DoubtLines = List<DoubtLine>;
