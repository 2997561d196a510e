//! Lines of a script.

use grasp_cbor::Chars;
use grasp_model_network::Event;
use grasp_types::List;

/// What a line of a script behind its header is.
#[derive(Debug, Drop)]
pub enum LineAct {
    /// An event of the network.
    Event(Event),
    /// The state of this node is shown.
    State { node: u8 },
}

/// A line of a script behind its header.
#[derive(Debug, Drop)]
pub struct Line {
    /// The line, without its line end.
    pub text: Chars,
    /// What it is.
    pub act: LineAct,
}

/// The lines of a script behind its header, in order.
pub type Lines = List<Line>;
