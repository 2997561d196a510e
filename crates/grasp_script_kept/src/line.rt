//! Lines of a script of a network whose nodes crash.

use grasp_cbor::Chars;
use grasp_disk::Left;
use grasp_script::Line;
use grasp_types::List;

/// A line behind the header.
#[derive(Debug, Drop)]
pub enum KeptLine {
    /// A line of any script.
    Plain(Line),
    /// The node's agent makes its next call on a disk that stops after so many calls, or at the end of the call. Then the node crashes
    /// and begins anew with what is left.
    Crash {
        /// The line, without its line end.
        text: Chars,
        node: u8,
        calls: u64,
        left: Left,
    },
}

/// The lines behind the header, in order.
pub type KeptLines = List<KeptLine>;
