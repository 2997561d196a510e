//! Names of agents that are numbered.

ghost use Rattle.std.specs.Prelude.{◌≡◌, ◌++◌, decimal, IfOk};

use grasp_cbor::{Chars, OutOfMemory};
use itoa::Buffer;
use std::alloc::Global;

/// The text, and the number in decimal behind it.
pub(crate) fn numbered(alloc: Global, text: &str, number: u8) -> Result<Chars, OutOfMemory>
    ensures { IfOk result (λ name. name ≡ text.now ++ decimal number) }
{
    let mut name = String::new(alloc);
    name.push_str(text)?;
    let mut buffer = Buffer::new();
    name.push_str(buffer.format(number))?;
    Chars::of(alloc, &name)
}
