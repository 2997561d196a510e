//! Writing an item part by part, in its shortest encoding (RFC 8949, section 4.2.1).

ghost use Rattle.std.specs.Prelude.{◌≡◌, ◌<◌, ◌++◌, length, OnOk, OnErr};
ghost use Rattle.std.specs.Str.{IsUtf8};
ghost use Rattle.grasp_cbor.specs.DataItem.{unsigned, byte_string, text_string, simple_value};
ghost use Rattle.grasp_cbor.specs.Head.{shortest_head};
ghost use Rattle.grasp_cbor.specs.Shortest.{shortest};

use crate::write::{append, push, write_head};
use crate::{Chars, OutOfMemory};

/// Appends an unsigned number. After an `Err` the vector is as before.
pub fn write_unsigned(n: u64, out: &mut Vec<u8>) -> Result<(), OutOfMemory>
    ensures ok { OnOk result (out.new.items ≡ out.old.items ++ shortest (unsigned n)) }
    ensures err { OnErr result (out.new.items ≡ out.old.items) }
{
    write_head(out, 0, n)
}

/// Appends the head of an array of so many items, which are to follow. After an `Err` the vector is as before.
pub fn write_array_head(count: u64, out: &mut Vec<u8>) -> Result<(), OutOfMemory>
    ensures ok { OnOk result (out.new.items ≡ out.old.items ++ shortest_head 4 count) }
    ensures err { OnErr result (out.new.items ≡ out.old.items) }
{
    write_head(out, 4, count)
}

/// Appends a byte string. After an `Err` the vector is as before.
pub fn write_byte_string(bytes: &[u8], out: &mut Vec<u8>) -> Result<(), OutOfMemory>
    ensures ok { OnOk result (out.new.items ≡ out.old.items ++ shortest (byte_string bytes.now)) }
    ensures err { OnErr result (out.new.items ≡ out.old.items) }
{
    write_string(2, bytes, out)
}

/// Appends a text string. After an `Err` the vector is as before.
pub fn write_text_string(text: &Chars, out: &mut Vec<u8>) -> Result<(), OutOfMemory>
    ensures ok { OnOk result (out.new.items ≡ out.old.items ++ shortest (text_string text.now)) }
    ensures utf8 { IsUtf8 text.now }
    ensures err { OnErr result (out.new.items ≡ out.old.items) }
{
    write_string(3, text.bytes(), out)
}

/// Appends null. After an `Err` the vector is as before.
pub fn write_null(out: &mut Vec<u8>) -> Result<(), OutOfMemory>
    ensures ok { OnOk result (out.new.items ≡ out.old.items ++ shortest (simple_value 22)) }
    ensures err { OnErr result (out.new.items ≡ out.old.items) }
{
    push(out, 0xf6)
}

/// Appends a string of this major type.
fn write_string(major: u8, bytes: &[u8], out: &mut Vec<u8>) -> Result<(), OutOfMemory>
    requires { major < 8 }
    ensures ok { OnOk result (out.new.items ≡ out.old.items ++ (shortest_head major (length bytes.now) ++ bytes.now)) }
    ensures err { OnErr result (out.new.items ≡ out.old.items) }
{
    let len = out.len();
    write_head(out, major, bytes.len() as u64)?;
    let written = append(out, bytes);
    if written.is_err() {
        out.truncate(len);
    }
    written
}
