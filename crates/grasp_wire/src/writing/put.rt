//! Where the bytes of a message go: into a vector, or into a count alone.

ghost use Rattle.std.specs.Prelude.{◌≡◌, OnOk};
ghost use Rattle.std.specs.Str.{IsUtf8};
ghost use Rattle.grasp_cbor.specs.DataItem.{unsigned, byte_string, text_string, simple_value};
ghost use Rattle.grasp_cbor.specs.Head.{shortest_head};
ghost use Rattle.grasp_cbor.specs.Shortest.{shortest};
ghost use Rattle.grasp_types.specs.Objective.{IsValue};
ghost use Rattle.grasp_wire.specs.Put.{Place, Puts};

use grasp_cbor::{
    Chars, OutOfMemory, room_after, room_after_head, room_after_string, write_array_head,
    write_byte_string, write_item, write_null, write_text_string, write_unsigned,
};
use grasp_types::Value;

/// The bytes weren't taken: there is no memory or no room for them.
#[derive(Clone, Copy)]
pub(crate) struct Full;

impl From<OutOfMemory> for Full {
    fn from(_: OutOfMemory) -> Full {
        Full
    }
}

/// A place to which the bytes of a message go, part by part. After an `Err` it may have taken some of them.
pub(crate) trait Put {
    /// The bytes are kept.
    ghost Keeps: { Type 0 };

    /// The bytes are counted.
    ghost Counts: { Type 0 };

    ghost place: { Self → Place };

    /// Takes the head of an array of so many items.
    fn array_head(&mut self, count: u64) -> Result<(), Full>
        ensures puts { Puts Keeps Counts (place self.old) (place self.new) (shortest_head 4 count) result };

    /// Takes an unsigned number.
    fn unsigned(&mut self, n: u64) -> Result<(), Full>
        ensures puts { Puts Keeps Counts (place self.old) (place self.new) (shortest (unsigned n)) result };

    /// Takes a byte string.
    fn byte_string(&mut self, bytes: &[u8]) -> Result<(), Full>
        ensures puts { Puts Keeps Counts (place self.old) (place self.new) (shortest (byte_string bytes.now)) result };

    /// Takes a text string.
    fn text_string(&mut self, text: &Chars) -> Result<(), Full>
        ensures puts { Puts Keeps Counts (place self.old) (place self.new) (shortest (text_string text.now)) result }
        ensures utf8 { IsUtf8 text.now };

    /// Takes null.
    fn null(&mut self) -> Result<(), Full>
        ensures puts { Puts Keeps Counts (place self.old) (place self.new) (shortest (simple_value 22)) result };

    /// Takes a value.
    fn value(&mut self, value: &Value) -> Result<(), Full>
        ensures puts { Puts Keeps Counts (place self.old) (place self.new) (shortest value.now) result }
        ensures range { OnOk result (Keeps → IsValue value.now) };
}

impl Put for Vec<u8> {
    ghost Keeps = { Unit {0} };

    ghost Counts = { ⊥ };

    ghost place = { λ v. record { bytes = v.items; room = 0 } };

    fn array_head(&mut self, count: u64) -> Result<(), Full> {
        write_array_head(count, self)?;
        Ok(())
    }

    fn unsigned(&mut self, n: u64) -> Result<(), Full> {
        write_unsigned(n, self)?;
        Ok(())
    }

    fn byte_string(&mut self, bytes: &[u8]) -> Result<(), Full> {
        write_byte_string(bytes, self)?;
        Ok(())
    }

    fn text_string(&mut self, text: &Chars) -> Result<(), Full> {
        write_text_string(text, self)?;
        Ok(())
    }

    fn null(&mut self) -> Result<(), Full> {
        write_null(self)?;
        Ok(())
    }

    fn value(&mut self, value: &Value) -> Result<(), Full> {
        write_item(value.item(), self)?;
        Ok(())
    }
}

/// How many bytes there is still room for.
#[derive(Drop)]
pub(crate) struct Room {
    left: u64,
}

impl Room {
    /// Room for so many bytes.
    pub(crate) fn of(limit: u32) -> Room
        ensures { result.left ≡ limit }
    {
        Room {
            left: u64::from(limit),
        }
    }
}

impl Put for Room {
    ghost use Rattle.std.proofs.Common.{[]};

    ghost Keeps = { ⊥ };

    ghost Counts = { Unit {0} };

    ghost place = { λ r. record { bytes = []; room = r.left } };

    #[tactic(auto, using(crate::proofs::Putting::putting))]
    fn array_head(&mut self, count: u64) -> Result<(), Full> {
        self.left = room_after_head(count, self.left).ok_or(Full)?;
        Ok(())
    }

    #[tactic(auto, using(crate::proofs::Putting::putting))]
    fn unsigned(&mut self, n: u64) -> Result<(), Full> {
        self.left = room_after_head(n, self.left).ok_or(Full)?;
        Ok(())
    }

    #[tactic(auto, using(crate::proofs::Putting::putting))]
    fn byte_string(&mut self, bytes: &[u8]) -> Result<(), Full> {
        self.left = room_after_string(bytes.len() as u64, self.left).ok_or(Full)?;
        Ok(())
    }

    #[tactic(auto, using(crate::proofs::Putting::putting))]
    fn text_string(&mut self, text: &Chars) -> Result<(), Full> {
        self.left = room_after_string(text.bytes().len() as u64, self.left).ok_or(Full)?;
        Ok(())
    }

    fn null(&mut self) -> Result<(), Full> {
        self.left = self.left.checked_sub(1).ok_or(Full)?;
        Ok(())
    }

    fn value(&mut self, value: &Value) -> Result<(), Full> {
        self.left = room_after(value.item(), self.left).ok_or(Full)?;
        Ok(())
    }
}
