//! A room for the bytes of one line or message.

ghost use Rattle.std.specs.Prelude.{◌≡◌, ◌≤◌, ℕ, List, [], ◌∷◌, ◌++◌, ◌+◌, ◌<◌, length, drop, IfSome, decimal, take};
ghost use Rattle.hex.specs.Hex.{encode_lower};
ghost use Rattle.grasp_text.specs.Line.{text_word, escaped, all_escaped};
ghost use Rattle.grasp_text.specs.Words.{spaced};
ghost use Rattle.grasp_cbor.specs.Head.{shortest_head};
ghost use Rattle.grasp_quick.specs.Packed.{Unhexes};

use grasp_text::front_bytes;
use itoa::Buffer;
use std::marker::Model;

/// How many bytes there is room for: more than the line of a message of 2048 bytes needs.
const ROOM: usize = 8448;

const DIGITS: [u8; 16] = *b"0123456789abcdef";

/// The bytes of a line or of a message.
#[derive(Drop)]
pub struct Room {
    bytes: [u8; ROOM],
    len: usize,
}

impl Model for Room {
    ghost use Rattle.std.specs.Prelude.{◌≤◌, ℕ, List, take};

    ghost Value = { List ℕ };

    ghost view = { λ room. take room.len room.bytes };

    ghost invariant = { λ room. room.len ≤ 8448 };
}

impl Room {
    /// An empty room.
    pub fn new() -> Room
        ensures { result ≡ [] }
    {
        Room {
            bytes: [0; ROOM],
            len: 0,
        }
    }

    /// The bytes.
    pub fn bytes(&self) -> &[u8]
        ensures { result.now ≡ self.now }
    {
        &self.bytes[..self.len]
    }

    /// Lets go of the bytes.
    pub fn clear(&mut self)
        ensures { self.new ≡ [] }
    {
        self.len = 0;
    }

    /// Appends these bytes, where there is room.
    #[inline(always)]
    pub fn put(&mut self, word: &[u8]) -> Option<()>
        ensures { IfSome result (λ _. self.new ≡ self.old ++ word.now) }
    {
        if ROOM - self.len < word.len() {
            return None;
        }
        let end = self.len + word.len();
        self.bytes[self.len..end].copy_from_slice(word);
        self.len = end;
        Some(())
    }

    /// Appends the lower-case hexadecimal digits of the bytes.
    pub(crate) fn put_hex(&mut self, bytes: &[u8]) -> Option<()>
        ensures { IfSome result (λ _. self.new ≡ self.old ++ encode_lower bytes.now) }
    {
        let count = bytes.len();
        if (ROOM - self.len) / 2 < count {
            return None;
        }
        let end = self.len + 2 * count;
        if hex::encode_to_slice(bytes, &mut self.bytes[self.len..end]).is_err() {
            return None;
        }
        self.len = end;
        Some(())
    }

    /// Appends a blank and the lower-case hexadecimal digits of the bytes.
    pub(crate) fn put_octets(&mut self, bytes: &[u8]) -> Option<()>
        ensures { IfSome result (λ _. self.new ≡ self.old ++ spaced (encode_lower bytes.now ∷ [])) }
    {
        self.put(b" ")?;
        self.put_hex(bytes)
    }

    /// Appends a blank and a decimal number.
    pub(crate) fn put_number(&mut self, n: u32) -> Option<()>
        ensures { IfSome result (λ _. self.new ≡ self.old ++ spaced (decimal n ∷ [])) }
    {
        self.put(b" ")?;
        let mut buffer = Buffer::new();
        self.put(buffer.format(n).as_bytes())
    }

    /// Appends a blank, an apostrophe and the bytes of a text, escaped where they have to be.
    pub(crate) fn put_text(&mut self, text: &[u8]) -> Option<()>
        ensures { IfSome result (λ _. self.new ≡ self.old ++ spaced (text_word text.now ∷ [])) }
    {
        self.put(b" '")?;
        self.put_all_escaped(text)
    }

    fn put_all_escaped(&mut self, text: &[u8]) -> Option<()>
        ensures { IfSome result (λ _. self.new ≡ self.old ++ all_escaped text.now) }
    {
        for byte in text {
            self.put_escaped(*byte)?;
        }
        Some(())
    }

    #[inline(always)]
    fn put_escaped(&mut self, byte: u8) -> Option<()>
        ensures { IfSome result (λ _. self.new ≡ self.old ++ escaped byte) }
    {
        if 33 <= byte && byte <= 126 && byte != b'%' {
            self.put(&[byte])
        } else {
            self.put(&[
                b'%',
                DIGITS[(byte / 16) as usize],
                DIGITS[(byte % 16) as usize],
            ])
        }
    }

    /// How many bytes there are.
    #[inline(always)]
    pub(crate) fn len(&self) -> usize
        ensures { result ≡ length self.now }
    {
        self.len
    }

    /// Appends the shortest head of a major type and an argument of 32 bits.
    #[inline(always)]
    #[tactic(auto, unfolding(grasp_cbor::specs::Head::shortest_head, grasp_cbor::specs::Head::shortest_size))]
    pub(crate) fn put_head(&mut self, major: u8, n: u64) -> Option<()>
        requires { major < 8 }
        ensures { IfSome result (λ _. self.new ≡ self.old ++ shortest_head major n) }
    {
        let first = 32 * major;
        if n < 24 {
            self.put(&[first + n as u8])
        } else if n < 0x100 {
            self.put(&[first + 24, n as u8])
        } else if n < 0x1_0000 {
            let [a, b] = (n as u16).to_be_bytes();
            self.put(&[first + 25, a, b])
        } else if n < 0x1_0000_0000 {
            let [a, b, c, d] = (n as u32).to_be_bytes();
            self.put(&[first + 26, a, b, c, d])
        } else {
            None
        }
    }

    /// Appends a string of this major type.
    #[inline(always)]
    pub(crate) fn put_string(&mut self, major: u8, content: &[u8]) -> Option<()>
        requires { major < 8 }
        ensures { IfSome result (λ _. self.new ≡ self.old ++ (shortest_head major (length content.now) ++ content.now)) }
    {
        self.put_head(major, content.len() as u64)?;
        self.put(content)
    }

    /// Puts the head of an array of so many parts in place of the byte at this place.
    #[inline(always)]
    pub(crate) fn set_array_head(&mut self, at: usize, count: u8) -> Option<()>
        ensures { IfSome result (λ _. self.new ≡ take at self.old ++ (shortest_head 4 count ++ drop (at + 1) self.old)) }
    {
        if count >= 24 || at >= self.len {
            return None;
        }
        self.bytes[at] = 128 + count;
        Some(())
    }

    /// Appends the bytes of the lower-case hexadecimal digits at the front, and tells how many.
    pub(crate) fn put_front_bytes(&mut self, digits: &[u8]) -> usize
        ensures { Unhexes digits.now result self.old self.new }
    {
        let count = front_bytes(digits, &mut self.bytes[self.len..]);
        self.len += count;
        count
    }
}
