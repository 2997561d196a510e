//! Byte strings and text strings (RFC 8949, section 3.1).

ghost use Rattle.std.specs.Prelude.{◌≡◌, ◌<◌, ◌^◌, [], ◌∷◌, ◌++◌, length, slice_get, OnOk, OnErr, IfOk, IfSome, IfNone, encode_utf8};
ghost use Rattle.std.specs.Str.{IsUtf8};

use crate::OutOfMemory;
use std::alloc::{AllocError, Global};
use std::hash::{Hash, Hasher};
use std::marker::Model;

/// The content of a byte string.
#[derive(Debug, Drop)]
pub struct Octets {
    held: Vec<u8>,
}

impl Model for Octets {
    ghost use Rattle.std.specs.Prelude.{List, ℕ};

    ghost Value = { List ℕ };

    ghost view = { λ a. a.held.items };
}

impl Octets {
    /// No bytes.
    pub fn new(alloc: Global) -> Octets
        ensures { result ≡ [] }
    {
        Octets {
            held: Vec::new(alloc),
        }
    }

    /// A copy of these bytes.
    pub fn of(alloc: Global, bytes: &[u8]) -> Result<Octets, OutOfMemory>
        ensures { IfOk result (λ r. r ≡ bytes.now) }
    {
        Ok(Octets {
            held: Vec::from_slice(alloc, bytes)?,
        })
    }

    /// These bytes, which are moved and need no memory.
    pub fn from_vec(bytes: Vec<u8>) -> Octets
        ensures { result ≡ bytes.items }
    {
        Octets { held: bytes }
    }

    /// How many bytes there are.
    pub fn len(&self) -> u64
        ensures { result ≡ length self.now }
    {
        self.held.len() as u64
    }

    /// Adds a byte at the end. After an `Err` the bytes are as before.
    pub fn push(&mut self, byte: u8) -> Result<(), OutOfMemory>
        ensures ok { OnOk result (self.new ≡ self.old ++ byte ∷ []) }
        ensures err { OnErr result (self.new ≡ self.old) }
    {
        self.held.push(byte)?;
        Ok(())
    }

    /// Adds these bytes at the end. After an `Err` the bytes are as before.
    pub fn append(&mut self, bytes: &[u8]) -> Result<(), OutOfMemory>
        ensures ok { OnOk result (self.new ≡ self.old ++ bytes.now) }
        ensures err { OnErr result (self.new ≡ self.old) }
    {
        self.held.extend_from_slice(bytes)?;
        Ok(())
    }

    /// The byte at this place, counted from 0, or `None` past the end.
    pub fn at(&self, i: u64) -> Option<u8>
        ensures { result ≡ slice_get self.now i }
    {
        self.held.get(i as usize).copied()
    }

    /// The bytes.
    pub fn bytes(&self) -> &[u8]
        ensures { result.now ≡ self.now }
    {
        &self.held
    }

    /// Another of the same bytes.
    pub fn copy(&self) -> Result<Octets, OutOfMemory>
        ensures { IfOk result (λ r. r ≡ self.now) }
    {
        Ok(self.clone()?)
    }
}

impl Clone for Octets {
    ghost is_clone = { λ a b. b ≡ a };

    fn clone(&self) -> Result<Octets, AllocError> {
        Ok(Octets {
            held: self.held.clone()?,
        })
    }
}

impl PartialEq for Octets {
    ghost use Rattle.std.specs.Prelude.{bytes_eq};
    ghost use Rattle.std.specs.Cmp.{partial_equiv_from_equiv, decided};
    ghost use Rattle.std.specs.Cmp.Lexicographic.{bytes_decides};

    ghost eq = { bytes_eq };

    ghost laws = { partial_equiv_from_equiv (decided bytes_eq bytes_decides) };

    fn eq(&self, other: &Octets) -> bool {
        self.held.as_slice() == other.held.as_slice()
    }
}

impl Eq for Octets {
    ghost use Rattle.std.specs.Prelude.{bytes_eq};
    ghost use Rattle.std.specs.Cmp.{decided};
    ghost use Rattle.std.specs.Cmp.Lexicographic.{bytes_decides};

    ghost laws = { decided bytes_eq bytes_decides };
}

impl Hash for Octets {
    ghost use Rattle.std.specs.Hash as fed;
    ghost use Rattle.std.proofs.Common.{rules};
    ghost use Rattle.std.specs.Cmp.Rules.{comparing, hashing};

    ghost hash_input = { fed.slice fed.u8 };

    ghost respects_eq = { Prim.search (hashing, rules) };

    fn hash<H: Hasher>(&self, state: &mut H) {
        self.held.as_slice().hash(state);
    }
}

/// The content of a text string, which contracts see as its bytes.
#[derive(Debug, Drop)]
pub struct Chars {
    held: String,
}

impl Model for Chars {
    ghost use Rattle.std.specs.Prelude.{List, ℕ, string_bytes};

    ghost Value = { List ℕ };

    ghost view = { λ a. string_bytes a.held };
}

impl Chars {
    /// No text.
    pub fn new(alloc: Global) -> Chars
        ensures { result ≡ [] }
    {
        Chars {
            held: String::new(alloc),
        }
    }

    /// A copy of this text.
    pub fn of(alloc: Global, text: &str) -> Result<Chars, OutOfMemory>
        ensures { IfOk result (λ r. r ≡ text.now) }
    {
        Ok(Chars {
            held: String::from_str(alloc, text)?,
        })
    }

    /// The text that these bytes are, or `None` where they aren't UTF-8.
    pub fn of_bytes(alloc: Global, bytes: &[u8]) -> Result<Option<Chars>, OutOfMemory>
        ensures text { IfOk result (λ o. IfSome o (λ r. r ≡ bytes.now)) }
        ensures some { IfOk result (λ o. IfSome o (λ _. IsUtf8 bytes.now)) }
        ensures none { IfOk result (λ o. IfNone o (¬ IsUtf8 bytes.now)) }
    {
        match str::from_utf8(bytes) {
            Ok(text) => Ok(Some(Chars::of(alloc, text)?)),
            Err(_) => Ok(None),
        }
    }

    /// The text that these bytes are, which are moved and need no memory, or `None` where they aren't UTF-8.
    pub fn from_vec(bytes: Vec<u8>) -> Option<Chars>
        ensures text { IfSome result (λ r. r ≡ bytes.items) }
        ensures some { IfSome result (λ _. IsUtf8 bytes.items) }
        ensures none { IfNone result (¬ IsUtf8 bytes.items) }
    {
        match String::from_utf8(bytes) {
            Ok(held) => {
                let chars = Chars { held };
                // That its text can be lent tells that the bytes are UTF-8.
                chars.text();
                Some(chars)
            }
            Err(_) => None,
        }
    }

    /// How many bytes the text has.
    pub fn len(&self) -> u64
        ensures { result ≡ length self.now }
    {
        self.held.len() as u64
    }

    /// Adds the UTF-8 bytes of a character at the end. After an `Err` the text is as before.
    pub fn push(&mut self, character: char) -> Result<(), OutOfMemory>
        ensures ok { OnOk result (self.new ≡ self.old ++ encode_utf8 character) }
        ensures err { OnErr result (self.new ≡ self.old) }
    {
        self.held.push(character)?;
        Ok(())
    }

    /// Adds this text at the end. After an `Err` the text is as before.
    pub fn append(&mut self, text: &str) -> Result<(), OutOfMemory>
        ensures ok { OnOk result (self.new ≡ self.old ++ text.now) }
        ensures err { OnErr result (self.new ≡ self.old) }
    {
        self.held.push_str(text)?;
        Ok(())
    }

    /// The byte at this place, counted from 0, or `None` past the end.
    pub fn at(&self, i: u64) -> Option<u8>
        ensures { result ≡ slice_get self.now i }
    {
        self.held.as_bytes().get(i as usize).copied()
    }

    /// The bytes, which are UTF-8.
    pub fn bytes(&self) -> &[u8]
        ensures bytes { result.now ≡ self.now }
        ensures utf8 { IsUtf8 result.now }
    {
        self.held.as_str().as_bytes()
    }

    /// The text.
    pub fn text(&self) -> &str
        ensures text { result.now ≡ self.now }
        ensures utf8 { IsUtf8 self.now }
    {
        self.held.as_str()
    }

    /// Another of the same text.
    pub fn copy(&self) -> Result<Chars, OutOfMemory>
        ensures { IfOk result (λ r. r ≡ self.now) }
    {
        Ok(self.clone()?)
    }
}

impl Clone for Chars {
    ghost is_clone = { λ a b. b ≡ a };

    fn clone(&self) -> Result<Chars, AllocError> {
        Ok(Chars {
            held: self.held.clone()?,
        })
    }
}

impl PartialEq for Chars {
    ghost use Rattle.std.specs.Prelude.{bytes_eq};
    ghost use Rattle.std.specs.Cmp.{partial_equiv_from_equiv, decided};
    ghost use Rattle.std.specs.Cmp.Lexicographic.{bytes_decides};

    ghost eq = { bytes_eq };

    ghost laws = { partial_equiv_from_equiv (decided bytes_eq bytes_decides) };

    fn eq(&self, other: &Chars) -> bool {
        self.held.as_str() == other.held.as_str()
    }
}

impl Eq for Chars {
    ghost use Rattle.std.specs.Prelude.{bytes_eq};
    ghost use Rattle.std.specs.Cmp.{decided};
    ghost use Rattle.std.specs.Cmp.Lexicographic.{bytes_decides};

    ghost laws = { decided bytes_eq bytes_decides };
}

impl Hash for Chars {
    ghost use Rattle.std.specs.Hash as fed;
    ghost use Rattle.std.proofs.Common.{rules};
    ghost use Rattle.std.specs.Cmp.Rules.{comparing, hashing};

    ghost hash_input = { fed.str };

    ghost respects_eq = { Prim.search (hashing, rules) };

    fn hash<H: Hasher>(&self, state: &mut H) {
        self.held.as_str().hash(state);
    }
}
