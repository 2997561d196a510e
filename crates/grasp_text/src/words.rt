//! The words of a line, one after another.

ghost use Rattle.std.specs.Prelude.{◌≡◌, ◌∷◌, [], List, ℕ, true, false, length, take, codes, ◌≤◌, IfOk, IfErr, OnErr, IfSome, IfNone, decimal, option_map};
ghost use Rattle.grasp_types.specs.Address.{IsAddress};
ghost use Rattle.grasp_types.specs.Objective.{IsValue};
ghost use Rattle.grasp_text.specs.Line.{address_word, text_word, value_word};
ghost use Rattle.grasp_text.specs.declared.fault.WordFault.TheVariants.{Unfit};
ghost use Rattle.grasp_text.specs.Reading.{ArePlain, Reads, word_at, end_at, exactly, maybe_of, number_of, address_of, text_of, value_of};
ghost use Rattle.grasp_text.specs.Words.{words_of, words_left, joined, is_over, is_next, HasNoBlank};

use crate::digits::front_bytes;
use crate::fault::WordFault;
use crate::hexes::{address, v4_address, v6_address};
use crate::numbers::{front_digits, number};
use crate::texts::{behind, front_plain, text};
use crate::values::{value, value_of_bytes};
use grasp_cbor::{Chars, OutOfMemory};
use grasp_types::{Address, Flags, Value};
use memchr::memchr;
use std::alloc::Global;
use std::marker::Model;

/// The most bytes of a value that are read before its word's end is looked for.
const MOST_FRONT_BYTES: usize = 64;

/// What stands behind the word that the first `end` bytes are: `Some(None)` where the line ends there. `None` where no
/// word ends there.
fn behind_word(rest: &[u8], end: usize) -> Option<Option<&[u8]>>
    requires inside { end ≤ length rest.now }
    requires whole { HasNoBlank (take end rest.now) }
    ensures { IfSome result (λ left. words_of rest.now ≡ take end rest.now ∷ words_left (option_map (λ s. s.now) left)) }
{
    if end == rest.len() {
        Some(None)
    } else if rest[end] == b' ' {
        Some(Some(&rest[end + 1..]))
    } else {
        None
    }
}

/// The words of a line that are left to read.
#[derive(Drop)]
pub struct Words<'a> {
    left: Option<&'a [u8]>,
}

impl<'a> Model for Words<'a> {
    ghost use Rattle.std.specs.Prelude.{List, ℕ, option_map};
    ghost use Rattle.grasp_text.specs.Words.{words_left};

    ghost Value = { List (List ℕ) };

    ghost view = { λ a. words_left (option_map (λ s. s.now) a.left) };
}

impl<'a> Words<'a> {
    /// The words of a line.
    pub fn of(line: &'a [u8]) -> Words<'a>
        ensures { result ≡ words_of line.now }
    {
        Words { left: Some(line) }
    }

    /// How many bytes of the line are left, from the next word on.
    #[tactic(auto, using(crate::proofs::Splitting::joined_again))]
    pub fn left(&self) -> u64
        ensures { result ≡ length (joined self.now) }
    {
        match self.left {
            Some(rest) => rest.len() as u64,
            None => 0,
        }
    }

    /// Takes the next word, or `None` where no word is left.
    #[tactic(auto, using(crate::proofs::Splitting::word_before, crate::proofs::Splitting::one_word))]
    pub fn take(&mut self) -> Option<&'a [u8]>
        ensures some { IfSome result (λ w. self.old ≡ w.now ∷ self.new) }
        ensures none { IfNone result ((self.old ≡ []) × (self.new ≡ [])) }
    {
        let rest = self.left?;
        match memchr(b' ', rest) {
            Some(at) => {
                self.left = Some(&rest[at + 1..]);
                Some(&rest[..at])
            }
            None => {
                self.left = None;
                Some(rest)
            }
        }
    }

    /// Whether no word is left.
    #[tactic(auto, using(crate::proofs::Splitting::over_left))]
    pub fn is_over(&self) -> bool
        ensures { result ≡ is_over self.now }
    {
        self.left.is_none()
    }

    /// Whether this is the next word.
    #[tactic(auto, using(crate::proofs::Splitting::splitting))]
    pub fn is_next(&self, expected: &[u8]) -> bool
        ensures { result ≡ is_next expected.now self.now }
    {
        let mut words = Words { left: self.left };
        match words.take() {
            Some(word) => word == expected,
            None => false,
        }
    }

    /// Takes the next word. With it comes the fault for a word that doesn't fit there.
    pub fn next(&mut self) -> Result<(&'a [u8], WordFault), WordFault>
        ensures word { IfOk result (λ x. self.old ≡ x.0.now ∷ self.new) }
        ensures unfit { IfOk result (λ x. x.1 ≡ Unfit (length (joined self.old))) }
        ensures missing { IfErr result (λ e. (self.old ≡ []) × (e ≡ Unfit 0)) }
        ensures stays { IfErr result (λ e. self.new ≡ self.old) }
    {
        let left = self.left();
        match self.take() {
            Some(word) => Ok((word, WordFault::Unfit { left })),
            None => Err(WordFault::Unfit { left: 0 }),
        }
    }

    /// Whether the words are over. The fault is that of the next word.
    pub fn end(&mut self) -> Result<(), WordFault>
        ensures { Reads (λ u. u) result self.new (end_at {A = Unit {0}} tt self.old) }
    {
        let left = self.left();
        match self.take() {
            Some(_) => Err(WordFault::Unfit { left }),
            None => Ok(()),
        }
    }

    /// Takes a number that is at most `most`.
    pub fn number(&mut self, most: u64) -> Result<u64, WordFault>
        ensures found { IfOk result (λ n. self.old ≡ decimal n ∷ self.new) }
        ensures value { Reads (λ n. n) result self.new (word_at (number_of most) self.old) }
        ensures within { IfOk result (λ n. n ≤ most) }
    {
        match self.front_number(most) {
            Some(n) => Ok(n),
            None => self.any_number(most),
        }
    }

    /// As `number`, read when the word's end was found. This and the others that read so are never inlined: what reads
    /// at the front then needs no saved registers.
    #[inline(never)]
    fn any_number(&mut self, most: u64) -> Result<u64, WordFault>
        ensures found { IfOk result (λ n. self.old ≡ decimal n ∷ self.new) }
        ensures value { Reads (λ n. n) result self.new (word_at (number_of most) self.old) }
        ensures within { IfOk result (λ n. n ≤ most) }
    {
        let (word, unfit) = self.next()?;
        match number(word, most) {
            Some(n) => Ok(n),
            None => Err(unfit),
        }
    }

    /// Takes a number whose digits are read before the word's end is looked for. Nothing is taken after `None`, which
    /// says nothing of the next word.
    fn front_number(&mut self, most: u64) -> Option<u64>
        ensures found { IfSome result (λ n. self.old ≡ decimal n ∷ self.new) }
        ensures within { IfSome result (λ n. n ≤ most) }
        ensures none { IfNone result (self.new ≡ self.old) }
    {
        let rest = self.left?;
        let (n, end) = front_digits(rest);
        if end == 0 || n > most || (end > 1 && rest[0] == b'0') {
            return None;
        }
        self.left = behind_word(rest, end)?;
        Some(n)
    }

    /// Takes an address.
    pub fn address(&mut self) -> Result<Address, WordFault>
        ensures found { IfOk result (λ a. self.old ≡ address_word a ∷ self.new) }
        ensures value { Reads (λ a. a) result self.new (word_at address_of self.old) }
    {
        match self.front_address() {
            Some(address) => Ok(address),
            None => self.any_address(),
        }
    }

    /// As `address`, read when the word's end was found.
    #[inline(never)]
    fn any_address(&mut self) -> Result<Address, WordFault>
        ensures found { IfOk result (λ a. self.old ≡ address_word a ∷ self.new) }
        ensures value { Reads (λ a. a) result self.new (word_at address_of self.old) }
    {
        let (word, unfit) = self.next()?;
        address(word).ok_or(unfit)
    }

    /// Takes an address whose digits are read before the word's end is looked for. Nothing is taken after `None`, which
    /// says nothing of the next word.
    fn front_address(&mut self) -> Option<Address>
        ensures found { IfSome result (λ a. self.old ≡ address_word a ∷ self.new) }
        ensures valid { IfSome result IsAddress }
        ensures none { IfNone result (self.new ≡ self.old) }
    {
        let rest = self.left?;
        if rest.len() >= 32 {
            if let Some(n) = v6_address(&rest[..32]) {
                self.left = behind_word(rest, 32)?;
                return Some(Address::V6(n));
            }
        }
        if rest.len() >= 8 {
            if let Some(n) = v4_address(&rest[..8]) {
                self.left = behind_word(rest, 8)?;
                return Some(Address::V4(n));
            }
        }
        None
    }

    /// Takes this very word.
    pub fn exactly(&mut self, expected: &[u8]) -> Result<(), WordFault>
        ensures { Reads (λ u. u) result self.new (word_at (exactly expected.now) self.old) }
    {
        let (word, unfit) = self.next()?;
        if word == expected { Ok(()) } else { Err(unfit) }
    }

    /// Takes a number of 32 bits.
    pub fn u32(&mut self) -> Result<u32, WordFault>
        ensures { Reads (λ n. n) result self.new (word_at (number_of 4294967295) self.old) }
    {
        Ok(self.number(4294967295)? as u32)
    }

    /// Takes the flags of an objective, 0 to 15.
    pub fn flags(&mut self) -> Result<Flags, WordFault>
        ensures { Reads (λ f. f) result self.new (word_at (number_of 15) self.old) }
    {
        let bits = self.number(15)? as u8;
        match Flags::of(bits) {
            Some(flags) => Ok(flags),
            None => unreachable!(),
        }
    }

    /// Takes a text.
    pub fn text(&mut self, alloc: Global) -> Result<Chars, WordFault>
        ensures found { IfOk result (λ t. self.old ≡ text_word t ∷ self.new) }
        ensures value { Reads (λ t. t) result self.new (word_at text_of self.old) }
    {
        let Some(plain) = self.front_text() else {
            return self.any_text(alloc);
        };
        match Chars::of_bytes(alloc, plain)? {
            Some(text) => Ok(text),
            None => unreachable!(),
        }
    }

    /// As `text`, read when the word's end was found.
    #[inline(never)]
    fn any_text(&mut self, alloc: Global) -> Result<Chars, WordFault>
        ensures found { IfOk result (λ t. self.old ≡ text_word t ∷ self.new) }
        ensures value { Reads (λ t. t) result self.new (word_at text_of self.old) }
    {
        let (word, unfit) = self.next()?;
        text(alloc, word)?.ok_or(unfit)
    }

    /// Takes a text's word in which every byte stands for itself, and gives these bytes. Nothing is taken after `None`,
    /// which says nothing of the next word.
    fn front_text(&mut self) -> Option<&'a [u8]>
        ensures word { IfSome result (λ t. self.old ≡ (39 ∷ t.now) ∷ self.new) }
        ensures plain { IfSome result (λ t. ArePlain t.now) }
        ensures none { IfNone result (self.new ≡ self.old) }
    {
        let rest = self.left?;
        let text = behind(b'\'', rest)?;
        let end = front_plain(text);
        self.left = behind_word(rest, end + 1)?;
        Some(&text[..end])
    }

    /// Takes the first word of an objective.
    pub(crate) fn objective(&mut self) -> Result<(), WordFault>
        ensures { Reads (λ u. u) result self.new (word_at (exactly (codes "obj")) self.old) }
    {
        if let Some([b'o', b'b', b'j', b' ', rest @ ..]) = self.left {
            self.left = Some(rest);
            return Ok(());
        }
        self.exactly(b"obj")
    }

    /// Takes a value.
    pub fn value(&mut self, alloc: Global) -> Result<Value, WordFault>
        ensures found { IfOk result (λ v. self.old ≡ value_word v ∷ self.new) }
        ensures value { Reads (λ v. v) result self.new (word_at value_of self.old) }
    {
        match self.front_value(alloc)? {
            Some(value) => Ok(value),
            None => self.any_value(alloc),
        }
    }

    /// As `value`, read when the word's end was found.
    #[inline(never)]
    fn any_value(&mut self, alloc: Global) -> Result<Value, WordFault>
        ensures found { IfOk result (λ v. self.old ≡ value_word v ∷ self.new) }
        ensures value { Reads (λ v. v) result self.new (word_at value_of self.old) }
    {
        let (word, unfit) = self.next()?;
        value(alloc, word)?.ok_or(unfit)
    }

    /// Takes a value whose digits are read before the word's end is looked for. Nothing is taken after `None`, which
    /// says nothing of the next word.
    fn front_value(&mut self, alloc: Global) -> Result<Option<Value>, OutOfMemory>
        ensures found { IfOk result (λ o. IfSome o (λ v. self.old ≡ value_word v ∷ self.new)) }
        ensures valid { IfOk result (λ o. IfSome o IsValue) }
        ensures none { IfOk result (λ o. IfNone o (self.new ≡ self.old)) }
        ensures err { OnErr result (self.new ≡ self.old) }
    {
        let Some(rest) = self.left else {
            return Ok(None);
        };
        let Some(digits) = behind(b'x', rest) else {
            return Ok(None);
        };
        let mut room = [0u8; MOST_FRONT_BYTES];
        let count = front_bytes(digits, &mut room);
        let Some(left) = behind_word(rest, 2 * count + 1) else {
            return Ok(None);
        };
        let Some(value) = value_of_bytes(alloc, &room[..count])? else {
            return Ok(None);
        };
        self.left = left;
        Ok(Some(value))
    }

    /// Takes a value, or `-` for none.
    pub fn optional_value(&mut self, alloc: Global) -> Result<Option<Value>, WordFault>
        ensures { Reads (λ v. v) result self.new (word_at (maybe_of value_of) self.old) }
    {
        if let Some(value) = self.front_value(alloc)? {
            return Ok(Some(value));
        }
        if self.front_none() {
            return Ok(None);
        }
        self.any_optional_value(alloc)
    }

    /// As `optional_value`, read when the word's end was found.
    #[inline(never)]
    fn any_optional_value(&mut self, alloc: Global) -> Result<Option<Value>, WordFault>
        ensures { Reads (λ v. v) result self.new (word_at (maybe_of value_of) self.old) }
    {
        let (word, unfit) = self.next()?;
        match word {
            b"-" => Ok(None),
            _ => match value(alloc, word)? {
                Some(value) => Ok(Some(value)),
                None => Err(unfit),
            },
        }
    }

    /// Takes the word `-`, or nothing where the next word is another.
    fn front_none(&mut self) -> bool
        ensures found { result ≡ true → self.old ≡ codes "-" ∷ self.new }
        ensures none { result ≡ false → self.new ≡ self.old }
    {
        let Some(rest) = self.left else {
            return false;
        };
        if behind(b'-', rest).is_none() {
            return false;
        }
        match behind_word(rest, 1) {
            Some(left) => {
                self.left = left;
                true
            }
            None => false,
        }
    }
}
