//! Reading heads, and the strings and numbers behind them (RFC 8949, section 3).

ghost use Rattle.std.specs.Prelude.{◌≡◌, ◌<◌, length, if◌then◌else◌, option_map, Some, None, IfErr};
ghost use Rattle.std.specs.Str.{is_utf8};
ghost use Rattle.std.specs.Int.{w16, w32, w64};
ghost use Rattle.grasp_cbor.specs.Major.{major_number, major_of};
ghost use Rattle.grasp_cbor.specs.Build.{Gives, byte_at, number_at, argument_at, head_at, open_at, break_at, bytes_at, text_at, chunk_at};
ghost use Rattle.grasp_cbor.specs.declared.heads.BuildError.TheVariants.{NotItem};
ghost use Rattle.grasp_cbor.specs.declared.heads.StringKind.TheVariants as kinds;

use crate::OutOfMemory;

/// Why no item was made of bytes.
#[derive(Clone, Copy, Debug, PartialEq, Eq)]
pub(crate) enum BuildError {
    /// No beginning of the bytes is an item of the depth that was allowed.
    NotItem,
    /// There was no memory.
    Memory,
}

impl From<OutOfMemory> for BuildError {
    ghost use Rattle.std.specs.Prelude.{◌≡◌};
    ghost use Rattle.grasp_cbor.specs.declared.heads.BuildError.TheVariants.{Memory};

    ghost from_gives = { λ _ e. e ≡ Memory };

    fn from(_: OutOfMemory) -> BuildError {
        BuildError::Memory
    }
}

/// A major type.
#[derive(Clone, Copy, Debug, PartialEq, Eq)]
pub(crate) enum Major {
    Unsigned,
    Negative,
    ByteString,
    TextString,
    Array,
    Map,
    Tag,
    Simple,
}

impl Major {
    /// The major type of a number below 8.
    #[tactic(auto, unfolding(crate::specs::Major::major_of))]
    pub(crate) fn of(number: u8) -> Major
        ensures { result ≡ major_of number }
    {
        match number {
            0 => Major::Unsigned,
            1 => Major::Negative,
            2 => Major::ByteString,
            3 => Major::TextString,
            4 => Major::Array,
            5 => Major::Map,
            6 => Major::Tag,
            _ => Major::Simple,
        }
    }

    /// Its number.
    pub(crate) fn number(self) -> u8
        ensures value { result ≡ major_number self }
        ensures range { result < 8 }
    {
        match self {
            Major::Unsigned => 0,
            Major::Negative => 1,
            Major::ByteString => 2,
            Major::TextString => 3,
            Major::Array => 4,
            Major::Map => 5,
            Major::Tag => 6,
            Major::Simple => 7,
        }
    }
}

/// A kind of string.
#[derive(Clone, Copy, Debug, PartialEq, Eq)]
pub(crate) enum StringKind {
    Bytes,
    Text,
}

impl StringKind {
    ghost use Rattle.grasp_cbor.specs.Encodes.{string_major};

    /// The number of its major type.
    pub(crate) fn major(self) -> u8
        ensures { result ≡ string_major self }
    {
        match self {
            StringKind::Bytes => 2,
            StringKind::Text => 3,
        }
    }
}

/// The argument of a head, in as many bytes as it takes there.
#[derive(Clone, Copy)]
pub(crate) enum Argument {
    Direct(u8),
    One(u8),
    Two(u16),
    Four(u32),
    Eight(u64),
}

impl Argument {
    ghost use Rattle.grasp_cbor.specs.Build.{value_of};

    /// Its value.
    pub(crate) fn value(self) -> u64
        ensures { result ≡ value_of self }
    {
        match self {
            Argument::Direct(n) | Argument::One(n) => u64::from(n),
            Argument::Two(n) => u64::from(n),
            Argument::Four(n) => u64::from(n),
            Argument::Eight(n) => n,
        }
    }
}

/// The head of an item.
#[derive(Clone, Copy)]
pub(crate) struct Head {
    pub(crate) major: Major,
    pub(crate) argument: Argument,
}

/// What has an indefinite length (RFC 8949, section 3.2).
#[derive(Clone, Copy)]
pub(crate) enum Open {
    String(StringKind),
    Items,
    Pairs,
}

/// What of indefinite length the bytes open, and what follows.
#[tactic(auto, unfolding(crate::specs::Build::opened_by))]
pub(crate) fn read_open(bytes: &[u8]) -> Option<(Open, &[u8])>
    ensures { option_map (λ x. (x.0, x.1.now)) result ≡ open_at bytes.now }
{
    match bytes {
        [0x5f, rest @ ..] => Some((Open::String(StringKind::Bytes), rest)),
        [0x7f, rest @ ..] => Some((Open::String(StringKind::Text), rest)),
        [0x9f, rest @ ..] => Some((Open::Items, rest)),
        [0xbf, rest @ ..] => Some((Open::Pairs, rest)),
        _ => None,
    }
}

/// What follows the break that the bytes begin with (RFC 8949, section 3.2.1).
pub(crate) fn read_break(bytes: &[u8]) -> Option<&[u8]>
    ensures { option_map (λ x. x.now) result ≡ break_at bytes.now }
{
    match bytes {
        [0xff, rest @ ..] => Some(rest),
        _ => None,
    }
}

/// Reads a head.
#[tactic(auto, unfolding(crate::specs::Build::head_at))]
pub(crate) fn read_head(bytes: &[u8]) -> Result<(Head, &[u8]), BuildError>
    ensures { Gives (λ x. (x.0, x.1.now)) result (head_at bytes.now) }
{
    let (first, rest) = read_byte(bytes)?;
    let (argument, rest) = read_argument(first % 32, rest)?;
    Ok((
        Head {
            major: Major::of(first / 32),
            argument,
        },
        rest,
    ))
}

#[tactic(auto, unfolding(crate::specs::Build::argument_at))]
pub(crate) fn read_argument(info: u8, bytes: &[u8]) -> Result<(Argument, &[u8]), BuildError>
    ensures found { Gives (λ x. (x.0, x.1.now)) result (argument_at info bytes.now) }
    ensures err { IfErr result (λ e. e ≡ NotItem) }
{
    if info < 24 {
        Ok((Argument::Direct(info), bytes))
    } else if info == 24 {
        let (n, rest) = read_byte(bytes)?;
        Ok((Argument::One(n), rest))
    } else if info == 25 {
        let (n, rest) = read_16(bytes)?;
        Ok((Argument::Two(n), rest))
    } else if info == 26 {
        let (n, rest) = read_32(bytes)?;
        Ok((Argument::Four(n), rest))
    } else if info == 27 {
        let (n, rest) = read_64(bytes)?;
        Ok((Argument::Eight(n), rest))
    } else {
        Err(BuildError::NotItem)
    }
}

pub(crate) fn read_byte(bytes: &[u8]) -> Result<(u8, &[u8]), BuildError>
    ensures found { Gives (λ x. (x.0, x.1.now)) result (byte_at bytes.now) }
    ensures err { IfErr result (λ e. e ≡ NotItem) }
{
    match bytes {
        [] => Err(BuildError::NotItem),
        [first, rest @ ..] => Ok((*first, rest)),
    }
}

fn read_16(bytes: &[u8]) -> Result<(u16, &[u8]), BuildError>
    ensures found { Gives (λ x. (x.0, x.1.now)) result (number_at w16 bytes.now) }
    ensures err { IfErr result (λ e. e ≡ NotItem) }
{
    if bytes.len() < 2 {
        return Err(BuildError::NotItem);
    }
    let (f, rest) = bytes.split_at(2);
    Ok((u16::from_be_bytes([f[0], f[1]]), rest))
}

fn read_32(bytes: &[u8]) -> Result<(u32, &[u8]), BuildError>
    ensures found { Gives (λ x. (x.0, x.1.now)) result (number_at w32 bytes.now) }
    ensures err { IfErr result (λ e. e ≡ NotItem) }
{
    if bytes.len() < 4 {
        return Err(BuildError::NotItem);
    }
    let (f, rest) = bytes.split_at(4);
    Ok((u32::from_be_bytes([f[0], f[1], f[2], f[3]]), rest))
}

fn read_64(bytes: &[u8]) -> Result<(u64, &[u8]), BuildError>
    ensures found { Gives (λ x. (x.0, x.1.now)) result (number_at w64 bytes.now) }
    ensures err { IfErr result (λ e. e ≡ NotItem) }
{
    if bytes.len() < 8 {
        return Err(BuildError::NotItem);
    }
    let (f, rest) = bytes.split_at(8);
    Ok((
        u64::from_be_bytes([f[0], f[1], f[2], f[3], f[4], f[5], f[6], f[7]]),
        rest,
    ))
}

/// The first so many bytes, and the rest.
#[tactic(auto, unfolding(crate::specs::Build::bytes_at))]
pub(crate) fn read_bytes(n: u64, bytes: &[u8]) -> Result<(&[u8], &[u8]), BuildError>
    ensures { Gives (λ x. (x.0.now, x.1.now)) result (bytes_at n bytes.now) }
{
    if (bytes.len() as u64) < n {
        return Err(BuildError::NotItem);
    }
    Ok(bytes.split_at(n as usize))
}

/// The first so many bytes as text, and the rest.
#[tactic(auto, unfolding(crate::specs::Build::text_at))]
pub(crate) fn read_text(n: u64, bytes: &[u8]) -> Result<(&str, &[u8]), BuildError>
    ensures { Gives (λ x. (x.0.now, x.1.now)) result (text_at n bytes.now) }
{
    let (front, rest) = read_bytes(n, bytes)?;
    match as_text(front) {
        Some(text) => Ok((text, rest)),
        None => Err(BuildError::NotItem),
    }
}

/// A chunk of a byte string of indefinite length, which has a length of its own (RFC 8949, section 3.2.3).
#[tactic(auto, unfolding(crate::specs::Build::chunk_at))]
pub(crate) fn read_byte_chunk(bytes: &[u8]) -> Result<(&[u8], &[u8]), BuildError>
    ensures { Gives (λ x. (x.0.now, x.1.now)) result (chunk_at kinds.Bytes bytes.now) }
{
    let (head, rest) = read_head(bytes)?;
    match head.major {
        Major::ByteString => read_bytes(head.argument.value(), rest),
        _ => Err(BuildError::NotItem),
    }
}

/// A chunk of a text string of indefinite length, which is text by itself (RFC 8949, section 3.2.3).
#[tactic(auto, unfolding(crate::specs::Build::chunk_at))]
pub(crate) fn read_text_chunk(bytes: &[u8]) -> Result<(&str, &[u8]), BuildError>
    ensures { Gives (λ x. (x.0.now, x.1.now)) result (chunk_at kinds.Text bytes.now) }
{
    let (head, rest) = read_head(bytes)?;
    match head.major {
        Major::TextString => read_text(head.argument.value(), rest),
        _ => Err(BuildError::NotItem),
    }
}

#[tactic(auto, using(crate::proofs::Utf8Test::tests))]
pub(crate) fn as_text(bytes: &[u8]) -> Option<&str>
    ensures { option_map (λ s. s.now) result ≡ (if is_utf8 bytes.now then Some bytes.now else None) }
{
    match str::from_utf8(bytes) {
        Ok(text) => Some(text),
        Err(_) => None,
    }
}
