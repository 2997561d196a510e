//! Why bytes are no messages.

/// Why no further message can be cut from a stream. A place counts from 0, from the first byte of the stream: that of
/// the first byte with which the bytes since the item's first one are no longer the beginning of an item, or, for
/// `TooLong` and `NotMessage`, that of the item's first byte.
#[derive(Clone, Copy, Debug, PartialEq, Eq)]
pub enum CutFault {
    /// An initial byte that is reserved or has an indefinite length in a type that has none; a break where nothing of
    /// indefinite length is innermost, or where a key waits for its value; in a string of indefinite length what is
    /// neither a chunk of its kind nor a break (RFC 8949, section 3); a simple value below 32 in two bytes.
    Malformed { at: u64 },
    /// A byte of a text string that no UTF-8 of its length has there.
    NotText { at: u64 },
    /// An array, a map or a tag inside 16 of these.
    TooDeep { at: u64 },
    /// As many bytes as a message may have can still go on to an item.
    TooLong { at: u64 },
    /// A whole item that is no message (RFC 8990, section 2.8).
    NotMessage { at: u64 },
    /// There was no memory.
    OutOfMemory,
}

/// Why a datagram isn't one message.
#[derive(Clone, Copy, Debug, PartialEq, Eq)]
pub enum OneFault {
    /// A fault as a stream has it.
    Cut(CutFault),
    /// The bytes, of this number, are the beginning of an item and fewer than the limit.
    Truncated { at: u64 },
    /// A message of so many bytes, and more bytes behind it.
    Trailing { at: u64 },
}

/// Why a message isn't written.
#[derive(Clone, Copy, Debug, PartialEq, Eq)]
pub enum EncodeFault {
    /// Its shortest encoding has more bytes than the limit.
    TooLong,
    /// There was no memory.
    OutOfMemory,
}
