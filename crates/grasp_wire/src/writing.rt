//! Spelling messages in their shortest encoding (RFC 8949, section 4.2.1), whether the bytes are kept or only counted.

pub(crate) mod lists;
pub(crate) mod message;
pub(crate) mod parts;
pub(crate) mod put;
