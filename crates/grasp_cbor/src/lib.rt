//! Data items of CBOR (RFC 8949). Strings, arrays and maps of indefinite length are read too; what is written has
//! the shortest heads and definite lengths.
//!
//! An item is a tree of nine kinds. A float is a width and a bit pattern, pairs of a map keep their order,
//! and keys may repeat.
#![tactic(auto)]

mod build;
mod compare;
mod front;
mod heads;
mod item_reader;
mod laws;
mod memory;
mod parts;
mod read;
mod room;
mod scalars;
mod short;
mod steps;
mod strings;
mod threads;
mod tree;
mod utf8;
mod walker;
mod write;

pub use build::encodings_are_apart;
pub use compare::behind_shortest;
pub use front::{
    read_array_head, read_byte_string, read_first_item, read_null, read_text_string, read_unsigned,
};
pub use item_reader::ItemReader;
pub use laws::{bytes_are_taken_or_faulty, endings_are_apart, faults_are_alone, fronts_can_go_on};
pub use memory::OutOfMemory;
pub use parts::{
    write_array_head, write_byte_string, write_null, write_text_string, write_unsigned,
};
pub use read::{ItemFault, ReadItem, build_whole, read_item};
pub use room::{room_after, room_after_head, room_after_string};
pub use scalars::{FloatBits, SimpleValue};
pub use short::behind_shortest_item;
pub use steps::Steps;
pub use strings::{Chars, Octets};
pub use threads::{items_may_cross, may_cross};
pub use tree::{Item, Items, Pairs};
pub use walker::{FaultName, Taken};
pub use write::{shortest_encodes, write_item};
