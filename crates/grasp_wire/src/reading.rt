//! Readers of the parts of a message.

pub(crate) mod address;
pub(crate) mod answer;
pub(crate) mod flood;
pub(crate) mod kinds;
pub(crate) mod locator;
pub(crate) mod objective;
pub(crate) mod scalars;
pub(crate) mod verdict;
