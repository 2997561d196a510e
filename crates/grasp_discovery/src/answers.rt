//! What the calls answer.

use grasp_types::Locators;

/// How a search stands.
#[derive(Debug, Drop)]
pub enum Find {
    /// These locators are cached. The search has ended, where there was one.
    Found(Locators),
    /// The search goes on.
    NotYet,
    /// The search was over without a locator. It has ended.
    Nothing,
    /// There is no search yet, and no locator.
    Fresh,
}

/// Why a search isn't begun.
#[derive(Clone, Copy, Debug, PartialEq, Eq)]
pub enum BeginRefused {
    /// 64 searches are kept.
    SessionsFull,
}

/// The neighbour that a discovery came from: the number of the link, and the neighbour's number on it.
#[derive(Clone, Copy, Debug, PartialEq, Eq)]
pub struct Cause {
    pub link: u8,
    pub from: u8,
}

/// What a discovery that came is to this node.
#[derive(Clone, Copy, Debug, PartialEq, Eq)]
pub enum Heard {
    /// It is remembered.
    Known,
    /// 256 discoveries are remembered: it is dropped.
    NoPlace,
    /// It is remembered from now on.
    New,
}

/// Who asked for a response that came.
#[derive(Clone, Copy, Debug, PartialEq, Eq)]
pub enum Answered {
    /// A search of this node.
    Mine,
    /// A remembered discovery, which this neighbour caused.
    Relay(Cause),
    /// Nobody.
    Stranger,
}
