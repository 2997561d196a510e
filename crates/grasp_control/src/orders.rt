//! Writing how the wants of a node stand.

ghost use Rattle.std.specs.Prelude.{◌≡◌, ◌++◌, ◌∷◌, [], codes, decimal, OnOk, OnErr, string_bytes};
ghost use Rattle.grasp_cbor.specs.Extends.{Extends};
ghost use Rattle.grasp_text.specs.Words.{spaced};
ghost use Rattle.grasp_control.specs.Orders.{end_words, standing_words, order_words};

use grasp_agent::WantEnd;
use grasp_cbor::OutOfMemory;
use grasp_script::push_count;
use grasp_text::{push_locator, push_number, push_prefix, push_word};
use grasp_types::Locator;
use std::alloc::Global;

/// How a want stands.
#[derive(Clone, Copy, Debug, PartialEq, Eq)]
pub enum Standing {
    /// The peer is asked.
    Asking,
    /// The peer is asked, once more or for the first time, in so many milliseconds.
    Waiting { millis: u64 },
    /// It ended so, and the peer isn't asked again.
    Ended(WantEnd),
}

/// A want of a node, and how it stands.
#[derive(Debug, Drop)]
pub struct Order {
    /// Its number at the node, from 1.
    pub number: u64,
    /// The length in bits that is asked for, 1 to 128.
    pub length: u8,
    /// The greatest length that is taken, from `length` to 128.
    pub longest: u8,
    /// Whom it asks.
    pub peer: Locator,
    /// How often the peer was asked.
    pub tries: u64,
    /// How it stands.
    pub standing: Standing,
}

/// Appends how a want ended, each word behind a blank. After an `Err` a part of them may have been appended.
#[tactic(auto, using(crate::proofs::Pushed::pushes))]
pub(crate) fn push_end(alloc: Global, out: &mut String, end: WantEnd) -> Result<(), OutOfMemory>
    ensures text { OnOk result (string_bytes out.new ≡ string_bytes out.old ++ spaced (end_words end)) }
    ensures err { OnErr result (Extends (string_bytes out.old) (string_bytes out.new)) }
{
    match end {
        WantEnd::Held(prefix) => {
            push_word(out, "held")?;
            push_prefix(alloc, out, prefix)
        }
        WantEnd::Declined => push_word(out, "declined"),
        WantEnd::TimedOut => push_word(out, "timedout"),
        WantEnd::Broken => push_word(out, "broken"),
        WantEnd::OutOfMemory => push_word(out, "outofmemory"),
        WantEnd::Invalid => push_word(out, "invalid"),
        WantEnd::Empty => push_word(out, "empty"),
        WantEnd::Refused(refusal) => push_count(out, "refused", u64::from(refusal.number())),
    }
}

/// Appends how a want stands, each word behind a blank.
#[tactic(auto, using(crate::proofs::Pushed::pushes))]
fn push_standing(alloc: Global, out: &mut String, standing: Standing) -> Result<(), OutOfMemory>
    ensures text { OnOk result (string_bytes out.new ≡ string_bytes out.old ++ spaced (standing_words standing)) }
    ensures err { OnErr result (Extends (string_bytes out.old) (string_bytes out.new)) }
{
    match standing {
        Standing::Asking => push_word(out, "asking"),
        Standing::Waiting { millis } => push_count(out, "waiting", millis),
        Standing::Ended(end) => push_end(alloc, out, end),
    }
}

/// Appends `want`, the number of a want and its lengths, each behind a blank.
#[tactic(auto, using(crate::proofs::Pushed::pushes))]
pub(crate) fn push_lengths(
    out: &mut String,
    number: u64,
    length: u8,
    longest: u8,
) -> Result<(), OutOfMemory>
    ensures text { OnOk result
        (string_bytes out.new ≡ string_bytes out.old ++ spaced (codes "want" ∷ decimal number ∷ decimal length ∷ decimal longest ∷ [])) }
    ensures err { OnErr result (Extends (string_bytes out.old) (string_bytes out.new)) }
{
    push_count(out, "want", number)?;
    push_number(out, u64::from(length))?;
    push_number(out, u64::from(longest))
}

/// Appends how often a peer was asked, and how the want stands, each word behind a blank.
#[tactic(auto, using(crate::proofs::Pushed::pushes))]
fn push_tries(
    alloc: Global,
    out: &mut String,
    tries: u64,
    standing: Standing,
) -> Result<(), OutOfMemory>
    ensures text { OnOk result (string_bytes out.new ≡ string_bytes out.old ++ spaced (decimal tries ∷ standing_words standing)) }
    ensures err { OnErr result (Extends (string_bytes out.old) (string_bytes out.new)) }
{
    push_number(out, tries)?;
    push_standing(alloc, out, standing)
}

/// Appends a want and how it stands, each word behind a blank. After an `Err` a part of them may have been appended.
#[tactic(auto, using(crate::proofs::Pushed::pushes))]
pub fn push_order(alloc: Global, out: &mut String, order: &Order) -> Result<(), OutOfMemory>
    ensures text { OnOk result (string_bytes out.new ≡ string_bytes out.old ++ spaced (order_words order.now)) }
    ensures err { OnErr result (Extends (string_bytes out.old) (string_bytes out.new)) }
{
    push_lengths(out, order.number, order.length, order.longest)?;
    push_locator(alloc, out, &order.peer)?;
    push_tries(alloc, out, order.tries, order.standing)
}
