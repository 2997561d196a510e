//! What a doubter keeps of the calls of the agent of prefixes at its node.

ghost use Rattle.std.specs.Prelude.{◌≡◌, ◌≤◌, filter, find, not, option_copied, vec_capacity};
ghost use Rattle.grasp_doubter.specs.Seeing.{and_sent, opener_of, sent_to, still_sent, with_opener, with_sent, without_opener, without_sent};
ghost use Rattle.grasp_doubter.specs.States.{is_prefix, is_session};

use crate::prefixes::{is_prefix, is_session, is_set_aside};
use grasp_pool::Pool;
use grasp_types::{Address, Handle, Prefix};

/// As many sessions as a node has.
pub(crate) const MOST_OPENERS: usize = 64;

/// As many offers as a pool has prefixes.
pub(crate) const MOST_OFFERED: usize = 4096;

/// Who opened a giving session.
#[derive(Clone, Copy, Debug, PartialEq, Eq)]
pub struct Opener {
    /// The session.
    pub handle: Handle,
    /// The address that was told at the opening of its stream.
    pub address: Address,
}

/// To whom a prefix was offered.
#[derive(Clone, Copy, Debug, PartialEq, Eq)]
pub struct Sent {
    /// The prefix.
    pub prefix: Prefix,
    /// The address of who opened the session.
    pub address: Address,
}

/// One more opener, of which there are at most 64.
pub(crate) fn put_opener(openers: &mut Vec<Opener>, handle: Handle, address: Address)
    requires { 64 ≤ vec_capacity openers.old }
    ensures put { openers.new.items ≡ with_opener openers.old.items handle address }
    ensures room { 64 ≤ vec_capacity openers.new }
{
    if openers.len() < MOST_OPENERS {
        let Ok(()) = openers.push(Opener { handle, address }) else {
            unreachable!()
        };
    }
}

/// Drops the opener of this session.
pub(crate) fn drop_opener(openers: &mut Vec<Opener>, handle: Handle)
    requires { 64 ≤ vec_capacity openers.old }
    ensures dropped { openers.new.items ≡ without_opener openers.old.items handle }
    ensures room { 64 ≤ vec_capacity openers.new }
{
    openers.retain(|opener| !is_session(opener.handle, handle));
}

/// Who opened this session.
pub(crate) fn opener_of(openers: &[Opener], handle: Handle) -> Option<Address>
    ensures { result ≡ opener_of openers.now handle }
{
    match opener_at(openers, handle) {
        Some(opener) => Some(opener.address),
        None => None,
    }
}

/// The opener of this session.
fn opener_at(openers: &[Opener], handle: Handle) -> Option<&Opener>
    ensures { option_copied result ≡ find (λ o. is_session o.handle handle) openers.now }
{
    openers.iter().find(|o| is_session(o.handle, handle))
}

/// The prefix was offered to this address, and no earlier offer of it counts any more.
pub(crate) fn put_sent(offered: &mut Vec<Sent>, prefix: Prefix, address: Option<Address>)
    requires { 4096 ≤ vec_capacity offered.old }
    ensures put { offered.new.items ≡ with_sent offered.old.items prefix address }
    ensures room { 4096 ≤ vec_capacity offered.new }
{
    drop_sent(offered, prefix);
    if let Some(address) = address {
        push_sent(offered, prefix, address);
    }
}

/// One more offer, of which there are at most 4096.
fn push_sent(offered: &mut Vec<Sent>, prefix: Prefix, address: Address)
    requires { 4096 ≤ vec_capacity offered.old }
    ensures put { offered.new.items ≡ and_sent offered.old.items prefix address }
    ensures room { 4096 ≤ vec_capacity offered.new }
{
    if offered.len() < MOST_OFFERED {
        let Ok(()) = offered.push(Sent { prefix, address }) else {
            unreachable!()
        };
    }
}

/// Drops the offer of this prefix.
pub(crate) fn drop_sent(offered: &mut Vec<Sent>, prefix: Prefix)
    requires { 4096 ≤ vec_capacity offered.old }
    ensures dropped { offered.new.items ≡ without_sent offered.old.items prefix }
    ensures room { 4096 ≤ vec_capacity offered.new }
{
    offered.retain(|sent| !is_prefix(sent.prefix, prefix));
}

/// To whom this prefix was offered.
pub(crate) fn sent_to(offered: &[Sent], prefix: Prefix) -> Option<Address>
    ensures { result ≡ sent_to offered.now prefix }
{
    match sent_at(offered, prefix) {
        Some(sent) => Some(sent.address),
        None => None,
    }
}

/// The offer of this prefix.
fn sent_at(offered: &[Sent], prefix: Prefix) -> Option<&Sent>
    ensures { option_copied result ≡ find (λ s. is_prefix s.prefix prefix) offered.now }
{
    offered.iter().find(|s| is_prefix(s.prefix, prefix))
}

/// Forgets the offers of prefixes that the pool has neither reserved nor in doubt.
pub(crate) fn keep_set_aside(offered: &mut Vec<Sent>, pool: &Pool)
    requires { 4096 ≤ vec_capacity offered.old }
    ensures kept { offered.new.items ≡ still_sent pool.now offered.old.items }
    ensures room { 4096 ≤ vec_capacity offered.new }
{
    offered.retain(|sent| is_set_aside(pool, sent.prefix));
}
