//! The words that say what follows.

ghost use Rattle.std.specs.Prelude.{◌≡◌, Some, None, if◌then◌else◌};
ghost use Rattle.std.specs.Str.{bytes_eq};
ghost use Rattle.grasp_text.specs.Grammar.{name_of, host_of, are_locators, is_accept};
ghost use Rattle.grasp_text.specs.Reading.{proto_of};

use grasp_types::Proto;

/// The first word of a message's line.
#[derive(Clone, Copy)]
pub(crate) enum MessageName {
    Noop,
    Discovery,
    Response,
    RequestNegotiation,
    RequestSynchronization,
    Negotiate,
    End,
    Wait,
    Synch,
    Flood,
    Invalid,
}

/// The first word of a locator.
#[derive(Clone, Copy)]
pub(crate) enum Host {
    Ipv6,
    Ipv4,
    Domain,
    Resource,
}

/// The message that a line of this first word is.
#[tactic(auto, unfolding(crate::specs::Grammar::name_of))]
pub(crate) fn message_name(word: &[u8]) -> Option<MessageName>
    ensures { result ≡ name_of word.now }
{
    match word {
        b"noop" => Some(MessageName::Noop),
        b"discovery" => Some(MessageName::Discovery),
        b"response" => Some(MessageName::Response),
        b"request-neg" => Some(MessageName::RequestNegotiation),
        b"request-syn" => Some(MessageName::RequestSynchronization),
        b"negotiate" => Some(MessageName::Negotiate),
        b"end" => Some(MessageName::End),
        b"wait" => Some(MessageName::Wait),
        b"synch" => Some(MessageName::Synch),
        b"flood" => Some(MessageName::Flood),
        b"invalid" => Some(MessageName::Invalid),
        _ => None,
    }
}

/// The kind of locator that this first word begins.
#[tactic(auto, unfolding(crate::specs::Grammar::host_of))]
pub(crate) fn locator_host(word: &[u8]) -> Option<Host>
    ensures { result ≡ host_of word.now }
{
    match word {
        b"v6" => Some(Host::Ipv6),
        b"v4" => Some(Host::Ipv4),
        b"fqdn" => Some(Host::Domain),
        b"uri" => Some(Host::Resource),
        _ => None,
    }
}

/// The protocol of a word.
#[tactic(auto, unfolding(crate::specs::Reading::proto_of))]
pub(crate) fn locator_proto(word: &[u8]) -> Option<Proto>
    ensures { result ≡ proto_of word.now }
{
    match word {
        b"tcp" => Some(Proto::Tcp),
        b"udp" => Some(Proto::Udp),
        _ => None,
    }
}

/// Whether a response tells locators, and not whom to ask instead.
#[tactic(auto, unfolding(crate::specs::Grammar::are_locators))]
pub(crate) fn tells_locators(word: &[u8]) -> Option<bool>
    ensures { result ≡ are_locators word.now }
{
    if word == b"locators".as_slice() {
        Some(true)
    } else if word == b"divert".as_slice() {
        Some(false)
    } else {
        None
    }
}

/// Whether an end accepts.
#[tactic(auto, unfolding(crate::specs::Grammar::is_accept))]
pub(crate) fn accepts(word: &[u8]) -> Option<bool>
    ensures { result ≡ is_accept word.now }
{
    if word == b"accept".as_slice() {
        Some(true)
    } else if word == b"decline".as_slice() {
        Some(false)
    } else {
        None
    }
}
