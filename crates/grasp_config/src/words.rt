//! Where a node listens, and the prefixes that it begins with, as words.

ghost use Rattle.std.specs.Prelude.{◌≡◌, option_map};
ghost use Rattle.grasp_config.specs.Words.{parted, endpoint_at, endpoint_of, v6_number, root_of};

use grasp_pool::RootPrefix;
use grasp_text::{address, number};
use grasp_types::{Address, Locator, Proto};

/// What stands before the first colon, and behind it, or `None`.
fn parted_at_colon(text: &str) -> Option<(&str, &str)>
    ensures { option_map (λ x. (x.0.now, x.1.now)) result ≡ parted 58 text.now }
{
    text.split_once(':')
}

/// What stands before the first slash, and behind it, or `None`.
pub(crate) fn parted_at_slash(text: &str) -> Option<(&str, &str)>
    ensures { option_map (λ x. (x.0.now, x.1.now)) result ≡ parted 47 text.now }
{
    text.split_once('/')
}

/// A port of an address, with TCP.
fn endpoint_at(address: Address, port: u16) -> Locator
    ensures { result ≡ endpoint_at address port }
{
    match address {
        Address::V4(address) => Locator::V4 {
            address,
            proto: Proto::Tcp,
            port,
        },
        Address::V6(address) => Locator::V6 {
            address,
            proto: Proto::Tcp,
            port,
        },
    }
}

/// The locator of `ADDRESS:PORT`, or `None`.
#[tactic(auto, unfolding(crate::specs::Words::endpoint_of))]
pub(crate) fn endpoint(word: &str) -> Option<Locator>
    ensures { result ≡ endpoint_of word.now }
{
    let (front, back) = parted_at_colon(word)?;
    let host = address(front.as_bytes())?;
    let port = number(back.as_bytes(), 65535)?;
    Some(endpoint_at(host, port as u16))
}

/// The number of an IPv6 address, or `None`.
fn v6_number(address: Address) -> Option<u128>
    ensures { result ≡ v6_number address }
{
    match address {
        Address::V4(_) => None,
        Address::V6(n) => Some(n),
    }
}

/// The root of `ADDRESS/LENGTH`, which may be no prefix, or `None`.
#[tactic(auto, unfolding(crate::specs::Words::root_of))]
pub(crate) fn root(word: &str) -> Option<RootPrefix>
    ensures { result ≡ root_of word.now }
{
    let (front, back) = parted_at_slash(word)?;
    let host = address(front.as_bytes())?;
    let address = v6_number(host)?;
    let length = number(back.as_bytes(), 255)?;
    Some(RootPrefix {
        address,
        length: length as u8,
    })
}
