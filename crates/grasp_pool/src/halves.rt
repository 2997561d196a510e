//! Prefixes, the two halves of each, and the prefix of which it is one.

ghost use Rattle.std.specs.Prelude.{◌≡◌, ◌<◌, ◌≤◌};
ghost use Rattle.grasp_types.specs.Prefix.{IsPrefix};
ghost use Rattle.grasp_pool.specs.Spans.{IsValid, size};
ghost use Rattle.grasp_pool.specs.Canonical.{lower, upper};
ghost use Rattle.grasp_pool.specs.Functions.{parent_of, buddy_of};

use grasp_types::Prefix;

/// The prefix that has another as one of its halves, and the other half.
#[derive(Clone, Copy)]
pub struct Halves {
    pub parent: Prefix,
    pub buddy: Prefix,
}

/// The two halves of a prefix.
#[derive(Clone, Copy)]
pub struct Parts {
    pub lower: Prefix,
    pub upper: Prefix,
}

/// The prefix of this address and length, which are known to make one.
pub fn prefix_at(address: u128, length: u8) -> Prefix
    requires { IsPrefix address length }
    ensures { result ≡ record { address = address; length = length } }
{
    let Some(prefix) = Prefix::of(address, length) else {
        unreachable!()
    };
    prefix
}

/// How many addresses it has.
pub fn size_of(prefix: Prefix) -> u128
    ensures value { result ≡ size prefix }
    ensures valid { IsValid prefix }
{
    1u128 << (128 - prefix.length())
}

/// The prefix of which it is one half, and the other half: one bit of the address tells the two halves apart.
pub fn halves_of(prefix: Prefix) -> Halves
    requires { 2 ≤ prefix.length }
    ensures parent { result.parent ≡ parent_of prefix }
    ensures buddy { result.buddy ≡ buddy_of prefix }
{
    let half = size_of(prefix);
    let address = prefix.address();
    let length = prefix.length();
    let parent = prefix_at(address & !half, length - 1);
    let buddy = prefix_at(address ^ half, length);
    Halves { parent, buddy }
}

/// The two halves of a prefix.
pub fn parts_of(whole: Prefix) -> Parts
    requires valid { IsValid whole }
    requires short { whole.length < 128 }
    ensures lower { result.lower ≡ lower whole }
    ensures upper { result.upper ≡ upper whole }
{
    let length = whole.length() + 1;
    let address = whole.address();
    let lower = prefix_at(address, length);
    let half = size_of(lower);
    let upper = prefix_at(address + half, length);
    Parts { lower, upper }
}
