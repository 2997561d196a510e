//! When a want is given to the agent of prefixes, and when it is given again.

ghost use Rattle.std.specs.Prelude.{◌≡◌, ◌++◌, ◌∷◌, [], IfOk};
ghost use Rattle.grasp_crew.specs.Trying.{untried, is_reachable, is_unmet, is_open, is_ripe, given, salted, tried, dropped};

use grasp_agent::WantEnd;
use grasp_cbor::OutOfMemory;
use grasp_types::ApiRefused;
use std::alloc::Global;

/// How fast a want that came to nothing is tried again.
#[derive(Clone, Copy, Debug, PartialEq, Eq)]
pub struct Pace {
    /// The pause behind the first try, in milliseconds.
    pub first: u32,
    /// The longest pause.
    pub most: u32,
    /// By so many 512ths each pause of this node is longer.
    pub salt: u8,
}

/// How a want was tried.
#[derive(Clone, Copy, Debug, PartialEq, Eq)]
pub struct Trying {
    /// How often it was given.
    pub count: u64,
    /// How the last try ended, where one did.
    pub end: Option<WantEnd>,
    /// Whether it was taken back.
    pub dropped: bool,
    /// The first reading at which it may be given, in milliseconds.
    pub next: u64,
    /// The pause behind its next try, in milliseconds.
    pub pause: u32,
}

impl Pace {
    /// A pause with the salt of the node.
    fn salted(self, pause: u32) -> u64
        ensures { result ≡ salted self pause }
    {
        let pause = u64::from(pause);
        pause + pause * u64::from(self.salt) / 512
    }
}

impl Trying {
    /// A want that was never given, and may be at once.
    pub fn untried(pace: Pace) -> Trying
        ensures { result ≡ untried pace }
    {
        Trying {
            count: 0,
            end: None,
            dropped: false,
            next: 0,
            pause: pace.first,
        }
    }

    /// Whether it is still to be met.
    pub fn is_open(&self) -> bool
        ensures { result ≡ is_open self.now }
    {
        !self.dropped && is_unmet(&self.end)
    }

    /// Whether it is tried again after how the last try ended.
    pub fn is_unmet(&self) -> bool
        ensures { result ≡ is_unmet self.now.end }
    {
        is_unmet(&self.end)
    }

    /// Whether it may be given at this reading.
    pub fn is_ripe(&self, now: u64) -> bool
        ensures { result ≡ is_ripe now self.now }
    {
        self.is_open() && self.next <= now
    }

    /// Once more it was given.
    pub(crate) fn given(self) -> Trying
        ensures { result ≡ given self }
    {
        Trying {
            count: self.count.saturating_add(1),
            end: self.end,
            dropped: self.dropped,
            next: self.next,
            pause: self.pause,
        }
    }

    /// A try of it ended so.
    pub(crate) fn tried(self, now: u64, pace: Pace, end: Option<WantEnd>) -> Trying
        ensures { result ≡ tried now pace end self }
    {
        let pause = (u64::from(self.pause) * 2).min(u64::from(pace.most));
        Trying {
            count: self.count,
            end,
            dropped: self.dropped,
            next: now.saturating_add(pace.salted(self.pause)),
            pause: pause as u32,
        }
    }

    /// It is taken back.
    pub(crate) fn dropped(self) -> Trying
        ensures { result ≡ dropped self }
    {
        Trying {
            count: self.count,
            end: self.end,
            dropped: true,
            next: self.next,
            pause: self.pause,
        }
    }
}

/// These, and a want that was never given.
pub(crate) fn with_untried(
    alloc: Global,
    tries: &[Trying],
    pace: Pace,
) -> Result<Vec<Trying>, OutOfMemory>
    ensures { IfOk result (λ all. all.items ≡ tries.now ++ untried pace ∷ []) }
{
    let mut all = Vec::new(alloc);
    for tried in tries {
        all.push(*tried)?;
    }
    all.push(Trying::untried(pace))?;
    Ok(all)
}

/// Whether a want is tried again after a try that ended so.
fn is_unmet(end: &Option<WantEnd>) -> bool
    ensures { result ≡ is_unmet end.now }
{
    match end {
        Some(WantEnd::Held(_)) => false,
        Some(WantEnd::Refused(refusal)) => is_reachable(*refusal),
        _ => true,
    }
}

/// Whether the peer of a want that was refused so can be asked.
fn is_reachable(refusal: ApiRefused) -> bool
    ensures { result ≡ is_reachable refusal }
{
    refusal != ApiRefused::BadLocator
}
