//! Objectives (RFC 8990, section 2.10).

ghost use Rattle.std.specs.Prelude.{◌≡◌, ◌≤◌, ◌<◌, IfSome, IfNone};
ghost use Rattle.std.proofs.Common.{rules};
ghost use Rattle.grasp_types.specs.Objective.{has_disc, has_neg, has_synch, has_dry, has_kind, dry_flags};

use crate::{Kind, Plain, Value};
use grasp_cbor::Chars;
use std::marker::Model;

const F_DISC: u8 = 1;

const F_NEG: u8 = 2;

const F_SYNCH: u8 = 4;

const F_NEG_DRY: u8 = 8;

/// The flags of an objective, 0 to 15 (RFC 8990, section 2.10.2).
#[derive(Clone, Copy, Debug, PartialEq, Eq)]
pub struct Flags {
    bits: u8,
}

impl Model for Flags {
    ghost use Rattle.std.specs.Prelude.{ℕ, ◌≤◌};

    ghost Value = { ℕ };

    ghost view = { λ a. a.bits };

    ghost invariant = { λ a. a.bits ≤ 15 };

    ghost inverse = { λ n. record { bits = n } };
}

impl Flags {
    /// F_DISC alone.
    pub const DISC: Flags = Flags { bits: F_DISC };

    /// F_NEG alone.
    pub const NEG: Flags = Flags { bits: F_NEG };

    /// F_SYNCH alone.
    pub const SYNCH: Flags = Flags { bits: F_SYNCH };

    /// F_NEG_DRY alone.
    pub const NEG_DRY: Flags = Flags { bits: F_NEG_DRY };

    /// F_DISC and F_NEG: the objective can be discovered and negotiated.
    pub const DISC_NEG: Flags = Flags {
        bits: F_DISC | F_NEG,
    };

    /// F_DISC and F_SYNCH: the objective can be discovered, and synchronized or flooded.
    pub const DISC_SYNCH: Flags = Flags {
        bits: F_DISC | F_SYNCH,
    };

    /// The flags of these bits, or `None` above 15.
    pub fn of(bits: u8) -> Option<Flags>
        ensures some { IfSome result (λ f. f ≡ bits) }
        ensures valid { IfSome result (λ _. bits ≤ 15) }
        ensures none { IfNone result (15 < bits) }
    {
        if bits <= 15 {
            Some(Flags { bits })
        } else {
            None
        }
    }

    /// Whether F_DISC is set: the objective can be discovered.
    pub fn has_disc(self) -> bool
        ensures { result ≡ has_disc self }
    {
        self.bits & F_DISC != 0
    }

    /// Whether F_NEG is set: the objective can be negotiated.
    pub fn has_neg(self) -> bool
        ensures { result ≡ has_neg self }
    {
        self.bits & F_NEG != 0
    }

    /// Whether F_SYNCH is set: the objective can be synchronized and flooded.
    pub fn has_synch(self) -> bool
        ensures { result ≡ has_synch self }
    {
        self.bits & F_SYNCH != 0
    }

    /// Whether F_NEG_DRY is set: the negotiation is a dry run.
    pub fn has_dry(self) -> bool
        ensures { result ≡ has_dry self }
    {
        self.bits & F_NEG_DRY != 0
    }

    /// Whether the flag of this use is set.
    pub fn has_kind(self, kind: Kind) -> bool
        ensures { result ≡ has_kind self kind }
    {
        match kind {
            Kind::Negotiation => self.has_neg(),
            Kind::Synchronization => self.has_synch(),
        }
    }

    /// The same flags, with F_NEG_DRY or without it.
    pub fn with_dry(self, dry: bool) -> Flags
        ensures { result ≡ dry_flags self dry }
    {
        let others = self.bits & (F_DISC | F_NEG | F_SYNCH);
        Flags {
            bits: others + if dry { F_NEG_DRY } else { 0 },
        }
    }

    /// The bits.
    pub fn bits(&self) -> u8
        ensures value { result ≡ self.now }
        ensures valid { result ≤ 15 }
    {
        self.bits
    }
}

/// An objective.
#[derive(Clone, Debug, Drop)]
pub struct Objective {
    pub name: Chars,
    pub flags: Flags,
    pub loops: u8,
    pub value: Option<Value>,
}

impl Plain for Flags {
    ghost clones_are_same = { Prim.search rules };
}

impl Plain for Objective {
    ghost clones_are_same = { Prim.search rules };
}
