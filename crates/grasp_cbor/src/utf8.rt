//! UTF-8, byte by byte: what a text owes until its character ends (RFC 3629, section 4).

ghost use Rattle.std.specs.Prelude.{◌≡◌};
ghost use Rattle.grasp_cbor.specs.Utf8.{lead, owed_after};

/// So many bytes are owed until a character ends, and the next is from low to high.
#[derive(Clone, Copy)]
pub(crate) struct Owed {
    pub(crate) need: u8,
    pub(crate) low: u8,
    pub(crate) high: u8,
}

/// What is owed between characters.
pub(crate) const READY: Owed = Owed {
    need: 0,
    low: 128,
    high: 191,
};

/// What is owed after the next byte, or `None` where no character has it there.
#[tactic(auto, unfolding(crate::specs::Utf8::owed_after))]
pub(crate) fn after_byte(owed: Owed, byte: u8) -> Option<Owed>
    ensures { result ≡ owed_after owed byte }
{
    if owed.need == 0 {
        after_lead(byte)
    } else if byte < owed.low || owed.high < byte {
        None
    } else {
        Some(Owed {
            need: owed.need - 1,
            low: 128,
            high: 191,
        })
    }
}

#[tactic(auto, unfolding(crate::specs::Utf8::lead))]
fn after_lead(byte: u8) -> Option<Owed>
    ensures { result ≡ lead byte }
{
    if byte < 128 {
        Some(READY)
    } else if byte < 194 {
        None
    } else if byte < 224 {
        Some(Owed {
            need: 1,
            low: 128,
            high: 191,
        })
    } else if byte < 240 {
        Some(Owed {
            need: 2,
            low: if byte == 224 { 160 } else { 128 },
            high: if byte == 237 { 159 } else { 191 },
        })
    } else if byte < 245 {
        Some(Owed {
            need: 3,
            low: if byte == 240 { 144 } else { 128 },
            high: if byte == 244 { 143 } else { 191 },
        })
    } else {
        None
    }
}
