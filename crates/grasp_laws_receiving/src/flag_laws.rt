//! Laws of an objective's flags. They say nothing at run time.

ghost use Rattle.grasp_laws_receiving.specs.Flags.{FlagsAreBits};

/// Bit 0 of the flags is F_DISC, bit 1 F_NEG, bit 2 F_SYNCH and bit 3 F_NEG_DRY; what asks for a dry negotiation or for none has each
/// other flag as it was.
pub fn flags_are_bits()
    ensures { FlagsAreBits }
{}
