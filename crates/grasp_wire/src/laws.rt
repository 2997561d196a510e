//! Laws on messages and streams. They say nothing at run time.

ghost use Rattle.grasp_wire.specs.Chunks.{AnyPiecesBegin, AnyPiecesGiveAll};
ghost use Rattle.grasp_wire.specs.Laws.{OneMessageForBytes, SomeDivision, OneDivision, OneKind, RestsBeginNoMessage, FormsAreDecoded, SomeAnswer};
ghost use Rattle.grasp_wire.specs.Laws.{OneAnswer, DivisionsGrow, FaultsStay, EncodedComeFirst, FrontsDivide, GivenComeFirst, AllGivenAtNone};
ghost use Rattle.grasp_wire.specs.Laws.{AllGivenAtFault, AnswersAreDivided, OneNextAnswer};
ghost use Rattle.grasp_wire.specs.Whole.{WholeFrontsDivide, CuttersGiveWhole};

/// Bytes are the wire form of at most one message.
pub fn one_message_for_bytes()
    ensures { OneMessageForBytes }
{}

/// A stream divides into messages and a rest, and in one way alone.
pub fn one_division_of_a_stream()
    ensures some { SomeDivision }
    ensures only { OneDivision }
{}

/// A rest is of one kind, and begins with no message.
pub fn one_kind_of_rest()
    ensures kind { OneKind }
    ensures begins { RestsBeginNoMessage }
{}

/// A datagram that is the wire form of a message is decoded to this message, unless memory is wanted.
#[tactic(auto, using(crate::proofs::Datagrams::forms_are_decoded))]
pub fn forms_are_decoded()
    ensures { FormsAreDecoded }
{}

/// A datagram has exactly one answer, but for want of memory.
pub fn one_answer_for_a_datagram()
    ensures some { SomeAnswer }
    ensures only { OneAnswer }
{}

/// More bytes leave the messages as they are, and the rest's kind too where it isn't waiting.
pub fn divisions_grow()
    ensures grow { DivisionsGrow }
    ensures stay { FaultsStay }
{}

/// What a cutter gave is the beginning of every division of what was fed, and all of it where the cutter waits or knows
/// a fault.
pub fn given_come_first()
    ensures first { GivenComeFirst }
    ensures none { AllGivenAtNone }
    ensures fault { AllGivenAtFault }
{}

/// What a cutter answers is the next message of the division of what was fed, or all were given and the rest is of the kind
/// that the answer tells.
#[tactic(auto, using(crate::proofs::NextAnswers::answers_are_divided))]
pub fn answers_are_divided()
    ensures { AnswersAreDivided }
{}

/// A cutter has one answer, but for want of memory.
#[tactic(auto, using(crate::proofs::NextAnswers::one_next_answer))]
pub fn one_next_answer()
    ensures { OneNextAnswer }
{}

/// Whatever pieces a stream comes in, and whenever a cutter is asked, the messages given come first in the division of all
/// bytes, and are all of it once the cutter waits or has a fault that lasts.
pub fn any_pieces_cut_alike()
    ensures begin { AnyPiecesBegin }
    ensures all { AnyPiecesGiveAll }
{}

/// What was encoded comes first in every division, whatever follows.
pub fn encoded_come_first()
    ensures { EncodedComeFirst }
{}

/// Every front of joined encodings divides into the first messages and a rest that waits.
#[tactic(auto, using(crate::proofs::Wholes::fronts))]
pub fn fronts_divide()
    ensures { FrontsDivide }
{}

/// The first bytes of joined encodings divide into the messages that they hold whole, and a cutter that was fed them
/// and waits gave these.
pub fn cutters_give_whole()
    ensures divide { WholeFrontsDivide }
    ensures give { CuttersGiveWhole }
{}
