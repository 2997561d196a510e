//! Laws on beginnings of items and on faults. They say nothing at run time.

ghost use Rattle.grasp_cbor.specs.Laws.{FrontsCanGoOn, WhatCanGoOnIsFront, FrontsHaveOneSpot, BytesAreTakenOrFaulty, TakenBytesAreNotFaulty};
ghost use Rattle.grasp_cbor.specs.Laws.{FaultsAreAlone, FaultsAreFirst, SomeEnding, OneEnding};

/// A front can go on, what can go on is a front, and its next byte stands at one spot.
pub fn fronts_can_go_on()
    ensures can { FrontsCanGoOn }
    ensures front { WhatCanGoOnIsFront }
    ensures spot { FrontsHaveOneSpot }
{}

/// At a front each byte is either taken or has a fault.
pub fn bytes_are_taken_or_faulty()
    ensures some { BytesAreTakenOrFaulty }
    ensures only { TakenBytesAreNotFaulty }
{}

/// Bytes have at most one fault, which is at the first place where no item can go on.
pub fn faults_are_alone()
    ensures alone { FaultsAreAlone }
    ensures first { FaultsAreFirst }
{}

/// Of the four endings of reading bytes within a limit exactly one is true.
pub fn endings_are_apart()
    ensures some { SomeEnding }
    ensures only { OneEnding }
{}
