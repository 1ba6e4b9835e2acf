//! Laws of bodies. Each is the contract of a function that does nothing.

ghost use Rattle.http_payload.specs.Laws.{HasOneEnd, FaultStays, HasOneFault, BodyHasNoFault};
ghost use Rattle.http_payload.specs.Laws.{PartialHasNoFault, PartialHasNoBody, BodyBeginsPartial};
ghost use Rattle.http_payload.specs.Laws.{PartialBeginsPartial};

/// The text of a payload has one outcome: a body as its prefix, or a fault, or it is a prefix of a
/// body, and not two of these.
pub fn one_outcome()
    ensures one_end { HasOneEnd }
    ensures one_fault { HasOneFault }
    ensures body { BodyHasNoFault }
    ensures partial_fault { PartialHasNoFault }
    ensures partial_body { PartialHasNoBody }
{}

/// A payload's fault stays, whatever follows.
pub fn fault_stays()
    ensures { FaultStays }
{}

/// Each prefix of a payload but the body itself is partial, and so is each prefix of what is
/// partial.
pub fn partial_before()
    ensures body { BodyBeginsPartial }
    ensures partial { PartialBeginsPartial }
{}
