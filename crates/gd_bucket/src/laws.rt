//! Laws on the slots of a bucket as a map by key.

ghost use Rattle.gd_bucket.specs.Map.{AbsentByCandidates, FoundByCandidates, MapBySlots, PassedByCandidates, ReplacedReaches, ReplacedSlots};

/// A look-up that takes one candidate after another, up to the first that has the key, answers what the map gives.
pub fn look_up_by_candidates()
    ensures found { FoundByCandidates }
    ensures passed { PassedByCandidates }
    ensures absent { AbsentByCandidates }
{}

/// Two lists with the same full slots give the same for each key.
pub fn map_by_slots()
    ensures { MapBySlots }
{}

/// A slot that takes the place of one with its hash keeps all reached, and is the only one that changes.
pub fn slot_replaced()
    ensures reached { ReplacedReaches }
    ensures slots { ReplacedSlots }
{}
