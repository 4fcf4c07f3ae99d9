//! Laws about plans. Each function does nothing: what it ensures follows from the definitions.

ghost use Rattle.block_recovery.specs.Laws as law;

/// A recovery takes away no byte that all replicas hold: the decided length isn't below the shortest replica that was answered, each node
/// that takes part has so many bytes, and each finalized replica takes part.
pub fn decisions_keep_shared_bytes()
    ensures least { law.NoSharedByteIsLost }
    ensures held { law.ParticipantsHoldTheLength }
    ensures finalized { law.FinalizedTakePart }
{}

/// What is decided hangs on what each node has answered, and not on the order in which the answers came.
pub fn decisions_ignore_the_order()
    ensures { law.OrderIsFree }
{}

/// Whatever call comes, a plan stays: its nodes, its token, its answers, its decision once it is made, and the nodes that were noted.
/// A second plan of that block with that stamp isn't begun.
pub fn plans_stay()
    ensures stay { law.CallsKeepPlans }
    ensures once { law.PlansBeginOnce }
{}

/// Whatever calls came, each plan has answers of nodes that were asked alone, a decision by these answers if any, and has noted none but
/// nodes that take part.
pub fn plans_are_right()
    ensures right { law.CallsLeavePlansRight }
{}
