//! The theorems on interactions, for nets with names of any type, and on the reduction by one
//! thread.

ghost use Rattle.ol_rules.specs.Laws.{RewritesSame, OneResult, StepIsOne, StepKeepsNet, StepExists, StepIsContraction, EachIsListed, OneThreadIsOne, EndsOrGoesOn};

/// The interaction of an active pair of a net has a single result, whatever the order of the net's
/// lists.
pub fn a_step_is_one<A>()
    ensures same { RewritesSame A }
    ensures one { OneResult A }
    ensures step { StepIsOne A }
{}

/// If the created nodes have new names, each active pair has an interaction, whose result is a net.
pub fn a_step_is_a_net<A>()
    ensures kept { StepKeepsNet A }
    ensures some { StepExists A }
{}

/// An interaction is a contraction: it adds the joins to the remaining links, and contracts the
/// slots of the two removed nodes, in any order. A net may list a link twice, and is then the same
/// as the net that lists each link once.
pub fn a_step_is_a_contraction<A>()
    ensures links { StepIsContraction A }
    ensures listed { EachIsListed A }
{}

/// The reduction of a net by one thread is unique: it has a single trace, which leads to a single
/// net. For each fuel, the reduction ends or has a further step, and not both.
pub fn one_thread_is_one()
    ensures one { OneThreadIsOne }
    ensures ends { EndsOrGoesOn }
{}
