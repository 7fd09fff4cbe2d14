//! Theorems on contexts, crossings and walks: no code, only what follows from the definitions.

ghost use Rattle.ol_context.specs.Laws.{ContextsCommute, ContextsPull, ContextsInjective, CrossingBack, ThroughBack, CrossingIsOne, CrossingByTable, WalkIsOne, WalkBack};
ghost use Rattle.ol_context.specs.Facing.{NoPairsAreLeft};
ghost use Rattle.ol_context.specs.Short.{WalkTurnsOnce, WalkIsShort, WalkGoesOn};

/// The change of a context at a level and a change at a later level commute, if the later index is
/// shifted; and changes are injective. The context at the principal port determines the auxiliary
/// port and the context from which the path came.
pub fn contexts_commute()
    ensures commute { ContextsCommute }
    ensures pull { ContextsPull }
    ensures injective { ContextsInjective }
{}

/// The reverse of a crossing is a crossing, for a single node and for a node of a net.
pub fn crossing_back<A>()
    ensures node { CrossingBack }
    ensures net { ThroughBack A }
{}

/// The result of a crossing is unique.
pub fn crossing_is_one()
    ensures { CrossingIsOne }
{}

/// The result of a crossing from the principal port is determined by the level of the node's index.
pub fn crossing_by_table()
    ensures { CrossingByTable }
{}

/// A path leads to a unique free port, with a unique context and a unique number of crossings, and
/// its reverse is a path.
pub fn walk_is_one<A>()
    ensures one { WalkIsOne A }
    ensures back { WalkBack A }
{}

/// In a net without a link between two principal ports, a walk from a free port first enters nodes
/// by their principal ports, each node at most once, and after the first auxiliary port it enters
/// nodes by auxiliary ports only. It follows that the walk leaves the net within twice as many
/// crossings as there are nodes, or is infinite.
pub fn walk_is_short<A>()
    ensures turns_once { WalkTurnsOnce A }
    ensures short { WalkIsShort A }
    ensures goes_on { WalkGoesOn A }
{}

/// A net without active and stuck pairs has no link between two principal ports.
pub fn no_pairs_are_left<A>()
    ensures { NoPairsAreLeft A }
{}
