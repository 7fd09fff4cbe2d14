//! Theorems on interactions, reductions and the table of rules: no code, only what follows from the
//! definitions.

ghost use Rattle.ol_invariance.specs.Laws.{StepKeepsPaths, GraphStepKeepsPaths, JournalKeepsPaths, GraphRunKeepsPaths};
ghost use Rattle.ol_invariance.specs.Tables.{IndexesAgree, TurnedJoinsLoseAPath, IsOnlyIndexPast};
ghost use Rattle.ol_net.specs.declared.parts.Kind.TheVariants as kind;

/// An interaction preserves the paths between free ports: the nets before and after it have the
/// same paths. This holds for nets with names of any type, if the names of the created nodes are
/// new, and for graphs, whose created nodes have the next numbers.
pub fn step_keeps_paths<A>()
    ensures named { StepKeepsPaths A }
    ensures numbered { GraphStepKeepsPaths }
{}

/// A reduction preserves the paths between free ports, whatever the pairs of its trace and their
/// order: for nets, by the names of their nodes, and for graphs, in the reduction by one thread.
pub fn journal_keeps_paths()
    ensures named { JournalKeepsPaths }
    ensures numbered { GraphRunKeepsPaths }
{}

/// If a node commutes with a node of a higher index, the rules give the copies of the latter the
/// index to which a crossing of the former moves the latter's level in a context. The table of
/// indexes is therefore unique.
pub fn indexes_agree()
    ensures { IndexesAgree }
{}

/// Wrong rules that would lose a path. First: two fans, or an application and an abstraction, whose
/// slots 1 and 2 are joined crosswise; a walk would leave by free port 3 instead of free port 2.
/// Second: a croissant or a bracket of index 0 that commutes with a fan of index 1; with any index
/// of the fan's copies other than 0 (croissant) or 2 (bracket), a walk that left by slot 1 of the
/// fan no longer leaves.
pub fn wrong_tables_lose_paths()
    ensures fans { TurnedJoinsLoseAPath kind.Fan kind.Fan }
    ensures beta { TurnedJoinsLoseAPath kind.App kind.Lam }
    ensures croissant { IsOnlyIndexPast kind.Croissant 0 }
    ensures bracket { IsOnlyIndexPast kind.Bracket 2 }
{}
