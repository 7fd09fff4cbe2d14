//! Theorems on heads and trees: no code, only what follows from the definitions.

ghost use Rattle.ol_context.specs.Short.{WalkTurnsOnce, WalkIsShort, WalkGoesOn};
ghost use Rattle.ol_readback.specs.Sources.{FewAreEnough, NoHeadIsNoHead, PrintedHeads};
ghost use Rattle.ol_readback.specs.Laws.{ExitIsOne, HeadIsOne, HeadWithinIsOne, TreeIsOne, TreeIsWhole, HeadsKept, HeadIsHead};
ghost use Rattle.ol_readback.specs.PrintedLaws.{BinderIsName, ListIsOfOneTree, PrintedIsRead};

/// The meaning of an exit is unique, the head of a frame is unique, with and without a budget, and
/// the tree of a net is unique.
pub fn answers_are_one<A>()
    ensures exit { ExitIsOne }
    ensures head { HeadIsOne A }
    ensures within { HeadWithinIsOne A }
    ensures tree { TreeIsOne A }
{}

/// The tree of a net is well formed: each head has as many subterms as arguments.
pub fn trees_are_whole<A>()
    ensures { TreeIsWhole A }
{}

/// Nets with the same paths between their free ports have the same heads. A head that was found
/// within a budget is the head. If no two principal ports are linked, a frame for which no head was
/// found has no head.
pub fn heads_kept<A, B>()
    ensures kept { HeadsKept A B }
    ensures within { HeadIsHead A }
    ensures no_head { NoHeadIsNoHead A }
{}

/// In a net without a link between two principal ports, a walk from a free port first enters nodes
/// by their principal ports, each node at most once, and after the first auxiliary port it enters
/// nodes by auxiliary ports only. It follows that the walk leaves the net within twice as many
/// crossings as there are nodes, or is infinite. If the walk of a frame for some number of
/// abstractions leaves the net, a walk for a number that is at most the number of nodes also leaves
/// the net.
pub fn walk_is_short<A>()
    ensures turns_once { WalkTurnsOnce A }
    ensures short { WalkIsShort A }
    ensures goes_on { WalkGoesOn A }
    ensures enough { FewAreEnough A }
{}

/// The heads of a tree that was read from a net are the heads, by paths of any length, of each net
/// with the same paths between its free ports. If the net that was read has no link between two
/// principal ports, a place without a head has no head in that other net either.
pub fn printed_heads<A, B>()
    ensures { PrintedHeads A B }
{}

/// A list of places is the list of at most one tree, and the name of a binder is a name of the
/// grammar.
///
/// If each place of a tree has a head and its free names are different names of the grammar, the
/// text of the tree is in the grammar. The term of the text is the term of the tree, which has no
/// redex.
pub fn printed_terms_are_read()
    ensures one_tree { ListIsOfOneTree }
    ensures binder { BinderIsName }
    ensures read { PrintedIsRead }
{}
