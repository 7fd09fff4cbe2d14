//! Multigraph contraction: edges over vertices of any type, and the removal of vertices.
//!
//! Removing a vertex with two edges {x,p} and {p,y} replaces both edges by {x,y}. Removing a vertex
//! whose only edge is {p,p} also removes that edge. The crate has definitions and theorems, and no
//! code.
#![tactic(auto)]

ghost use Rattle.ol_law_edges.specs.Laws.{ContractAnyOrder, ContractJoins};

/// The result of removing vertices doesn't depend on the order of removal: it joins the remaining
/// vertices that paths through removed vertices joined.
pub fn contract_any_order<V>()
    ensures order { ContractAnyOrder V }
    ensures joins { ContractJoins V }
{}
