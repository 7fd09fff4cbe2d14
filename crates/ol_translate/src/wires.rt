//! Wires: the free variables of a subterm, and the ports at which their wires end.

ghost use Rattle.std.specs.Prelude.{◌≡◌, ◌^◌, ◌<◌};
ghost use Rattle.ol_term.specs.Trees.{tree_of};
ghost use Rattle.ol_translate.specs.Translation.{bare_variable, wire_of, slot_port};

use ol_net::{NodeId, Port};
use ol_term::{Term, Translation};

/// A variable and the port at which its wire ends. Variables are de Bruijn numbers; the numbers of
/// free names follow the numbers of all enclosing abstractions.
pub type Wire = (usize, Port);

/// The open ends of a subterm's net: its root, and the wires of its free variables in the order of
/// first occurrence.
#[derive(Drop)]
pub struct Ends {
    pub root: Port,
    pub wires: Vec<Wire>,
}

pub fn find_wire(wires: &Vec<Wire>, variable: usize) -> Option<Port>
    ensures { result ≡ wire_of variable wires.now.items }
{
    wires.iter().find(|w| w.0 == variable).map(|w| w.1)
}

pub fn slot_of(number: u32, at: u8) -> Port
    ensures { result ≡ slot_port number at }
{
    Port::Of {
        node: NodeId(number),
        slot: at,
    }
}

/// The variable that an argument is, if the translation uses its wire instead of a box. The
/// argument has `depth` enclosing abstractions.
pub fn bare_variable(translation: Translation, depth: usize, argument: &Term) -> Option<usize>
    requires small { depth < 2 ^ 32 }
    ensures { result ≡ bare_variable translation depth (tree_of argument.now) }
{
    match translation {
        Translation::One => None,
        Translation::Two => match argument {
            Term::Var(variable) => Some(*variable as usize),
            Term::Free(name) => Some(depth + *name as usize),
            Term::Lam(_) => None,
            Term::App(_, _) => None,
        },
    }
}
