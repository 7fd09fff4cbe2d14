//! The texts of kinds, indexes and ports, for printed nets and net files.

ghost use Rattle.std.specs.Prelude.{◌≡◌, Some};
ghost use Rattle.ol_net.specs.PartTexts.{kind_text, index_text, port_text};

use crate::parts::{Kind, Port};
use std::fmt;

impl Kind {
    // Its name in a text.
    fn word(self) -> &'static str
        ensures { result.now ≡ kind_text self }
    {
        match self {
            Kind::Lam => "lam",
            Kind::App => "app",
            Kind::Fan => "fan",
            Kind::Croissant => "croissant",
            Kind::Bracket => "bracket",
            Kind::Eraser => "eraser",
        }
    }
}

impl fmt::Display for Kind {
    ghost output = { λ kind. Some (kind_text kind) };

    fn fmt<W: fmt::Write>(&self, f: &mut fmt::Formatter<W>) -> fmt::Result {
        f.write_str(self.word())
    }
}

/// The index of a node of this kind. It is printed as a number, and as `-` for an eraser, which has
/// no index.
#[derive(Clone, Copy, Debug, PartialEq, Eq)]
pub struct IndexOf {
    pub kind: Kind,
    pub index: u32,
}

impl fmt::Display for IndexOf {
    ghost output = { λ of. Some (index_text of.kind of.index) };

    fn fmt<W: fmt::Write>(&self, f: &mut fmt::Formatter<W>) -> fmt::Result {
        if self.kind.is_eraser() {
            f.write_str("-")
        } else {
            write!(f, "{}", self.index)
        }
    }
}

/// Free port k is printed as `fk`, and slot S of node N as `N.S`.
impl fmt::Display for Port {
    ghost output = { λ port. Some (port_text port) };

    fn fmt<W: fmt::Write>(&self, f: &mut fmt::Formatter<W>) -> fmt::Result {
        match self {
            Port::Free(number) => write!(f, "f{number}"),
            Port::Of { node, slot } => write!(f, "{}.{slot}", node.0),
        }
    }
}
