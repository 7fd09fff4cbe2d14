//! How the work of a seat ended.
ghost use Rattle.ol_reduce.specs.Turned.{TurnsTell};

/// How a sweep ended.
///
/// - `Clean`: no cell contains an active pair.
/// - `Spent`: its last turn returned `Spent`. An active pair is left, and the fuel is used up.
#[derive(Clone, Copy, Debug, PartialEq, Eq)]
pub enum Sweep {
    Clean,
    Spent,
}

/// Why a worker ended.
///
/// - `Spent`: its last turn returned `Spent`. An active pair is left, and the fuel is used up.
/// - `Quiet`: no active pair is left. Its last search of the pool found no cell.
#[derive(Clone, Copy, Debug, PartialEq, Eq)]
pub enum End {
    Spent,
    Quiet,
}

/// Theorem: a sequence of turns adds exactly its cells to the cells that the seat has claimed.
pub fn turns_tell()
    ensures { TurnsTell }
{}
