//! Ways of reducing a term, which of them are shown, and how far each may go.

ghost use Rattle.std.specs.Prelude.{◌≡◌};
ghost use Rattle.ol_counts.specs.Ways.{is_of_net, is_shown, title};

use ol_limits::{Fuel, Heads};

/// A way of reducing a term, or of rewriting its net.
#[derive(Clone, Copy, Debug, PartialEq, Eq)]
pub enum Way {
    /// The one-thread run, which rewrites all pairs of the net.
    Run,
    /// The run that rewrites those pairs that the reading of the net meets.
    Demand,
    /// Leftmost reduction, normal order.
    Leftmost,
    /// Applicative order: the leftmost innermost redex comes first.
    Applicative,
    /// Call-by-need: a machine with closures, each of which is reduced at most once (Sestoft,
    /// Deriving a lazy abstract machine, 1997).
    Need,
    /// The families of redexes that leftmost reduction contracts (Lévy, Réductions correctes et
    /// optimales dans le lambda-calcul, 1978). Each counts as one step.
    Families,
}

/// Which ways have a column.
#[derive(Clone, Copy, Debug, PartialEq, Eq)]
pub struct Columns {
    pub run: bool,
    pub demand: bool,
    pub leftmost: bool,
    pub applicative: bool,
    pub need: bool,
    pub families: bool,
}

/// How far each way may go.
///
/// - `fuel`: how many interactions a run of the net makes.
/// - `heads`: how many subterms `demand` asks for.
/// - `steps`: how many beta steps an order of reduction makes, also where families are counted.
/// - `moves`: how many moves the machine of call-by-need makes.
#[derive(Clone, Copy)]
pub struct Bounds {
    pub fuel: Fuel,
    pub heads: Heads,
    pub steps: u32,
    pub moves: u32,
}

/// All ways, in the order of their columns.
pub const WAYS: [Way; 6] = [
    Way::Run,
    Way::Demand,
    Way::Leftmost,
    Way::Applicative,
    Way::Need,
    Way::Families,
];

/// Whether a way has a column.
pub fn is_shown(columns: Columns, way: Way) -> bool
    ensures { result ≡ is_shown columns way }
{
    match way {
        Way::Run => columns.run,
        Way::Demand => columns.demand,
        Way::Leftmost => columns.leftmost,
        Way::Applicative => columns.applicative,
        Way::Need => columns.need,
        Way::Families => columns.families,
    }
}

/// Whether a way rewrites a net. The others have beta steps alone.
pub fn is_of_net(way: Way) -> bool
    ensures { result ≡ is_of_net way }
{
    match way {
        Way::Run => true,
        Way::Demand => true,
        Way::Leftmost => false,
        Way::Applicative => false,
        Way::Need => false,
        Way::Families => false,
    }
}

/// The title of a way's column.
pub fn title(way: Way) -> &'static str
    ensures { result.now ≡ title way }
{
    match way {
        Way::Run => "run",
        Way::Demand => "demand",
        Way::Leftmost => "leftmost",
        Way::Applicative => "applicative",
        Way::Need => "need",
        Way::Families => "families",
    }
}
