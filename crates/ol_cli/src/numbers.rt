//! The numbers of a job that rewrites the net of a term and reads it back.
ghost use Rattle.std.specs.Prelude.{◌≡◌, ◌≤◌};
ghost use Rattle.ol_limits.specs.Limits.{most_fuel, most_workers, plain_fuel, plain_heads, plain_workers};

use ol_limits::{Fuel, Heads, Workers};
use ol_term::Translation;

/// The numbers of a job that rewrites the net of a term and reads it back.
///
/// - `translation`: the translation of the term to a net.
/// - `workers`: how many workers rewrite the net.
/// - `fuel`: at most how many interactions they make.
/// - `heads`: at most how many subterms of the answer are asked for their heads.
#[derive(Clone, Copy)]
pub struct RunNumbers {
    pub translation: Translation,
    pub workers: Workers,
    pub fuel: Fuel,
    pub heads: Heads,
}

impl RunNumbers {
    /// These numbers.
    pub fn of(translation: Translation, workers: u32, fuel: u32, heads: u32) -> RunNumbers
        requires workers { (1 ≤ workers) × (workers ≤ most_workers) }
        requires fuel { fuel ≤ most_fuel }
        requires heads { 1 ≤ heads }
        ensures translation { result.translation ≡ translation }
        ensures workers { result.workers.count ≡ workers }
        ensures fuel { result.fuel.most ≡ fuel }
        ensures heads { result.heads.most ≡ heads }
    {
        RunNumbers {
            translation,
            workers: Workers::of(workers),
            fuel: Fuel::of(fuel),
            heads: Heads::of(heads),
        }
    }

    /// The numbers of `run` without options but the translation.
    pub fn plain(translation: Translation) -> RunNumbers
        ensures translation { result.translation ≡ translation }
        ensures workers { result.workers.count ≡ plain_workers }
        ensures fuel { result.fuel.most ≡ plain_fuel }
        ensures heads { result.heads.most ≡ plain_heads }
    {
        RunNumbers {
            translation,
            workers: Workers::plain(),
            fuel: Fuel::plain(),
            heads: Heads::plain(),
        }
    }
}
