//! How many interactions some counts tell.

ghost use Rattle.std.specs.Prelude.{◌≡◌};
ghost use Rattle.ol_counts.specs.Sums.{interactions};

use ol_rules::Counts;

/// All interactions: how often any of the eight rules was applied.
pub fn interactions(counts: Counts) -> u64
    ensures { result ≡ interactions counts }
{
    counts.beta as u64
        + counts.fan as u64
        + counts.croissant as u64
        + counts.bracket as u64
        + counts.cross_fan as u64
        + counts.cross_croissant as u64
        + counts.cross_bracket as u64
        + counts.erase as u64
}
