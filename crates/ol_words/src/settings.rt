//! The settings of the command line, with the option and the limits of each.

ghost use Rattle.std.specs.Prelude.{◌≡◌};
ghost use Rattle.ol_words.specs.Settings.{setting_row};

use crate::numbers::Limits;
use ol_limits::{
    MOST_EDGES, MOST_FUEL, MOST_HEADS, MOST_STEPS, MOST_WORKERS, PLAIN_FUEL, PLAIN_HEADS,
    PLAIN_WORKERS,
};

/// What the options of commands set: the fields of `Job` that have these names.
#[derive(Clone, Copy)]
pub enum Setting {
    Translation,
    Workers,
    Fuel,
    Heads,
    Edges,
    After,
    Steps,
    Run,
    FromTerm,
}

impl Setting {
    /// The option, without its hyphens.
    pub(crate) fn option(self) -> &'static str
        ensures { result.now ≡ (setting_row self).option }
    {
        match self {
            Setting::Translation => "translation",
            Setting::Workers => "workers",
            Setting::Fuel => "fuel",
            Setting::Heads => "heads",
            Setting::Edges => "edges",
            Setting::After => "after",
            Setting::Steps => "steps",
            Setting::Run => "run",
            Setting::FromTerm => "from-term",
        }
    }

    /// Whether the option is a flag, which takes no value.
    pub(crate) fn is_flag(self) -> bool
        ensures { result ≡ (setting_row self).is_flag }
    {
        matches!(self, Setting::Run | Setting::FromTerm)
    }

    /// The least and the greatest number, and the number without the option. The number of a flag
    /// is 1 if the flag is given, and 0 otherwise.
    pub(crate) fn limits(self) -> Limits
        ensures { result ≡ (setting_row self).limits }
    {
        match self {
            Setting::Translation => Limits::new(1, 2, 2),
            Setting::Workers => Limits::new(1, MOST_WORKERS, PLAIN_WORKERS),
            Setting::Fuel => Limits::new(0, MOST_FUEL, PLAIN_FUEL),
            Setting::Heads => Limits::new(1, MOST_HEADS, PLAIN_HEADS),
            Setting::Edges => Limits::new(1, MOST_EDGES, 100_000),
            Setting::After => Limits::new(0, MOST_FUEL, 0),
            Setting::Steps => Limits::new(0, MOST_STEPS, 1_000),
            Setting::Run | Setting::FromTerm => Limits::new(0, 1, 0),
        }
    }
}
