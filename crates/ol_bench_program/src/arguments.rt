//! How an argument of a command is written down as a row, and the rows of which commands are made.

use ol_limits::{MOST_EDGES, MOST_FUEL, MOST_HEADS, MOST_JOURNAL_BYTES, MOST_NODES, MOST_STEPS};

/// The greatest number of moves of the machine of call-by-need.
pub(crate) const MOST_MOVES: u32 = 8_000_000;

/// The greatest number of crossings that `walk` prints.
pub(crate) const MOST_LINES: u32 = 100_000;

/// The greatest number of students of `grade`.
pub(crate) const MOST_STUDENTS: usize = 1_000;

static PAIR_ORDERS: [&str; 3] = ["least", "demand", "rounds"];

static REDEX_ORDERS: [&str; 5] = ["leftmost", "head", "weak-head", "applicative", "value"];

static TERM_ALONE: [&str; 1] = ["term"];

static NOTHING: [&str; 0] = [];

/// How an argument is written.
#[derive(Clone, Copy)]
pub(crate) enum Form {
    /// By its position, without an option.
    Bare,
    /// As an option with two hyphens and the name of the argument.
    Long,
    /// As an option with one hyphen and this letter.
    Short(char),
}

/// Words of which an option takes a single one.
#[derive(Clone, Copy)]
pub(crate) enum Words {
    /// Which pairs come first.
    PairOrders,
    /// Which redex comes next.
    RedexOrders,
}

impl Words {
    /// The words.
    pub(crate) fn all(self) -> &'static [&'static str] {
        match self {
            Words::PairOrders => PAIR_ORDERS.as_slice(),
            Words::RedexOrders => REDEX_ORDERS.as_slice(),
        }
    }
}

/// The value of an argument.
#[derive(Clone, Copy)]
pub(crate) enum Value {
    /// Nothing: it is a flag.
    Nothing,
    /// A text, as the name of a file.
    Text,
    /// One text or more, up to so many.
    Texts { most: usize },
    /// A number in this closed interval.
    Number { least: u32, most: u32 },
    /// A word of these.
    Word(Words),
}

/// Whether an argument has to be given.
#[derive(Clone, Copy)]
pub(crate) enum Need {
    /// It may be left out.
    Never,
    /// It has to be given.
    Always,
    /// It may be left out, and can't be given beside `-e`.
    NotWithTerm,
    /// It has to be given where `-e` isn't, and can't be given beside it.
    UnlessTerm,
}

impl Need {
    /// It has to be given, whatever else is.
    pub(crate) fn is_always(self) -> bool {
        matches!(self, Need::Always)
    }

    /// Those of which one has to be given where this argument isn't. If there are none, it may be
    /// left out.
    pub(crate) fn others(self) -> &'static [&'static str] {
        match self {
            Need::UnlessTerm => TERM_ALONE.as_slice(),
            Need::Never | Need::Always | Need::NotWithTerm => NOTHING.as_slice(),
        }
    }

    /// Those that can't be given beside it.
    pub(crate) fn conflicts(self) -> &'static [&'static str] {
        match self {
            Need::NotWithTerm | Need::UnlessTerm => TERM_ALONE.as_slice(),
            Need::Never | Need::Always => NOTHING.as_slice(),
        }
    }
}

/// An argument of a command.
#[derive(Clone, Copy)]
pub(crate) struct Row {
    /// What it is called.
    pub(crate) id: &'static str,
    /// How it is written.
    pub(crate) form: Form,
    /// What is given to it.
    pub(crate) value: Value,
    /// The name of its value in the help, if it isn't the name of the argument.
    pub(crate) shown: Option<&'static str>,
    /// Its value if it isn't given.
    pub(crate) default: Option<&'static str>,
    /// Whether it has to be given.
    pub(crate) need: Need,
    /// What the help says of it.
    pub(crate) help: &'static str,
}

/// A flag. The rows below say how they differ from it.
pub(crate) const FLAG: Row = Row {
    id: "",
    form: Form::Long,
    value: Value::Nothing,
    shown: None,
    default: None,
    need: Need::Never,
    help: "",
};

/// A term in place of a file.
pub(crate) const TERM: Row = Row {
    id: "term",
    form: Form::Short('e'),
    value: Value::Text,
    shown: Some("TERM"),
    help: "the term itself, in place of the file",
    ..FLAG
};

/// The name of a file.
pub(crate) const FILE: Row = Row {
    id: "name",
    form: Form::Bare,
    value: Value::Text,
    need: Need::Always,
    ..FLAG
};

/// The name of a file, unless there is a term.
pub(crate) const FILE_OF_TERM: Row = Row {
    need: Need::UnlessTerm,
    help: "the file with the term, `-` for standard input",
    ..FILE
};

pub(crate) const FILE_OF_SUBJECT: Row = Row {
    help: "the file with the term or the net, `-` for standard input",
    ..FILE_OF_TERM
};

/// The first of two files. With `-e` only the trace has a file, and its name is the first one.
pub(crate) const FIRST_OF_TWO: Row = Row {
    help: "the file with the term or the net, `-` for standard input; with -e that with the trace",
    ..FILE
};

pub(crate) const JOURNAL: Row = Row {
    id: "other",
    shown: Some("trace"),
    help: "the file with the trace, `-` for standard input",
    ..FILE_OF_TERM
};

pub(crate) const NET: Row = Row {
    id: "net",
    need: Need::NotWithTerm,
    help: "the file has a net, as `ol net` writes it; not with -e",
    ..FLAG
};

pub(crate) const TRANSLATION: Row = Row {
    id: "translation",
    value: Value::Number { least: 1, most: 2 },
    default: Some("2"),
    help: "the translation of the term into a net, 1 or 2",
    ..FLAG
};

/// The most interactions of a run.
pub(crate) const FUEL: Row = Row {
    id: "fuel",
    value: Value::Number {
        least: 0,
        most: MOST_FUEL,
    },
    default: Some("200000"),
    help: "the greatest number of interactions, 0 to 8000000",
    ..FLAG
};

/// The most places that `demand` asks.
pub(crate) const HEADS: Row = Row {
    id: "heads",
    value: Value::Number {
        least: 1,
        most: MOST_HEADS,
    },
    default: Some("4096"),
    help: "the greatest number of subterms that are read, 1 to 100000",
    ..FLAG
};

/// The most steps of an order.
pub(crate) const STEPS: Row = Row {
    id: "most",
    value: Value::Number {
        least: 0,
        most: MOST_STEPS,
    },
    default: Some("100"),
    help: "the greatest number of steps, 0 to 10000",
    ..FLAG
};

pub(crate) const JSON: Row = Row {
    id: "json",
    help: "the answer is a JSON object on a single line",
    ..FLAG
};
