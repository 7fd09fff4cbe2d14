//! The commands: the arguments of each, what the help has, and what is asked.

ghost use Rattle.std.specs.Prelude.{IfOk};
ghost use Rattle.ol_bench.specs.Commands.{IsWithinBounds};

use crate::arguments::{
    FILE, FILE_OF_SUBJECT, FILE_OF_TERM, FIRST_OF_TWO, FLAG, FUEL, Form, HEADS, JOURNAL, JSON,
    MOST_LINES, MOST_MOVES, MOST_STUDENTS, NET, Need, Row, STEPS, TERM, TRANSLATION, Value, Words,
};
use crate::words::{
    asked_of_one, asked_of_two, bounds_of, columns_of, fuel_of, grading_of, heads_of, layout_of,
    number_of, order_of, place_of, shown_of, subject_of, translation_of, walk_of,
};
use clap::{ArgMatches, Error};
use ol_bench::{Asked, OnOne, OnTwo};
use ol_limits::{MOST_EDGES, MOST_FUEL, MOST_HEADS, MOST_JOURNAL_BYTES, MOST_NODES, MOST_STEPS};
use std::alloc::Global;

/// The text of a command: what it reads, or its limits; the exit statuses of its own, and what 3
/// means; and the example.
macro_rules! ending {
    (a term, $more:literal, $own:literal, $example:literal) => {
        ending!(
            "  a file with a term has at most 1048576 bytes, or else: limit bytes 1048576
  the term is at most 1000 deep, or else: limit depth 1000
  its net has at most 200000 nodes, or else: limit nodes 200000",
            $more,
            $own,
            "a file can't be read, is too large or isn't a term",
            $example
        )
    };
    (a subject, $more:literal, $own:literal, $example:literal) => {
        ending!(
            "  a file with a term has at most 1048576 bytes, or else: limit bytes 1048576
  the term is at most 1000 deep, or else: limit depth 1000
  its net has at most 200000 nodes, or else: limit nodes 200000
  a file with a net has at most 33554432 bytes, or else: limit net 33554432",
            $more,
            $own,
            "a file can't be read, is too large, or is neither a term nor a net",
            $example
        )
    };
    ($limits:literal, $more:literal, $own:literal, $refused:literal, $example:literal) => {
        concat!(
            "Limits:\n",
            $limits,
            $more,
            "\n\nExit status:\n",
            $own,
            "\n  2   wrong arguments\n  3   ",
            $refused,
            ": standard error has the reason
  5   the output can't be written
  6   out of memory\n\nExample:\n",
            $example
        )
    };
}

/// The commands.
#[derive(Clone, Copy)]
pub(crate) enum Verb {
    Journal,
    Check,
    Explain,
    After,
    Steps,
    Counts,
    Same,
    Where,
    Derivation,
    Free,
    Waves,
    Story,
    Show,
    Tree,
    Walk,
    Grade,
}

// The order is that of the help.
static VERBS: [Verb; 16] = [
    Verb::Journal,
    Verb::Check,
    Verb::Explain,
    Verb::After,
    Verb::Steps,
    Verb::Counts,
    Verb::Same,
    Verb::Where,
    Verb::Derivation,
    Verb::Free,
    Verb::Waves,
    Verb::Story,
    Verb::Show,
    Verb::Tree,
    Verb::Walk,
    Verb::Grade,
];

/// How a command is written, and what the help says of it.
#[derive(Clone, Copy)]
pub(crate) struct Usage {
    /// The command.
    pub(crate) word: &'static str,
    /// What the command does.
    pub(crate) about: &'static str,
    /// What the help has below the arguments.
    pub(crate) below: &'static str,
    /// The arguments, in the order in which the help has them.
    pub(crate) rows: &'static [Row],
}

static JOURNAL_ROWS: [Row; 7] = [
    NET,
    TRANSLATION,
    FUEL,
    HEADS,
    Row {
        id: "order",
        value: Value::Word(Words::PairOrders),
        need: Need::Always,
        help: "the next pair: of the least node, met by the read-back, or all pairs in rounds",
        ..FLAG
    },
    TERM,
    FILE_OF_SUBJECT,
];

fn journal() -> Usage {
    Usage {
        word: "journal",
        about: "The trace of a reduction in one of three orders",
        below: ending!(
    a subject,
    "",
    "  0   the order is finished within the fuel
  1   the fuel isn't enough: the trace has the interactions that were made",
    "  $ ol-bench journal --order rounds -e '(\\x. a) ((\\y. y) b)'
  ol trace 2
  beta 1 0 1
  beta 1 4 5"
),
        rows: JOURNAL_ROWS.as_slice(),
    }
}

static CHECK_ROWS: [Row; 6] = [JSON, NET, TRANSLATION, TERM, FIRST_OF_TWO, JOURNAL];

fn check() -> Usage {
    Usage {
        word: "check",
        about: "The verdict of `ol check` on a trace, with an exit status for each verdict",
        below: ending!(
    a subject,
    "
  a trace has at most 402653184 bytes and 8000000 interactions; further lines are bad text",
    "  0   complete: the trace is a reduction to normal form
  10  run K: the trace is a reduction, and active pairs are left
  11  not a run at line L: line L isn't an interaction of the net
  12  bad text at line L: line L isn't of the format",
    "  $ printf '%s\\n' 'ol trace 1' '0 1' | ol-bench check -e '(\\x. x) (\\y. y)' -
  run 1
  [status 10]"
),
        rows: CHECK_ROWS.as_slice(),
    }
}

static EXPLAIN_ROWS: [Row; 6] = [JSON, NET, TRANSLATION, TERM, FIRST_OF_TWO, JOURNAL];

fn explain() -> Usage {
    Usage {
        word: "explain",
        about: "The verdict of `ol check` on a trace, and the reason",
        below: ending!(
    a subject,
    "
  a trace has at most 402653184 bytes, or else: limit journal 402653184
  it has at most 8000000 interactions; further lines are bad text
  of the active pairs that are left 20 are printed",
    "  0   complete: the trace is a reduction to normal form
  10  run K: the trace is a reduction, and active pairs are left
  11  not a run at line L: line L isn't an interaction of the net
  12  bad text at line L: line L isn't of the format",
    "  $ printf '%s\\n' 'ol trace 1' '0 1' '1 2' | ol-bench explain -e '(\\x. x) (\\y. y)' -
  not a run at line 3
  1 is gone, by line 2
  [status 11]"
),
        rows: EXPLAIN_ROWS.as_slice(),
    }
}

static AFTER_ROWS: [Row; 7] = [
    Row {
        id: "weights",
        help: "each link with its weight",
        ..FLAG
    },
    Row {
        id: "lines",
        form: Form::Bare,
        value: Value::Number {
            least: 1,
            most: MOST_FUEL + 1,
        },
        need: Need::Always,
        help: "the number of lines of the trace, header included, 1 to 8000001",
        ..FLAG
    },
    NET,
    TRANSLATION,
    TERM,
    FIRST_OF_TWO,
    JOURNAL,
];

fn after() -> Usage {
    Usage {
        word: "after",
        about: "The net after the first lines of a trace, with the names of the trace",
        below: ending!(
    a subject,
    "
  a trace has at most 402653184 bytes, or else: limit journal 402653184",
    "  0   the net is printed
  1   the trace has fewer lines, or one of them is wrong: standard error has the reason",
    "  $ echo 'ol trace 1' | ol-bench after 1 -e '\\x. x' -
  step 0
  nodes 2
  f0 0.0
  0 lam 0 f0 1.1 1.0
  1 croissant 0 0.2 0.1"
),
        rows: AFTER_ROWS.as_slice(),
    }
}

static STEPS_ROWS: [Row; 8] = [
    Row {
        id: "leftmost",
        help: "the same as --order leftmost; ignored if --order is given",
        ..FLAG
    },
    Row {
        id: "order",
        value: Value::Word(Words::RedexOrders),
        default: Some("leftmost"),
        help: "the strategy",
        ..FLAG
    },
    Row {
        id: "mark",
        help: "a line of carets under the next redex",
        ..FLAG
    },
    Row {
        id: "letters",
        help: "letters for bound names, in place of the names of the file",
        ..FLAG
    },
    Row {
        id: "fold",
        help: "the value of a let at the front of the file is printed by its name, of several as zero|false",
        ..FLAG
    },
    STEPS,
    TERM,
    FILE_OF_TERM,
];

fn steps() -> Usage {
    Usage {
        word: "steps",
        about: "A reduction term by term, with the address of each redex",
        below: ending!(
    a term,
    "
  each term that is printed has at most 100000 constructors and is at most 1000 deep",
    "  0   the order has reached its result
  1   a redex is left; or the term comes back, is stuck, or exceeds a limit",
    "  $ ol-bench steps -e '(\\x. x x) (\\y. y)'
  (\\x. x x) (\\y. y)
    at .
  (\\y. y) (\\y. y)
    at .
  \\y. y
  normal after 2 steps"
),
        rows: STEPS_ROWS.as_slice(),
    }
}

static COUNTS_ROWS: [Row; 15] = [
    NET,
    TRANSLATION,
    FUEL,
    HEADS,
    Row {
        default: Some("1000"),
        help: "the greatest number of steps of leftmost, applicative and families, 0 to 10000",
        ..STEPS
    },
    Row {
        id: "moves",
        value: Value::Number {
            least: 0,
            most: MOST_MOVES,
        },
        default: Some("1000000"),
        help: "the greatest number of moves of the machine of need, 0 to 8000000",
        ..FLAG
    },
    Row {
        id: "no-run",
        help: "without the column `run`",
        ..FLAG
    },
    Row {
        id: "no-demand",
        help: "without the column `demand`",
        ..FLAG
    },
    Row {
        id: "no-leftmost",
        help: "without the column `leftmost`",
        ..FLAG
    },
    Row {
        id: "applicative",
        help: "with the column `applicative`",
        ..FLAG
    },
    Row {
        id: "need",
        help: "with the column `need`: call-by-need",
        ..FLAG
    },
    Row {
        id: "families",
        help: "with the column `families`: the families that leftmost order contracts",
        ..FLAG
    },
    JSON,
    TERM,
    FILE_OF_SUBJECT,
];

fn counts() -> Usage {
    Usage {
        word: "counts",
        about: "What a term costs by several strategies, a column for each",
        below: ending!(
    a subject,
    "
  in leftmost and applicative order a term has at most 100000 constructors and depth 1000
  the labels of a term, and the degrees of all steps, have at most 10000000 letters",
    "  0   no column was cut
  1   a column was cut by a bound: a + follows its numbers, and there may be more",
    "  $ ol-bench counts --no-run --no-demand --need --families -e '(\\x. x x) (\\y. y)'
                      leftmost        need    families
  beta                       2           2           2"
),
        rows: COUNTS_ROWS.as_slice(),
    }
}

static SAME_ROWS: [Row; 2] = [
    Row {
        help: "a file with a net, `-` for standard input",
        ..FILE
    },
    Row {
        id: "other",
        help: "a file with a net, `-` for standard input",
        ..FILE
    },
];

fn same() -> Usage {
    Usage {
        word: "same",
        about: "Whether two nets are equal up to the numbers of nodes, or where they differ",
        below: ending!(
            "  a file with a net has at most 33554432 bytes, or else: limit net 33554432
  after 1000 attempts to match parts that no free port reaches, the command gives up",
            "",
            "  0   the nets are equal up to the numbers of nodes
  1   the nets differ, or the command gives up",
            "a file can't be read, is too large or isn't a net",
            "  $ printf '%s\\n' 'ol net 1' 'free 1' 'node eraser -' 'link f0 0.0' > A
  $ printf '%s\\n' 'ol net 1' 'free 2' 'link f0 f1' > B
  $ ol-bench same A B
  different at f1: only there
  [status 1]"
        ),
        rows: SAME_ROWS.as_slice(),
    }
}

static WHERE_ROWS: [Row; 3] = [
    TERM,
    Row {
        help: "the file, `-` for standard input",
        ..FILE_OF_TERM
    },
    Row {
        id: "byte",
        form: Form::Bare,
        value: Value::Number {
            least: 0,
            most: MOST_JOURNAL_BYTES,
        },
        need: Need::NotWithTerm,
        help: "the offset of a byte, 0 to 402653184; not with -e; without it, the first syntax error is located",
        ..FLAG
    },
];

fn places() -> Usage {
    Usage {
        word: "where",
        about: "Line and column of a byte, or of the first syntax error, with a caret",
        below: ending!(
            "  without a byte a file has at most 1048576 bytes, or else: limit bytes 1048576
  with a byte it has at most 402653184 bytes, or else: limit journal 402653184",
            "",
            "  0   the byte is in the file or at its end; without a byte, the file is a term
  1   the byte is past the end; without a byte, the file isn't a term",
            "a file can't be read or is too large",
            "  $ ol-bench where -e '(\\x. x'
  line 1, column 7
  (\\x. x
        ^
  wanted: ) or more
  [status 1]"
        ),
        rows: WHERE_ROWS.as_slice(),
    }
}

static DERIVATION_ROWS: [Row; 1] = [Row {
    help: "the file with a term on each line, `-` for standard input",
    ..FILE
}];

fn derivation() -> Usage {
    Usage {
        word: "derivation",
        about: "Whether each term of a derivation follows from the term before by one beta step",
        below: ending!(
            "  a file has at most 1048576 bytes, or else: limit bytes 1048576
  a term has at most 100000 constructors and is at most 1000 deep; others are skipped
  `K steps` is searched among at most 1000 reductions, and K is at most 5
  `not convertible` is searched by at most 1000 steps of leftmost order",
            "",
            "  0   each line follows by one beta step, or is the same term
  1   a line doesn't follow so, isn't a term or is too large; or there is no term",
            "a file can't be read or is too large",
            "  $ printf '%s\\n' '(\\x. x x) ((\\y. y) z)' '(\\x. x x) z' 'z' | ol-bench derivation -
  line 2: one beta step, at 2
  line 3: not convertible
  [status 1]"
        ),
        rows: DERIVATION_ROWS.as_slice(),
    }
}

static FREE_ROWS: [Row; 2] = [TERM, FILE_OF_TERM];

fn free() -> Usage {
    Usage {
        word: "free",
        about: "The free names of a term, with line and column",
        below: ending!(
            "  a file has at most 1048576 bytes, or else: limit bytes 1048576
  the term is at most 1000 deep, or else: limit depth 1000",
            "",
            "  0   the free names are printed, or `closed`",
            "a file can't be read, is too large or isn't a term",
            "  $ ol-bench free -e '\\x. x y'
  y line 1 column 7"
        ),
        rows: FREE_ROWS.as_slice(),
    }
}

static WAVES_ROWS: [Row; 5] = [NET, TRANSLATION, FUEL, TERM, FILE_OF_SUBJECT];

fn waves() -> Usage {
    Usage {
        word: "waves",
        about: "How many interactions each wave of a reduction has, by rule",
        below: ending!(
    a subject,
    "",
    "  0   no active pair is left
  1   the fuel isn't enough: the counts are of the interactions that were made",
    "  $ ol-bench waves -e '(\\x. a) ((\\y. y) b)'
     wave   pairs    beta     fan croissant bracket cross-fan cross-croissant cross-bracket   erase
        1       2       2       0         0       0         0               0             0       0
  widest 2 at wave 1
  mean 2/1
  waves 1
  interactions 2"
),
        rows: WAVES_ROWS.as_slice(),
    }
}

static STORY_ROWS: [Row; 5] = [
    NET,
    TRANSLATION,
    Row {
        default: Some("1000"),
        help: "the greatest number of interactions, 0 to 8000000",
        ..FUEL
    },
    TERM,
    FILE_OF_SUBJECT,
];

fn story() -> Usage {
    Usage {
        word: "story",
        about: "A reduction step by step: its nodes, the nodes that are created, the pairs that are left",
        below: ending!(
    a subject,
    "",
    "  0   no active pair is left
  1   the fuel isn't enough: the interactions that were made are printed",
    "  $ ol-bench story -e '(\\x. x) a'
  ol trace 2
    active: 0 and 1
  beta 1 0 1
    0 (app 0) and 1 (lam 0)
    no node is created
    no active pair"
),
        rows: STORY_ROWS.as_slice(),
    }
}

static SHOW_ROWS: [Row; 5] = [TRANSLATION, FUEL, HEADS, TERM, FILE_OF_TERM];

fn show() -> Usage {
    Usage {
        word: "show",
        about: "The normal form of a term, and the numerals, booleans, pairs and lists that it encodes",
        below: ending!(
    a term,
    "
  a normal form of a depth above 1000 is decoded only if it is a Church numeral",
    "  0   an encoding fits
  1   no encoding fits, `...` is left, the fuel isn't enough, or the normal form is too deep",
    "  $ ol-bench show -e '\\f x. f (f x)'
  \\a b. a (a b)
  Church numeral 2"
),
        rows: SHOW_ROWS.as_slice(),
    }
}

static TREE_ROWS: [Row; 6] = [
    Row {
        id: "depth",
        value: Value::Number {
            least: 0,
            most: MOST_HEADS,
        },
        default: Some("5"),
        help: "subterms of a smaller depth are searched, 0 to 100000; the root has depth 0",
        ..FLAG
    },
    TRANSLATION,
    Row {
        default: Some("10000"),
        help: "the greatest number of interactions for a subterm, 0 to 8000000; all have 8000000",
        ..FUEL
    },
    HEADS,
    TERM,
    FILE_OF_TERM,
];

fn tree() -> Usage {
    Usage {
        word: "tree",
        about: "The Böhm tree of a term down to a depth",
        below: ending!(
    a term,
    "",
    "  0   each subterm of a smaller depth has its head
  1   `?` is printed, or the tree has more subterms than --heads",
    "  $ ol-bench tree --depth 2 --fuel 100 -e '\\f. f ((\\x. x x) (\\x. x x)) (f a) b'
  \\c. c ? (c ...) b
  [status 1]"
),
        rows: TREE_ROWS.as_slice(),
    }
}

static WALK_ROWS: [Row; 8] = [
    Row {
        id: "frame",
        value: Value::Text,
        shown: Some("path"),
        need: Need::Always,
        help: "the subterm: `root`, or the numbers of arguments from the root, as in 2.1",
        ..FLAG
    },
    Row {
        id: "asked",
        value: Value::Number {
            least: 0,
            most: MOST_NODES,
        },
        help: "only the path for this number of abstractions, 0 to 200000; without it, all",
        ..FLAG
    },
    Row {
        id: "lines",
        value: Value::Number {
            least: 0,
            most: MOST_LINES,
        },
        default: Some("1000"),
        help: "the greatest number of crossings that are printed, 0 to 100000",
        ..FLAG
    },
    Row {
        id: "edges",
        value: Value::Number {
            least: 1,
            most: MOST_EDGES,
        },
        default: Some("100000"),
        help: "the greatest number of crossings of a path, 1 to 10000000",
        ..FLAG
    },
    HEADS,
    TRANSLATION,
    TERM,
    FILE_OF_TERM,
];

fn walk() -> Usage {
    Usage {
        word: "walk",
        about: "The paths by which `ol walk` reads a subterm, crossing by crossing",
        below: ending!(
    a term,
    "",
    "  0   the paths are printed
  1   the term that `ol walk` prints has no such subterm",
    "  $ ol-bench walk --frame root --asked 1 -e '\\x. x'
  asked 1 f0 o.empty
  0.0 lam 0 0.1 empty
  1.1 croissant 0 1.0 empty
  0.2 lam 0 0.0 *.empty
  out f0
  abstractions 1, binder 1 of root, arguments 0"
),
        rows: WALK_ROWS.as_slice(),
    }
}

static GRADE_ROWS: [Row; 6] = [
    Row {
        id: "on",
        value: Value::Text,
        shown: Some("inputs"),
        need: Need::Always,
        help: "the file with the inputs: on each line the arguments of a call",
        ..FLAG
    },
    TRANSLATION,
    FUEL,
    HEADS,
    Row {
        help: "the file with the solution",
        ..FILE
    },
    Row {
        id: "student",
        value: Value::Texts {
            most: MOST_STUDENTS,
        },
        help: "the files with the students' functions, 1 to 1000",
        ..FILE
    },
];

fn grade() -> Usage {
    Usage {
        word: "grade",
        about: "Whether students' functions agree with a solution on some inputs",
        below: ending!(
            "  each file has at most 1048576 bytes, or else: limit bytes 1048576
  a call is at most 1000 deep, and its net has at most 200000 nodes
  an input has at most 100000 constructors",
            "",
            "  0   each student's function agrees with the solution on all inputs
  1   a student's function doesn't, or can't be compared",
            "the inputs or the solution can't be read, or nothing can be compared with them",
            "  $ echo a > inputs; echo '\\x. x' > solution; echo '\\x. b' > ann
  $ ol-bench grade --on inputs solution ann
  ann: different at root on 1: expected a, got b
  [status 1]"
        ),
        rows: GRADE_ROWS.as_slice(),
    }
}

impl Verb {
    /// All commands, in the order in which the help has them.
    pub(crate) fn all() -> &'static [Verb] {
        VERBS.as_slice()
    }

    /// How the command is written, and what the help says of it.
    pub(crate) fn usage(self) -> Usage {
        match self {
            Verb::Journal => journal(),
            Verb::Check => check(),
            Verb::Explain => explain(),
            Verb::After => after(),
            Verb::Steps => steps(),
            Verb::Counts => counts(),
            Verb::Same => same(),
            Verb::Where => places(),
            Verb::Derivation => derivation(),
            Verb::Free => free(),
            Verb::Waves => waves(),
            Verb::Story => story(),
            Verb::Show => show(),
            Verb::Tree => tree(),
            Verb::Walk => walk(),
            Verb::Grade => grade(),
        }
    }

    /// The command that is written so, if there is one.
    pub(crate) fn named(word: &str) -> Option<Verb> {
        for verb in Verb::all() {
            if verb.usage().word == word {
                return Some(*verb);
            }
        }
        None
    }
}

/// What a command asks, by what clap found of its arguments.
pub(crate) fn asked_of(alloc: Global, verb: Verb, found: &ArgMatches) -> Result<Asked, Error>
    ensures { IfOk result IsWithinBounds }
{
    let subject = subject_of(found);
    let translation = translation_of(found);
    let fuel = fuel_of(found);
    let heads = heads_of(found);
    let layout = layout_of(found);
    match verb {
        Verb::Journal => {
            let order = order_of(found);
            asked_of_one(
                alloc,
                OnOne::Journal {
                    subject,
                    order,
                    fuel,
                    heads,
                },
                found,
            )
        }
        Verb::Check => asked_of_two(alloc, OnTwo::Check { subject, layout }, found),
        Verb::Explain => asked_of_two(alloc, OnTwo::Explain { subject, layout }, found),
        Verb::After => {
            let lines = number_of(found, "lines", 1, MOST_FUEL + 1);
            let weights = found.get_flag("weights");
            asked_of_two(
                alloc,
                OnTwo::After {
                    subject,
                    lines,
                    weights,
                },
                found,
            )
        }
        Verb::Steps => {
            let how = shown_of(found);
            let most = number_of(found, "most", 0, MOST_STEPS);
            asked_of_one(alloc, OnOne::Steps { how, most }, found)
        }
        Verb::Counts => {
            let bounds = bounds_of(found, fuel, heads);
            let columns = columns_of(found);
            asked_of_one(
                alloc,
                OnOne::Counts {
                    subject,
                    bounds,
                    columns,
                    layout,
                },
                found,
            )
        }
        Verb::Same => asked_of_two(alloc, OnTwo::Same, found),
        Verb::Where => asked_of_one(alloc, place_of(found), found),
        Verb::Derivation => asked_of_one(alloc, OnOne::Derivation, found),
        Verb::Free => asked_of_one(alloc, OnOne::Free, found),
        Verb::Waves => asked_of_one(alloc, OnOne::Waves { subject, fuel }, found),
        Verb::Story => asked_of_one(alloc, OnOne::Story { subject, fuel }, found),
        Verb::Show => asked_of_one(
            alloc,
            OnOne::Show {
                translation,
                fuel,
                heads,
            },
            found,
        ),
        Verb::Tree => {
            let depth = number_of(found, "depth", 0, MOST_HEADS);
            asked_of_one(
                alloc,
                OnOne::Tree {
                    translation,
                    depth,
                    fuel,
                    heads,
                },
                found,
            )
        }
        Verb::Walk => walk_of(alloc, found),
        Verb::Grade => grading_of(alloc, found),
    }
}
