//! The command `counts`: what a term costs by each way that is shown.

ghost use Rattle.std.specs.Prelude.{◌≡◌, ◌<◌, ◌≤◌, ◌^◌, length, true, IfOk, IfSome};
ghost use Rattle.ol_term.specs.Trees.{is_below, term_size};
ghost use Rattle.ol_subjects.specs.Subjects.{most_bytes};
ghost use Rattle.ol_limits.specs.Limits.{most_net_bytes, most_nodes, most_term_bytes};
ghost use Rattle.ol_counts.specs.Counted.{AreColumns, IsCounted};
ghost use Rattle.ol_counts.specs.Tabled.{tree_in, IsTabled};

use crate::objects::text_in;
use crate::tables::{Column, end_of};
use crate::tallies::tally_of;
use crate::ways::{Bounds, Columns, WAYS, is_shown};
use ol_limits::NoMemory;
use ol_net::Net;
use ol_subjects::{Answer, End, Layout, NetRead, Subject, TermRead, read_subject, read_term};
use ol_term::{Term, Translation};
use std::alloc::Global;

// The columns that are shown, of a net with its term, or of a net alone.
fn columns_of(
    alloc: Global,
    net: &Net,
    term: Option<&Term>,
    bounds: Bounds,
    columns: Columns,
) -> Result<Vec<Column>, NoMemory>
    requires few { length net.now.nodes ≤ most_nodes }
    requires bound { IfSome (tree_in term) (λ t. is_below 0 t ≡ true) }
    requires counted { IfSome (tree_in term) (λ t. term_size t < 2 ^ 64) }
    ensures { IfOk result (λ shown.
        AreColumns net.now (tree_in term.entry) bounds columns shown.items) }
{
    let mut shown = Vec::new(alloc);
    for way in WAYS {
        if is_shown(columns, way) {
            let tally = tally_of(alloc, net, term, bounds, way)?;
            shown.push(Column { way, tally })?;
        }
    }
    Ok(shown)
}

// The answer for a net with its term, or for a net alone.
fn tabled(
    alloc: Global,
    net: &Net,
    term: Option<&Term>,
    bounds: Bounds,
    columns: Columns,
    layout: Layout,
) -> Result<Answer, NoMemory>
    requires few { length net.now.nodes ≤ most_nodes }
    requires bound { IfSome (tree_in term) (λ t. is_below 0 t ≡ true) }
    requires counted { IfSome (tree_in term) (λ t. term_size t < 2 ^ 64) }
    ensures { IfOk result (λ a. IsTabled net.now (tree_in term.entry)
        bounds columns layout a.text.items a.end) }
{
    let shown = columns_of(alloc, net, term, bounds, columns)?;
    let text = text_in(alloc, layout, &shown)?;
    let end = end_of(&shown);
    Ok(Answer { text, end })
}

// The answer to a file with a term.
fn of_term_file(
    alloc: Global,
    bytes: &[u8],
    translation: Translation,
    bounds: Bounds,
    columns: Columns,
    layout: Layout,
) -> Result<Answer, NoMemory>
    requires short { length bytes.now ≤ most_term_bytes }
    ensures { IfOk result (λ a.
        IsCounted bytes.now bounds columns layout a.text.items (Subject.Term translation) a.end) }
{
    match read_term(alloc, bytes, translation)? {
        TermRead::Refused(text) => {
            let end = End::Refused;
            Ok(Answer { text, end })
        }
        TermRead::Term { net, file } => {
            let answer = tabled(alloc, &net, Some(&file.term), bounds, columns, layout)?;
            Ok(answer)
        }
    }
}

// The answer to a file with a net.
fn of_net_file(
    alloc: Global,
    bytes: &[u8],
    bounds: Bounds,
    columns: Columns,
    layout: Layout,
) -> Result<Answer, NoMemory>
    requires short { length bytes.now ≤ most_net_bytes }
    ensures { IfOk result (λ a.
        IsCounted bytes.now bounds columns layout a.text.items Subject.Net a.end) }
{
    match read_subject(alloc, bytes, Subject::Net)? {
        NetRead::Refused(text) => {
            let end = End::Refused;
            Ok(Answer { text, end })
        }
        NetRead::Net(net) => {
            let answer = tabled(alloc, &net, None, bounds, columns, layout)?;
            Ok(answer)
        }
    }
}

/// What a term, or a net, costs by each way that has a column, side by side.
///
/// - `run`, `demand`: how often the reduction of the net applies each rule, the number of
///   interactions, and how many pairs are stuck in the last net. `demand` also has `places`, the
///   number of subterms of the normal form that were read, and `crossings`, the number of crossings
///   of the paths in the last net that lead to the heads of these subterms.
/// - `leftmost`, `applicative`: the number of β-steps of that order.
/// - `need`: the number of β-steps of the machine of call-by-need (`IsNeedCount`).
/// - `families`: the number of families of the redexes that leftmost reduction contracts
///   (`IsFamilyCount` of `ol_families`).
///
/// The last four have β-steps alone. The row of β-steps is the only row if neither `run` nor
/// `demand` is shown.
///
/// If a bound cuts a way, the numbers of that way are those up to the cut, and a plus follows each
/// of them: there may be more. `run` is cut by the fuel; `demand` by the fuel, or if subterms of
/// the normal form are left after `heads`. An order is cut after `steps`, or at a term of more than
/// 100,000 constructors, or of more than 1,000 that are nested. `families` is cut with leftmost
/// reduction, or by labels of more than 10,000,000 letters (`families` of `ol_families`). `need` is
/// cut after `moves`.
///
/// A hyphen means that there is nothing to count: a net without a term has numbers of `run` and
/// `demand` only, and those of `demand` only if the net has a free port. `places` and `crossings`
/// are unknown if the fuel cuts `demand`.
///
/// As `Layout::Object` the text is a JSON object on one line: `columns` is an object with a member
/// for each column, by its title. The member is an object with the numbers of the column, by the
/// names of the rows, and with `ended`, which is false if the way was cut; or `null`, if the column
/// has hyphens alone.
///
/// - `Yes`: no way that is shown was cut.
/// - `No`: a way that is shown was cut.
/// - `Refused`: `ol` refuses the file, by this line.
///
/// The file has at most 1,048,576 bytes with a term, and 33,554,432 with a net. `NoMemory`: no
/// memory was found.
pub fn counted(
    alloc: Global,
    bytes: &[u8],
    subject: Subject,
    bounds: Bounds,
    columns: Columns,
    layout: Layout,
) -> Result<Answer, NoMemory>
    requires short { length bytes.now ≤ most_bytes subject }
    ensures { IfOk result (λ a.
        IsCounted bytes.now bounds columns layout a.text.items subject a.end) }
{
    match subject {
        Subject::Net => {
            let answer = of_net_file(alloc, bytes, bounds, columns, layout)?;
            Ok(answer)
        }
        Subject::Term(translation) => {
            let answer = of_term_file(alloc, bytes, translation, bounds, columns, layout)?;
            Ok(answer)
        }
    }
}
