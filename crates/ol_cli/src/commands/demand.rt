//! The command `demand`: reads the net of a term back, and rewrites only the active pairs that the
//! paths of the readback meet.
ghost use Rattle.std.specs.Prelude.{◌≡◌, true, IfOk, None};
ghost use Rattle.ol_term.specs.Trees.{tree_of};
ghost use Rattle.ol_words.specs.declared.jobs.Job.TheVariants as jobs;
ghost use Rattle.ol_cli.specs.Called.{ReadsAtMost, OfFilesRead, seen_of};
ghost use Rattle.ol_cli.specs.Inside.{AnswersTerm, ComesOf, demand_by};
ghost use Rattle.ol_cli.specs.Ready.{IsNetOf};

use crate::answer::Answer;
use crate::ready::{Ready, read_term};
use crate::status::Status;
use crate::texts::{answer_lines, spent_line};
use ol_demand::{Demanded, demand};
use ol_io::Source;
use ol_limits::{Fuel, Heads, NoMemory};
use ol_net::Net;
use ol_readback::tree_text;
use ol_rules::counts;
use ol_term::{TermFile, Translation};
use std::alloc::Global;

/// The answer of `demand` to the term file of this name: the first `heads` subterms are asked for,
/// and at most `fuel` active pairs are rewritten.
pub fn answer_demand<S: Source>(
    alloc: Global,
    translation: Translation,
    fuel: Fuel,
    heads: Heads,
    name: &str,
    src: &mut S,
) -> Result<Answer, NoMemory>
    requires known { S.knows src.old name.now ≡ true }
    ensures comes { OfFilesRead S.Source src.old src.new (λ files.
        IfOk result (ComesOf (jobs.Demand translation fuel.most heads.most name.now)
        (seen_of S.Source files src.old src.new))) }
    ensures source { ReadsAtMost S.Source 1 src.old src.new }
{
    let ready = read_term(alloc, translation, name, src)?;
    match ready {
        Ready::Refused(answer) => Ok(answer),
        Ready::Net { net, file } => demand_net(alloc, &net, &file, translation, fuel, heads),
    }
}

// A copy of the net is read back in demand order, in one thread. Its stuck pairs are those of the
// net that this leaves.
fn demand_net(
    alloc: Global,
    net: &Net,
    file: &TermFile,
    translation: Translation,
    fuel: Fuel,
    heads: Heads,
) -> Result<Answer, NoMemory>
    requires net { IsNetOf translation (tree_of file.now.term) file.now.names net.now }
    ensures answer { IfOk result (λ a.
        AnswersTerm (demand_by translation fuel.most heads.most) file.now a.status a.text.items) }
    ensures closed { IfOk result (λ a. a.closed ≡ None) }
{
    let mut last = net.copy()?;
    last.is_net();
    let demanded = demand(alloc, &mut last, fuel.most, heads.most)?;
    match demanded {
        Demanded::Spent { .. } => {
            let text = spent_line(alloc, fuel.most)?;
            Ok(Answer::text_alone(text, Status::Spent))
        }
        Demanded::Done { tree, journal } => {
            last.is_net();
            let term = tree_text(alloc, &tree, &file.names)?;
            let text = answer_lines(alloc, &term, counts(&journal), last.stuck())?;
            Ok(Answer::text_alone(text, Status::Done))
        }
    }
}
