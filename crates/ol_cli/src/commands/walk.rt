//! The command `walk`: reads a term back from its net before any step.
ghost use Rattle.std.specs.Prelude.{◌≡◌, true, length, IfOk};
ghost use Rattle.ol_term.specs.Trees.{tree_of};
ghost use Rattle.ol_net.specs.Numbered.{net_of};
ghost use Rattle.ol_net.specs.Nets.{SameNet};
ghost use Rattle.ol_translate.specs.Translation.{translation_of};
ghost use Rattle.ol_words.specs.declared.jobs.Job.TheVariants as jobs;
ghost use Rattle.ol_cli.specs.Called.{ReadsAtMost, OfFilesRead, seen_of};
ghost use Rattle.ol_cli.specs.Inside.{AnswersTerm, ComesOf, walk_by};

use crate::answer::Answer;
use crate::ready::{Ready, read_term};
use crate::status::Status;
use crate::texts::term_line;
use ol_io::Source;
use ol_limits::{Heads, NoMemory};
use ol_net::Net;
use ol_readback::{read_back, tree_text};
use ol_term::{TermFile, Translation};
use std::alloc::Global;

/// The answer of `walk` to the term file of this name: the first `heads` subterms are asked for, by
/// paths of at most `edges` crossings.
pub fn answer_walk<S: Source>(
    alloc: Global,
    translation: Translation,
    edges: u64,
    heads: Heads,
    name: &str,
    src: &mut S,
) -> Result<Answer, NoMemory>
    requires known { S.knows src.old name.now ≡ true }
    ensures comes { OfFilesRead S.Source src.old src.new (λ files.
        IfOk result (ComesOf (jobs.Walk translation edges heads.most name.now)
        (seen_of S.Source files src.old src.new))) }
    ensures source { ReadsAtMost S.Source 1 src.old src.new }
{
    let ready = read_term(alloc, translation, name, src)?;
    match ready {
        Ready::Refused(answer) => Ok(answer),
        Ready::Net { net, file } => {
            let text = walk_net(alloc, &net, &file, translation, edges, heads)?;
            Ok(Answer::text_alone(text, Status::Done))
        }
    }
}

// The net is read back as it is.
fn walk_net(
    alloc: Global,
    net: &Net,
    file: &TermFile,
    translation: Translation,
    edges: u64,
    heads: Heads,
) -> Result<Vec<u8>, NoMemory>
    requires net { SameNet (net_of net.now)
        (translation_of translation (tree_of file.now.term) (length file.now.names)) }
    ensures text { IfOk result (λ text.
        AnswersTerm (walk_by translation edges heads.most) file.now Status.Done text.items) }
{
    net.is_net();
    let tree = read_back(alloc, net, heads.most, edges)?;
    let term = tree_text(alloc, &tree, &file.names)?;
    term_line(alloc, &term)
}
