//! The command `view`: the net of a term after some leads, as a text.
ghost use Rattle.std.specs.Prelude.{◌≡◌, true, IfOk};
ghost use Rattle.ol_wire.specs.Sizes.{IsSmallNet};
ghost use Rattle.ol_words.specs.declared.jobs.Job.TheVariants as jobs;
ghost use Rattle.ol_cli.specs.Called.{ReadsAtMost, OfFilesRead, seen_of};
ghost use Rattle.ol_cli.specs.View.{Views};
ghost use Rattle.ol_cli.specs.Inside.{ComesOf};
ghost use Rattle.ol_cli.specs.Ready.{HoldsOfTerms};

use crate::answer::Answer;
use crate::ready::{Ready, read_term};
use crate::status::Status;
use crate::texts::view_lines;
use ol_io::Source;
use ol_limits::{Fuel, NoMemory};
use ol_net::Net;
use ol_term::Translation;
use ol_view::{after, show};
use std::alloc::Global;

/// The answer of `view` to the term file of this name: its net after at most so many leads.
pub fn answer_view<S: Source>(
    alloc: Global,
    translation: Translation,
    leads: Fuel,
    name: &str,
    src: &mut S,
) -> Result<Answer, NoMemory>
    requires known { S.knows src.old name.now ≡ true }
    ensures comes { OfFilesRead S.Source src.old src.new (λ files.
        IfOk result (ComesOf (jobs.View translation leads.most name.now)
        (seen_of S.Source files src.old src.new))) }
    ensures source { ReadsAtMost S.Source 1 src.old src.new }
{
    let ready = read_term(alloc, translation, name, src)?;
    match ready {
        Ready::Refused(answer) => Ok(answer),
        Ready::Net { net, file: _ } => {
            let text = view_net(alloc, &net, leads)?;
            Ok(Answer::text_alone(text, Status::Done))
        }
    }
}

// The text of the net after leads, one after another. This holds for each term that has this net.
fn view_net(alloc: Global, net: &Net, leads: Fuel) -> Result<Vec<u8>, NoMemory>
    requires small { IsSmallNet net.now }
    ensures { IfOk result (λ text. HoldsOfTerms net.now (λ translation t names.
        Views translation t names leads.most text.items)) }
{
    let last = after(alloc, net, leads.most)?;
    last.net.is_tabled();
    let shown = show(alloc, &last.net)?;
    view_lines(alloc, last.steps, &shown)
}
