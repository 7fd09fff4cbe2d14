//! The command `net`: reduces the net of a file and prints what is left, or prints the net of a
//! term.
ghost use Rattle.std.specs.Prelude.{◌≡◌, ◌≤◌, ◌<◌, ◌+◌, ℕ, true, false, length, count_by, is_some, IfOk, None};
ghost use Rattle.ol_net.specs.Numbered.{net_of};
ghost use Rattle.ol_wire.specs.Sizes.{IsSmallNet};
ghost use Rattle.ol_term.specs.declared.translations.Translation.{Translation};
ghost use Rattle.ol_words.specs.declared.jobs.Job.TheVariants as jobs;
ghost use Rattle.ol_cli.specs.Called.{ReadsAtMost, OfFilesRead, seen_of};
ghost use Rattle.ol_cli.specs.Inside.{ComesOf};
ghost use Rattle.ol_cli.specs.Net.{NetAnswer, NetFileAnswer, WritesNet};
ghost use Rattle.ol_cli.specs.NetLines.{AreLinesOf};
ghost use Rattle.ol_cli.specs.Ready.{HoldsOfTerms};
ghost use Rattle.ol_limits.specs.Limits.{most_net_bytes, most_nodes};

use crate::answer::Answer;
use crate::files::{File, FileKind, read_file};
use crate::ready::{Ready, read_term};
use crate::status::Status;
use crate::texts::{append, count_line, count_lines, spent_line, term_line};
use ol_io::{Gate, Source};
use ol_limits::{Fuel, MOST_NODES, NoMemory, Workers};
use ol_net::Net;
use ol_netfile::{fault_text, read_net, stuck_text, write_net};
use ol_reduce::{Counted, reduce_counted};
use ol_rules::Counts;
use ol_term::Translation;
use std::alloc::Global;
use std::sync::Wait;
use std::thread::Threads;

/// The answer of `net --from-term` to the term file of this name: the text of the term's net.
pub fn answer_net_of_term<S: Source>(
    alloc: Global,
    translation: Translation,
    name: &str,
    src: &mut S,
) -> Result<Answer, NoMemory>
    requires known { S.knows src.old name.now ≡ true }
    ensures comes { OfFilesRead S.Source src.old src.new (λ files.
        IfOk result (λ a. (workers fuel : ℕ) →
        ComesOf (jobs.Net translation true workers fuel name.now)
        (seen_of S.Source files src.old src.new) a)) }
    ensures source { ReadsAtMost S.Source 1 src.old src.new }
{
    let ready = read_term(alloc, translation, name, src)?;
    match ready {
        Ready::Refused(answer) => Ok(answer),
        Ready::Net { net, file: _ } => {
            let text = net_text(alloc, &net)?;
            Ok(Answer::text_alone(text, Status::Done))
        }
    }
}

// The text of a net. It is the text for each term that has this net.
fn net_text(alloc: Global, net: &Net) -> Result<Vec<u8>, NoMemory>
    requires whole { count_by is_some net.now.nodes ≡ length net.now.nodes }
    requires small { IsSmallNet net.now }
    requires few { length net.now.nodes ≤ most_nodes }
    ensures { IfOk result (λ text. HoldsOfTerms net.now (λ translation t names.
        WritesNet translation t names text.items)) }
{
    net.is_tabled();
    write_net(alloc, net)
}

/// The answer of `net` without `--from-term` to the net file of this name.
pub fn answer_net<R: Threads + Wait + Sync, S: Source, G: Gate + Sync>(
    rt: &R,
    alloc: Global,
    workers: Workers,
    fuel: Fuel,
    name: &str,
    src: &mut S,
    gate: &G,
) -> Result<Answer, NoMemory>
    requires known { S.knows src.old name.now ≡ true }
    ensures comes { OfFilesRead S.Source src.old src.new (λ files.
        IfOk result (λ a. (translation : Translation) →
        ComesOf (jobs.Net translation false workers.count fuel.most name.now)
        (seen_of S.Source files src.old src.new) a)) }
    ensures source { ReadsAtMost S.Source 1 src.old src.new }
{
    let file = read_file(alloc, FileKind::Net, name, src)?;
    match file {
        File::Refused(answer) => Ok(answer),
        File::Bytes(bytes) => {
            let answer = evaluate_file(rt, alloc, &bytes, workers, fuel, gate)?;
            Ok(answer)
        }
    }
}

// The answer to the bytes of a file with a net, which are within the limit.
fn evaluate_file<R: Threads + Wait + Sync, G: Gate + Sync>(
    rt: &R,
    alloc: Global,
    bytes: &[u8],
    workers: Workers,
    fuel: Fuel,
    gate: &G,
) -> Result<Answer, NoMemory>
    requires short { length bytes.now ≤ most_net_bytes }
    ensures answer { IfOk result (λ a. NetFileAnswer fuel.most bytes.now a.status a.text.items) }
    ensures closed { IfOk result (λ a. a.closed ≡ None) }
{
    match read_net(alloc, bytes) {
        Ok(net) => {
            net.is_tabled();
            let answer = rewrite(rt, alloc, &net, workers, fuel, gate)?;
            Ok(answer)
        }
        Err(fault) => {
            let told = fault_text(alloc, fault)?;
            let text = term_line(alloc, &told)?;
            Ok(Answer::text_alone(text, Status::BadNet))
        }
    }
}

// The net is rewritten by the workers, and what is left is printed, if it is small enough.
fn rewrite<R: Threads + Wait + Sync, G: Gate + Sync>(
    rt: &R,
    alloc: Global,
    net: &Net,
    workers: Workers,
    fuel: Fuel,
    gate: &G,
) -> Result<Answer, NoMemory>
    requires whole { count_by is_some net.now.nodes ≡ length net.now.nodes }
    requires small { IsSmallNet net.now }
    ensures answer { IfOk result (λ a. NetAnswer net.now fuel.most a.status a.text.items) }
    ensures closed { IfOk result (λ a. a.closed ≡ None) }
{
    net.is_net();
    match reduce_counted(rt, alloc, net, workers, fuel, gate)? {
        Counted::Spent { .. } => {
            let text = spent_line(alloc, fuel.most)?;
            Ok(Answer::text_alone(text, Status::Spent))
        }
        Counted::Done {
            net: last,
            counts,
            ..
        } => {
            last.is_net();
            last.is_tabled();
            let stuck = last.stuck();
            if last.nodes() > MOST_NODES {
                let text = count_line(alloc, "limit nodes", MOST_NODES)?;
                return Ok(Answer::text_alone(text, Status::Limit));
            }
            let text = net_lines(alloc, &last, counts, stuck)?;
            Ok(Answer::text_alone(text, Status::Done))
        }
    }
}

// The lines of a net that is left: the interactions of each rule, the number of stuck pairs, these
// pairs, and the net.
fn net_lines(alloc: Global, last: &Net, counts: Counts, stuck: u32) -> Result<Vec<u8>, NoMemory>
    requires few_nodes { length (net_of last.now).nodes ≤ most_nodes }
    requires few_ports { last.now.free ≤ 1000000 }
    ensures { IfOk result (λ text. AreLinesOf last.now counts stuck text.items) }
{
    let mut text = count_lines(alloc, counts, stuck)?;
    let pairs = stuck_text(alloc, last)?;
    append(&mut text, &pairs)?;
    let written = write_net(alloc, last)?;
    append(&mut text, &written)?;
    Ok(text)
}
