//! The command `show`: a term's normal form, and what it encodes.

ghost use Rattle.std.specs.Prelude.{◌≡◌, ◌+◌, ◌≤◌, if◌then◌else◌, length, IfOk};
ghost use Rattle.ol_limits.specs.Limits.{most_nodes, most_term_bytes};
ghost use Rattle.ol_readback.specs.Texts.{AreNamed, IsTextOf};
ghost use Rattle.ol_beta.specs.TreeTerms.{IsTreeTooDeep};
ghost use Rattle.ol_decoding.specs.Shown.{fuel_line, deep_line, TellsTree, IsShown};
ghost use Rattle.ol_decoding.specs.NormalFormsOfNets.{deep_text, TellsDeep, TellsNet};

use crate::numerals::numeral;
use crate::telling::{Told, put_count, tell};
use ol_beta::{TreeFault, tree_term};
use ol_demand::{Demanded, demand};
use ol_limits::{Fuel, Heads, NoMemory};
use ol_net::Net;
use ol_readback::{ReadTree, tree_text};
use ol_subjects::{Answer, End, TermRead, put, put_number, read_term};
use ol_term::{Names, Translation};
use std::alloc::Global;

// The line where demand order goes on.
fn fuel_line(alloc: Global, fuel: u32) -> Result<Vec<u8>, NoMemory>
    ensures { IfOk result (λ text. text.items ≡ fuel_line fuel) }
{
    let mut text = Vec::new(alloc);
    put(&mut text, b"fuel ")?;
    put_number(alloc, &mut text, fuel as u64)?;
    put(&mut text, b"\n")?;
    Ok(text)
}

// The line where a term is too deep.
fn deep_line(alloc: Global, depth: u64) -> Result<Vec<u8>, NoMemory>
    ensures { IfOk result (λ text. text.items ≡ deep_line depth) }
{
    let mut text = Vec::new(alloc);
    put(&mut text, b"too deep to decode: depth ")?;
    put_number(alloc, &mut text, depth)?;
    put(&mut text, b"\n")?;
    Ok(text)
}

fn end_of(fits: bool) -> End
    ensures { result ≡ (if fits then End.Yes else End.No) }
{
    if fits { End::Yes } else { End::No }
}

// What is told of a term that is too deep to be built, if it is the Church numeral of this number,
// or of none.
fn deep_text(alloc: Global, depth: u64, number: Option<u32>) -> Result<Vec<u8>, NoMemory>
    ensures { IfOk result (λ text. text.items ≡ deep_text depth number) }
{
    match number {
        None => deep_line(alloc, depth),
        Some(_) => {
            let mut text = Vec::new(alloc);
            put_count(alloc, &mut text, b"", b"Church numeral ", number)?;
            Ok(text)
        }
    }
}

// What is told of a tree whose term is too deep to be built: a Church numeral is found without it.
fn told_of_deep(alloc: Global, tree: &ReadTree, depth: u64) -> Result<Told, NoMemory>
    ensures { IfOk result (λ r. TellsDeep tree.now depth r.text.items r.fits) }
{
    let number = numeral(tree);
    let text = deep_text(alloc, depth, number)?;
    let fits = number.is_some();
    Ok(Told { text, fits })
}

// The answer for a tree whose term is too deep, behind its printed text.
fn of_deep(
    alloc: Global,
    tree: &ReadTree,
    names: &Names,
    printed: Vec<u8>,
    depth: u64,
) -> Result<Answer, NoMemory>
    requires printed { IsTextOf names.now tree.now printed.items }
    requires deep { IsTreeTooDeep tree.now depth }
    ensures { IfOk result (λ a. TellsTree names.now tree.now a.text.items a.end) }
{
    let said = told_of_deep(alloc, tree, depth)?;
    let mut text = printed;
    put(&mut text, b"\n")?;
    put(&mut text, &said.text)?;
    let end = end_of(said.fits);
    Ok(Answer { text, end })
}

// The answer for a tree that was read.
fn of_tree(alloc: Global, tree: &ReadTree, names: &Names) -> Result<Answer, NoMemory>
    requires named { AreNamed (length names.now) tree.now }
    ensures { IfOk result (λ a. TellsTree names.now tree.now a.text.items a.end) }
{
    let mut text = tree_text(alloc, tree, names)?;
    match tree_term(alloc, tree) {
        Ok(term) => {
            let said = tell(alloc, &term)?;
            put(&mut text, b"\n")?;
            put(&mut text, &said.text)?;
            let end = end_of(said.fits);
            Ok(Answer { text, end })
        }
        Err(fault) => match fault {
            TreeFault::NotWhole { .. } => {
                put(&mut text, b"\nholes are left\n")?;
                let end = End::No;
                Ok(Answer { text, end })
            }
            TreeFault::Deep { depth } => {
                let answer = of_deep(alloc, tree, names, text, depth)?;
                Ok(answer)
            }
            TreeFault::NoMemory => Err(NoMemory),
        },
    }
}

// The answer for a net whose free ports behind the first have these names.
fn of_net(
    alloc: Global,
    net: Net,
    names: &Names,
    fuel: Fuel,
    heads: Heads,
) -> Result<Answer, NoMemory>
    requires few { length net.nodes ≤ most_nodes }
    requires ports { net.free ≡ 1 + length names.now }
    ensures { IfOk result (λ a. TellsNet net names.now fuel.most heads.most a.text.items a.end) }
{
    let mut last = net;
    let demanded = demand(alloc, &mut last, fuel.most, heads.most)?;
    match demanded {
        Demanded::Spent { .. } => {
            let text = fuel_line(alloc, fuel.most)?;
            let end = End::No;
            Ok(Answer { text, end })
        }
        Demanded::Done { tree, .. } => {
            let answer = of_tree(alloc, &tree, names)?;
            Ok(answer)
        }
    }
}

/// The normal form of a term, as `ol demand` prints it, and what it encodes. The net of its
/// translation is read in demand order, of which the first `heads` places are asked, and at most
/// `fuel` interactions are made. The file has at most 1,048,576 bytes.
///
/// - `Yes`: some value fits the normal form. A line for each that does, and what fits the parts of
///   a pair and the items of a list, each behind its number.
/// - `No`: none does, and the line is `no encoding fits`; the normal form is more than 1,000 deep
///   and no Church numeral; the printed term has `?` or `...` in some place; or demand order goes
///   on beyond the fuel, and nothing is printed but that.
/// - `Refused`: `ol` refuses the file, by this line.
///
/// Truth values are `\a b. a` and `\a b. b`, and the pair of a and b is `\f. f a b` (Barendregt,
/// The Lambda Calculus, 1984, section 6.2). Church numeral n is `\f x. f (.. (f x))` with n times
/// f, and a list is its fold, `\c n. c a (c b (.. n))` (Pierce, Types and Programming Languages,
/// 2002, section 5.2). Scott numeral 0 is `\z s. z`, and n + 1 is `\z s. s p`, where p is n
/// (Wadsworth, Some Unusual lambda-Calculus Numeral Systems, 1980). In an item or a part nothing is
/// bound from outside.
///
/// `NoMemory`: no memory was found.
pub fn show(
    alloc: Global,
    bytes: &[u8],
    translation: Translation,
    fuel: Fuel,
    heads: Heads,
) -> Result<Answer, NoMemory>
    requires short { length bytes.now ≤ most_term_bytes }
    ensures { IfOk result (λ a.
        IsShown bytes.now translation fuel.most heads.most a.text.items a.end) }
{
    match read_term(alloc, bytes, translation)? {
        TermRead::Refused(text) => {
            let end = End::Refused;
            Ok(Answer { text, end })
        }
        TermRead::Term { net, file } => {
            let answer = of_net(alloc, net, &file.names, fuel, heads)?;
            Ok(answer)
        }
    }
}
