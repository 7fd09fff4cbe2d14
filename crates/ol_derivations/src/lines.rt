//! The lines of a file, and what each has.

ghost use Rattle.std.specs.Prelude.{◌≡◌, ◌+◌, ◌++◌, map, codes, IfOk};
ghost use Rattle.std.specs.Fmt.{decimal};
ghost use Rattle.ol_term.specs.Trees.{tree_of};
ghost use Rattle.ol_derivations.specs.Lines.{lines_of, is_blank, is_left_out, all_left_out};
ghost use Rattle.ol_derivations.specs.Derivations.{IsRead};
ghost use Rattle.ol_derivations.specs.StepsFound.{IsLeft};

use ol_limits::{MOST_SIZE, MOST_TERM_BYTES, NoMemory};
use ol_parse::{ParseFault, parse};
use ol_subjects::{put, put_number};
use ol_term::{Term, TermFile};
use std::alloc::{AllocError, Global};

/// What a line has.
#[derive(Drop)]
pub enum Read {
    /// Nothing, or a comment.
    LeftOut,
    /// No term from which beta steps are made, and these words say why.
    NoTerm(Vec<u8>),
    /// A term from which beta steps are made.
    Term(TermFile),
}

/// The lines of some bytes: what stands between line feeds.
pub fn lines_of(alloc: Global, bytes: &[u8]) -> Result<Vec<&[u8]>, AllocError>
    ensures { IfOk result (λ lines. map (λ x. x.now) lines.items ≡ lines_of bytes.now) }
{
    bytes.split(|byte| *byte == b'\n').collect(alloc)
}

fn is_blank(byte: u8) -> bool
    ensures { result ≡ is_blank byte }
{
    byte == b' ' || byte == b'\t' || byte == b'\r'
}

// Whether a line is empty or a comment.
fn is_left_out(line: &[u8]) -> bool
    ensures { result ≡ is_left_out line.now }
{
    for byte in line {
        if !is_blank(*byte) {
            return *byte == b'#';
        }
    }
    true
}

/// Whether each line is left out.
pub fn all_left_out(lines: &[&[u8]]) -> bool
    ensures { result ≡ all_left_out (map (λ x. x.now) lines.now) }
{
    for k in 0..lines.len() {
        if !is_left_out(lines[k]) {
            return false;
        }
    }
    true
}

// How many constructors more than those of a term there may be. None comes exactly where the term
// has more than `most`. The call is as deep as the term.
#[tactic(auto, using(ol_beta::proofs::Searching::size_positive))]
fn left_of(term: &Term, most: u32) -> Option<u32>
    ensures { IsLeft most (tree_of term.now) result }
{
    if most == 0 {
        return None;
    }
    let inside = most - 1;
    match term {
        Term::Var(_) | Term::Free(_) => Some(inside),
        Term::Lam(body) => left_of(body, inside),
        Term::App(function, argument) => {
            let beside = left_of(function, inside)?;
            left_of(argument, beside)
        }
    }
}

/// A text of its own with these words.
pub fn words_of(alloc: Global, words: &[u8]) -> Result<Vec<u8>, NoMemory>
    ensures { IfOk result (λ text. text.items ≡ words.now) }
{
    let mut text = Vec::new(alloc);
    put(&mut text, words)?;
    Ok(text)
}

// The words of a line that isn't in the grammar from this byte on.
fn syntax_words(alloc: Global, at: u64) -> Result<Vec<u8>, NoMemory>
    ensures { IfOk result (λ text. text.items ≡ codes "syntax, column " ++ decimal at) }
{
    let mut text = Vec::new(alloc);
    put(&mut text, b"syntax, column ")?;
    put_number(alloc, &mut text, at)?;
    Ok(text)
}

/// What a line has. `LeftOut`: it is empty, or begins with `#`, also behind blanks. `NoTerm`: it has
/// more than 1,048,576 bytes, isn't in the grammar, or has a term that is deeper than 1,000 or larger
/// than 100,000. `NoMemory`: no memory was found.
pub fn read_line(alloc: Global, line: &[u8]) -> Result<Read, NoMemory>
    ensures { IfOk result (IsRead line.now) }
{
    if is_left_out(line) {
        return Ok(Read::LeftOut);
    }
    if line.len() > MOST_TERM_BYTES as usize {
        let words = words_of(alloc, b"limit bytes 1048576")?;
        return Ok(Read::NoTerm(words));
    }
    match parse(alloc, line) {
        Ok(file) => {
            if left_of(&file.term, MOST_SIZE).is_some() {
                Ok(Read::Term(file))
            } else {
                let words = words_of(alloc, b"limit size 100000")?;
                Ok(Read::NoTerm(words))
            }
        }
        Err(fault) => match fault {
            ParseFault::NoMemory => Err(NoMemory),
            ParseFault::Syntax { at } => {
                let words = syntax_words(alloc, at as u64 + 1)?;
                Ok(Read::NoTerm(words))
            }
            ParseFault::Depth { .. } => {
                let words = words_of(alloc, b"limit depth 1000")?;
                Ok(Read::NoTerm(words))
            }
        },
    }
}
