//! The command `where` without a byte: where a text stops being a term, and what is wanted there.

ghost use Rattle.std.specs.Prelude.{◌≡◌, ◌≤◌, ◌++◌, ◌↔◌, length, codes, IfOk, OnOk, IsTrue};
ghost use Rattle.ol_limits.specs.Limits.{most_term_bytes};
ghost use Rattle.ol_parse.specs.Grammar.{Named};
ghost use Rattle.ol_parse.specs.Texts.{IsText, BeginsText, IsRefusedAt};
ghost use Rattle.ol_places.specs.Wanted.{is_term, is_whole, is_more, is_fresh, is_binder, is_cut, is_in_word, is_in_letter, piece, ending_words, going_words, wanted_line, GoesOn, AreWanted, IsStop, IsStopAt};

use crate::lets::let_line;
use crate::placing::{line_of, place_text};
use ol_limits::NoMemory;
use ol_parse::{ParseFault, parse};
use ol_subjects::{Answer, End, put};
use std::alloc::Global;

/// What may come next behind bytes that begin a text. Each token is tried on a line of its own.
#[derive(Clone, Copy)]
pub struct Wants {
    /// `)`
    pub close: bool,
    /// `in`
    pub in_key: bool,
    /// `.`
    pub dot: bool,
    /// `=`
    pub equals: bool,
    /// A name.
    pub name: bool,
    /// `(`
    pub bracket: bool,
    /// `\`
    pub lambda: bool,
    /// `let`
    pub let_key: bool,
    /// The end of the text.
    pub end: bool,
    /// A further byte of the word that the bytes end in.
    pub word: bool,
    /// The second byte of the letter λ.
    pub half: bool,
}

impl Wants {
    // Each token with which a term begins.
    fn is_term(&self) -> bool
        ensures { result ≡ is_term self.now }
    {
        self.name && self.bracket && self.lambda && self.let_key
    }

    // What may follow a whole term.
    fn is_whole(&self) -> bool
        ensures { result ≡ is_whole self.now }
    {
        self.close || self.in_key || self.end
    }

    // That a term goes on.
    fn is_more(&self) -> bool
        ensures { result ≡ is_more self.now }
    {
        self.is_term() && self.is_whole()
    }

    // A new term.
    fn is_fresh(&self) -> bool
        ensures { result ≡ is_fresh self.now }
    {
        self.is_term() && !self.is_whole()
    }

    // A name alone.
    fn is_binder(&self) -> bool
        ensures { result ≡ is_binder self.now }
    {
        self.name && !self.is_term()
    }

    // No token.
    fn is_cut(&self) -> bool
        ensures { result ≡ is_cut self.now }
    {
        !(self.name || self.equals)
    }

    // More of a keyword that can't stand there.
    fn is_in_word(&self) -> bool
        ensures { result ≡ is_in_word self.now }
    {
        self.is_cut() && self.word
    }

    // The rest of λ.
    fn is_in_letter(&self) -> bool
        ensures { result ≡ is_in_letter self.now }
    {
        self.is_cut() && self.half
    }
}

// The dead place of the bytes, unless they are a text.
fn dead_place(alloc: Global, bytes: &[u8]) -> Result<Option<usize>, NoMemory>
    requires short { length bytes.now ≤ 1073741824 }
    ensures { IfOk result (IsStopAt bytes.now) }
{
    match parse(alloc, bytes) {
        Ok(_) => Ok(None),
        Err(fault) => match fault {
            ParseFault::NoMemory => Err(NoMemory),
            ParseFault::Syntax { at } => Ok(Some(at)),
            ParseFault::Depth { .. } => Ok(None),
        },
    }
}

// Whether the bytes are a text.
fn is_text(alloc: Global, bytes: &[u8]) -> Result<bool, NoMemory>
    requires short { length bytes.now ≤ 1073741824 }
    ensures { IfOk result (λ yes. IsTrue yes ↔ ((t : Named) × IsText bytes.now t)) }
{
    match dead_place(alloc, bytes)? {
        None => Ok(true),
        Some(_) => Ok(false),
    }
}

// Whether the bytes begin a text.
fn begins(alloc: Global, bytes: &[u8]) -> Result<bool, NoMemory>
    requires short { length bytes.now ≤ 1073741824 }
    ensures { IfOk result (λ yes. IsTrue yes ↔ BeginsText bytes.now) }
{
    match dead_place(alloc, bytes)? {
        None => Ok(true),
        Some(at) => Ok(at == bytes.len()),
    }
}

// Whether some text goes on with these bytes.
pub fn goes_on(alloc: Global, front: &[u8], next: &[u8]) -> Result<bool, NoMemory>
    requires short { length front.now ≤ most_term_bytes }
    requires few { length next.now ≤ 8 }
    ensures { IfOk result (λ yes. IsTrue yes ↔ GoesOn front.now next.now) }
{
    let mut text = Vec::new(alloc);
    put(&mut text, front)?;
    put(&mut text, next)?;
    let yes = begins(alloc, &text)?;
    Ok(yes)
}

// What is wanted behind these bytes.
fn wanted_behind(alloc: Global, front: &[u8]) -> Result<Wants, NoMemory>
    requires short { length front.now ≤ most_term_bytes }
    ensures { IfOk result (AreWanted front.now) }
{
    let close = goes_on(alloc, front, b"\n)\n")?;
    let in_key = goes_on(alloc, front, b"\nin\n")?;
    let dot = goes_on(alloc, front, b"\n.\n")?;
    let equals = goes_on(alloc, front, b"\n=\n")?;
    let name = goes_on(alloc, front, b"\nx\n")?;
    let bracket = goes_on(alloc, front, b"\n(\n")?;
    let lambda = goes_on(alloc, front, b"\n\\\n")?;
    let let_key = goes_on(alloc, front, b"\nlet\n")?;
    let end = is_text(alloc, front)?;
    let word = goes_on(alloc, front, b"'")?;
    let half = goes_on(alloc, front, b"\xbb")?;
    Ok(Wants {
        close,
        in_key,
        dot,
        equals,
        name,
        bracket,
        lambda,
        let_key,
        end,
        word,
        half,
    })
}

// Appends some words if they are wanted.
fn put_if(text: &mut Vec<u8>, wanted: bool, words: &[u8]) -> Result<(), NoMemory>
    ensures { OnOk result (text.new.items ≡ text.old.items ++ piece wanted words.now) }
{
    if wanted {
        put(text, words)
    } else {
        put(text, b"")
    }
}

// What ends something, and `=`.
fn ending_words(alloc: Global, wants: &Wants) -> Result<Vec<u8>, NoMemory>
    ensures { IfOk result (λ text. text.items ≡ ending_words wants.now) }
{
    let mut text = Vec::new(alloc);
    put_if(&mut text, wants.close, b") or ")?;
    put_if(&mut text, wants.in_key, b"in or ")?;
    put_if(&mut text, wants.dot, b". or ")?;
    put_if(&mut text, wants.end, b"the end or ")?;
    put_if(&mut text, wants.equals, b"=")?;
    Ok(text)
}

// What goes on.
fn going_words(alloc: Global, wants: &Wants) -> Result<Vec<u8>, NoMemory>
    ensures { IfOk result (λ text. text.items ≡ going_words wants.now) }
{
    let longer = b"a longer word, since let and in are keywords";
    let mut text = Vec::new(alloc);
    put_if(&mut text, wants.is_more(), b"more")?;
    put_if(&mut text, wants.is_fresh(), b"a term")?;
    put_if(&mut text, wants.is_binder(), b"a name")?;
    put_if(&mut text, wants.is_in_word(), longer)?;
    put_if(
        &mut text,
        wants.is_in_letter(),
        b"the second byte of \xce\xbb",
    )?;
    Ok(text)
}

// The line that tells what is wanted.
fn wanted_line(alloc: Global, wants: &Wants) -> Result<Vec<u8>, NoMemory>
    ensures { IfOk result (λ text. text.items ≡ wanted_line wants.now) }
{
    let ending = ending_words(alloc, wants)?;
    let going = going_words(alloc, wants)?;
    let mut text = Vec::new(alloc);
    put(&mut text, b"wanted: ")?;
    put(&mut text, &ending)?;
    put(&mut text, &going)?;
    put(&mut text, b"\n")?;
    Ok(text)
}

// The answer where a text stops being a term at this place.
fn stop_at(alloc: Global, bytes: &[u8], at: usize) -> Result<Vec<u8>, NoMemory>
    requires short { length bytes.now ≤ most_term_bytes }
    requires dead { IsRefusedAt bytes.now at }
    ensures { IfOk result (λ text. IsStop bytes.now text.items End.No) }
{
    let (start, last) = line_of(bytes, at);
    let mut text = place_text(alloc, bytes, at, start, last)?;
    let wants = wanted_behind(alloc, &bytes[..at])?;
    let line = wanted_line(alloc, &wants)?;
    put(&mut text, &line)?;
    let told = let_line(alloc, bytes, at)?;
    put(&mut text, &told)?;
    Ok(text)
}

/// Where a text stops being a term: the line and the column of its dead place, which is the B of
/// `syntax at byte B`, the line itself with a caret below the place, and what is wanted there. If a
/// `let` has no `in` before the place, one line more tells the line and the column of the last such
/// `let`. That line comes only if some text goes on with a line feed at the place. So it doesn't
/// come if the place is within λ, or behind a keyword that can't stand there, as byte 7 of
/// `let let = a in b`. Any text in the grammar is a term, also one whose
/// term is too deep for `ol`. The file has at most 1,048,576 bytes.
///
/// - `Yes`: the text is a term, and the answer is `a term`.
/// - `No`: it isn't.
///
/// `NoMemory`: no memory was found.
pub fn stop(alloc: Global, bytes: &[u8]) -> Result<Answer, NoMemory>
    requires short { length bytes.now ≤ most_term_bytes }
    ensures { IfOk result (λ a. IsStop bytes.now a.text.items a.end) }
{
    match dead_place(alloc, bytes)? {
        None => {
            let mut text = Vec::new(alloc);
            put(&mut text, b"a term\n")?;
            let end = End::Yes;
            Ok(Answer { text, end })
        }
        Some(at) => {
            let text = stop_at(alloc, bytes, at)?;
            let end = End::No;
            Ok(Answer { text, end })
        }
    }
}
