//! What is seen of a text of the grammar, byte by byte.

ghost use Rattle.std.specs.Prelude.{◌≡◌, ◌+◌, ◌<◌, ◌≤◌, slice_index, length, IfOk};
ghost use Rattle.ol_parse.specs.Texts.{class_of, in_word, token_of};
ghost use Rattle.ol_steps.specs.Looks.{byte_look, gap_look, kind_of, last};
ghost use Rattle.ol_steps.specs.SeenTokens.{from_of, look_of, sight_of, token_in};

use crate::tokens::{Reading, Round, Token, take};
use ol_limits::NoMemory;
use std::alloc::Global;

/// What a byte is to the reader.
#[derive(Clone, Copy)]
pub enum Kind {
    Letter,
    Digit,
    Hash,
    Lead,
    Slash,
    Dot,
    Equals,
    Open,
    Close,
    Rest,
}

/// Where the reader is: between tokens, in a comment, in a word from a place on, or in the middle
/// of the letter λ.
#[derive(Clone, Copy)]
pub enum Place {
    Gap,
    Comment,
    Word(usize),
    Half,
}

#[tactic(auto, unfolding(ol_parse::specs::Texts::class_of))]
fn kind_of_byte(b: u8) -> Kind
    ensures { result ≡ kind_of (class_of b) }
{
    if (b >= b'a' && b <= b'z') || (b >= b'A' && b <= b'Z') || b == b'_' {
        Kind::Letter
    } else if (b >= b'0' && b <= b'9') || b == b'\'' {
        Kind::Digit
    } else if b == b' ' || b == b'\t' || b == b'\n' || b == b'\r' {
        Kind::Rest
    } else if b == b'#' {
        Kind::Hash
    } else if b == b'\\' {
        Kind::Slash
    } else if b == b'.' {
        Kind::Dot
    } else if b == b'=' {
        Kind::Equals
    } else if b == b'(' {
        Kind::Open
    } else if b == b')' {
        Kind::Close
    } else if b == 0xce {
        Kind::Lead
    } else {
        Kind::Rest
    }
}

#[tactic(auto, unfolding(ol_parse::specs::Texts::class_of))]
fn goes_on(b: u8) -> bool
    ensures { result ≡ in_word (class_of b) }
{
    matches!(kind_of_byte(b), Kind::Letter | Kind::Digit)
}

#[tactic(auto, unfolding(ol_parse::specs::Texts::token_of))]
fn token_of_word<'a>(bytes: &'a [u8]) -> Token<'a>
    ensures { token_in result ≡ token_of bytes.now }
{
    if bytes == b"let".as_slice() {
        Token::Let
    } else if bytes == b"in".as_slice() {
        Token::In
    } else {
        Token::Name(bytes)
    }
}

// A byte between two tokens.
fn look_in_gap<'a>(
    alloc: Global,
    text: &'a [u8],
    k: usize,
    reading: Reading,
    rounds: &mut Vec<Round<'a>>,
) -> Result<(Place, Reading), NoMemory>
    requires within { k < length text.now }
    ensures look { IfOk result (λ r. look_of text.now (k + 1) r.0 r.1 rounds.new.items
        ≡ gap_look (sight_of reading rounds.old.items) (slice_index text.now k)
        (kind_of (class_of (slice_index text.now k)))) }
    ensures begun { IfOk result (λ r. from_of r.0 ≤ k) }
{
    match kind_of_byte(text[k]) {
        Kind::Letter => Ok((Place::Word(k), reading)),
        Kind::Hash => Ok((Place::Comment, reading)),
        Kind::Digit => Ok((Place::Gap, reading)),
        Kind::Rest => Ok((Place::Gap, reading)),
        Kind::Lead => {
            let next = take(alloc, reading, Token::Lambda, rounds)?;
            Ok((Place::Half, next))
        }
        Kind::Slash => {
            let next = take(alloc, reading, Token::Lambda, rounds)?;
            Ok((Place::Gap, next))
        }
        Kind::Dot => {
            let next = take(alloc, reading, Token::Dot, rounds)?;
            Ok((Place::Gap, next))
        }
        Kind::Equals => {
            let next = take(alloc, reading, Token::Equals, rounds)?;
            Ok((Place::Gap, next))
        }
        Kind::Open => {
            let next = take(alloc, reading, Token::Open, rounds)?;
            Ok((Place::Gap, next))
        }
        Kind::Close => {
            let next = take(alloc, reading, Token::Close, rounds)?;
            Ok((Place::Gap, next))
        }
    }
}

/// Looks at byte `k` of a text. Where that comes to stand, and what is seen then.
pub fn look<'a>(
    alloc: Global,
    text: &'a [u8],
    k: usize,
    place: Place,
    reading: Reading,
    rounds: &mut Vec<Round<'a>>,
) -> Result<(Place, Reading), NoMemory>
    requires within { k < length text.now }
    requires begun { from_of place ≤ k }
    ensures look { IfOk result (λ r. look_of text.now (k + 1) r.0 r.1 rounds.new.items
        ≡ byte_look (look_of text.now k place reading rounds.old.items) (slice_index text.now k)) }
    ensures begun { IfOk result (λ r. from_of r.0 ≤ k) }
{
    match place {
        Place::Gap => {
            let next = look_in_gap(alloc, text, k, reading, rounds)?;
            Ok(next)
        }
        Place::Comment => {
            if text[k] == b'\n' {
                Ok((Place::Gap, reading))
            } else {
                Ok((Place::Comment, reading))
            }
        }
        Place::Half => Ok((Place::Gap, reading)),
        Place::Word(from) => {
            if goes_on(text[k]) {
                return Ok((Place::Word(from), reading));
            }
            let behind = take(alloc, reading, token_of_word(&text[from..k]), rounds)?;
            let next = look_in_gap(alloc, text, k, behind, rounds)?;
            Ok(next)
        }
    }
}

/// What is seen at the end of a text.
pub fn look_at_end<'a>(
    alloc: Global,
    text: &'a [u8],
    place: Place,
    reading: Reading,
    rounds: &mut Vec<Round<'a>>,
) -> Result<Reading, NoMemory>
    requires begun { from_of place ≤ length text.now }
    ensures { IfOk result (λ r. sight_of r rounds.new.items
        ≡ last (look_of text.now (length text.now) place reading rounds.old.items)) }
{
    match place {
        Place::Gap | Place::Comment | Place::Half => Ok(reading),
        Place::Word(from) => {
            let behind = take(
                alloc,
                reading,
                token_of_word(&text[from..text.len()]),
                rounds,
            )?;
            Ok(behind)
        }
    }
}
