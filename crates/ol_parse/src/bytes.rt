//! The scanner over bytes.

ghost use Rattle.std.specs.Prelude.{◌≡◌, true, option_map, ◌<◌, ◌≤◌, IfOk, IfErr, IfSome, length};
ghost use Rattle.std.specs.Str.{bytes_eq};
ghost use Rattle.ol_parse.specs.Texts.{class_of, in_word, token_of};
ghost use Rattle.ol_parse.specs.Flat.{Takes};
ghost use Rattle.ol_parse.specs.FlatBytes.{seen, key_of, from_of, TakesInGap, TakesByte, GoesOn, Ends, EndsText, BuildsText, IsRefused};

use crate::faults::ParseFault;
use crate::flat::{Mode, Op, Open};
use crate::tokens::{
    finish, take_close, take_dot, take_equals, take_in, take_lambda, take_let, take_name, take_open,
};
use std::alloc::{AllocError, Global};

// The two bytes of the letter λ.
const FIRST_OF_LAMBDA: u8 = 0xce;

const SECOND_OF_LAMBDA: u8 = 0xbb;

/// The class of a byte.
#[derive(Clone, Copy)]
pub enum Class {
    Blank,
    Hash,
    Letter,
    Digit,
    Slash,
    Dot,
    Equals,
    OpenBracket,
    CloseBracket,
    Lead,
    Other,
}

/// The state of the scanner: between tokens, in a comment, in a word that begins at a position, or
/// between the two bytes of the letter λ.
#[derive(Clone, Copy)]
pub enum Place {
    Gap,
    Comment,
    Word(usize),
    Half,
}

/// The class of a word.
#[derive(Clone, Copy)]
pub enum Key {
    Let,
    In,
    Name,
}

#[tactic(auto, unfolding(crate::specs::Texts::class_of))]
fn class_of_byte(b: u8) -> Class
    ensures { seen result ≡ class_of b }
{
    if (b >= b'a' && b <= b'z') || (b >= b'A' && b <= b'Z') || b == b'_' {
        Class::Letter
    } else if (b >= b'0' && b <= b'9') || b == b'\'' {
        Class::Digit
    } else if b == b' ' || b == b'\t' || b == b'\n' || b == b'\r' {
        Class::Blank
    } else if b == b'#' {
        Class::Hash
    } else if b == b'\\' {
        Class::Slash
    } else if b == b'.' {
        Class::Dot
    } else if b == b'=' {
        Class::Equals
    } else if b == b'(' {
        Class::OpenBracket
    } else if b == b')' {
        Class::CloseBracket
    } else if b == FIRST_OF_LAMBDA {
        Class::Lead
    } else {
        Class::Other
    }
}

/// Whether two words have the same bytes.
pub fn is_same(word: &[u8], other: &[u8]) -> bool
    ensures { result ≡ bytes_eq word.now other.now }
{
    word == other
}

#[tactic(auto, unfolding(crate::specs::Texts::token_of))]
fn key_of_word(word: &[u8]) -> Key
    ensures { key_of result word.now ≡ token_of word.now }
{
    if is_same(word, b"let") {
        Key::Let
    } else if is_same(word, b"in") {
        Key::In
    } else {
        Key::Name
    }
}

fn take_word<'a>(
    word: &'a [u8],
    mode: Mode,
    opens: &mut Vec<Open<'a>>,
    out: &mut Vec<Op<'a>>,
) -> Result<Option<Mode>, AllocError>
    ensures { IfOk result (λ next. Takes (token_of word.now)
        mode opens.old.items out.old.items next opens.new.items out.new.items) }
{
    match key_of_word(word) {
        Key::Let => take_let(mode, opens, out),
        Key::In => take_in(mode, opens, out),
        Key::Name => take_name(word, mode, opens, out),
    }
}

fn is_in_word(b: u8) -> bool
    ensures { result ≡ in_word (class_of b) }
{
    match class_of_byte(b) {
        Class::Letter | Class::Digit => true,
        _ => false,
    }
}

fn at_place(place: Place, next: Option<Mode>) -> Option<(Place, Mode)>
    ensures { result ≡ option_map (λ m. (place, m)) next }
{
    match next {
        Some(mode) => Some((place, mode)),
        None => None,
    }
}

fn take_in_gap<'a>(
    text: &'a [u8],
    at: usize,
    mode: Mode,
    opens: &mut Vec<Open<'a>>,
    out: &mut Vec<Op<'a>>,
) -> Result<Option<(Place, Mode)>, AllocError>
    requires { at < length text.now }
    ensures stands { IfOk result (λ next. TakesInGap text.now at
        mode opens.old.items out.old.items next opens.new.items out.new.items) }
    ensures begun { IfOk result (λ next. IfSome next (λ n. from_of n.0 ≤ at)) }
{
    match class_of_byte(text[at]) {
        Class::Blank => Ok(Some((Place::Gap, mode))),
        Class::Hash => Ok(Some((Place::Comment, mode))),
        Class::Letter => match mode {
            Mode::LetEquals => Ok(None),
            _ => Ok(Some((Place::Word(at), mode))),
        },
        Class::Slash => Ok(at_place(Place::Gap, take_lambda(mode, opens, out)?)),
        Class::Dot => Ok(at_place(Place::Gap, take_dot(mode, opens, out))),
        Class::Equals => Ok(at_place(Place::Gap, take_equals(mode, opens, out))),
        Class::OpenBracket => Ok(at_place(Place::Gap, take_open(mode, opens, out)?)),
        Class::CloseBracket => Ok(at_place(Place::Gap, take_close(mode, opens, out)?)),
        Class::Lead => Ok(at_place(Place::Half, take_lambda(mode, opens, out)?)),
        Class::Digit | Class::Other => Ok(None),
    }
}

fn take_byte<'a>(
    text: &'a [u8],
    at: usize,
    place: Place,
    mode: Mode,
    opens: &mut Vec<Open<'a>>,
    out: &mut Vec<Op<'a>>,
) -> Result<Option<(Place, Mode)>, AllocError>
    requires within { at < length text.now }
    requires begun { from_of place ≤ at }
    ensures stands { IfOk result (λ next. TakesByte text.now at
        place mode opens.old.items out.old.items next opens.new.items out.new.items) }
    ensures begun { IfOk result (λ next. IfSome next (λ n. from_of n.0 ≤ at)) }
{
    match place {
        Place::Gap => take_in_gap(text, at, mode, opens, out),
        Place::Comment => {
            if text[at] == b'\n' {
                Ok(Some((Place::Gap, mode)))
            } else {
                Ok(Some((Place::Comment, mode)))
            }
        }
        Place::Half => {
            if text[at] == SECOND_OF_LAMBDA {
                Ok(Some((Place::Gap, mode)))
            } else {
                Ok(None)
            }
        }
        Place::Word(from) => {
            if is_in_word(text[at]) {
                return Ok(Some((Place::Word(from), mode)));
            }
            match take_word(&text[from..at], mode, opens, out)? {
                Some(next) => take_in_gap(text, at, next, opens, out),
                None => Ok(None),
            }
        }
    }
}

// Whether the byte at this place goes on a word, a gap or a comment, so that all stays as it is.
fn goes_on(text: &[u8], at: usize, place: Place) -> bool
    requires within { at < length text.now }
    requires begun { from_of place ≤ at }
    ensures { result ≡ true → GoesOn text.now at place }
{
    match place {
        Place::Gap => matches!(class_of_byte(text[at]), Class::Blank),
        Place::Word(_) => is_in_word(text[at]),
        Place::Comment => text[at] != b'\n',
        Place::Half => false,
    }
}

/// Ends the text behind a token.
fn take_end<'a>(
    mode: Mode,
    opens: &mut Vec<Open<'a>>,
    out: &mut Vec<Op<'a>>,
) -> Result<bool, AllocError>
    ensures { IfOk result (λ yes.
        Ends mode opens.old.items out.old.items yes out.new.items) }
{
    match mode {
        Mode::Term(true) => match finish(opens, out)? {
            None => Ok(true),
            Some(_) => Ok(false),
        },
        _ => Ok(false),
    }
}

/// Ends the text at this place.
fn take_text_end<'a>(
    text: &'a [u8],
    place: Place,
    mode: Mode,
    opens: &mut Vec<Open<'a>>,
    out: &mut Vec<Op<'a>>,
) -> Result<bool, AllocError>
    requires { from_of place ≤ length text.now }
    ensures { IfOk result (λ yes. EndsText text.now
        place mode opens.old.items out.old.items yes out.new.items) }
{
    match place {
        Place::Gap | Place::Comment => take_end(mode, opens, out),
        Place::Half => Ok(false),
        Place::Word(from) => match take_word(&text[from..text.len()], mode, opens, out)? {
            Some(next) => Ok(take_end(next, opens, out)?),
            None => Ok(false),
        },
    }
}

/// Scans and parses a term, and returns the operations that build it.
pub fn read<'a>(alloc: Global, text: &'a [u8]) -> Result<Vec<Op<'a>>, ParseFault>
    ensures found { IfOk result (λ out. BuildsText text.now out.items) }
    ensures refused { IfErr result (λ e. IsRefused text.now e) }
{
    let mut opens = Vec::new(alloc);
    let mut out = Vec::new(alloc);
    let mut place = Place::Gap;
    let mut mode = Mode::Term(false);
    for at in 0..text.len() {
        if goes_on(text, at, place) {
            continue;
        }
        match take_byte(text, at, place, mode, &mut opens, &mut out)? {
            Some((next, then)) => {
                place = next;
                mode = then;
            }
            None => return Err(ParseFault::Syntax { at }),
        }
    }
    if !take_text_end(text, place, mode, &mut opens, &mut out)? {
        return Err(ParseFault::Syntax { at: text.len() });
    }
    Ok(out)
}
