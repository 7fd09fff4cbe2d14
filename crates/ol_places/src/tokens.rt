//! Gaps, and the first token of some bytes.

ghost use Rattle.std.specs.Prelude.{◌≡◌, ℕ, ◌+◌, ◌<◌, ◌≤◌, ◌++◌, Bool, List, false, length, IfSome};
ghost use Rattle.ol_parse.specs.Grammar.{Token};
ghost use Rattle.ol_parse.specs.Texts.{class_of, in_word, is_word, token_of, IsToken, Spells};
ghost use Rattle.ol_places.specs.Tokens.{kind_token, IsFirstToken};
ghost use Rattle.ol_places.specs.Gaps.{seen, goes_on, comment_after, gap_length, word_length};

// The two bytes of the letter λ, of which this is the first.
const FIRST_OF_LAMBDA: u8 = 0xce;

/// A token that is no word.
#[derive(Clone, Copy)]
pub enum Sign {
    Lambda,
    Dot,
    Equals,
    Open,
    Close,
}

/// What a byte is.
#[derive(Clone, Copy)]
pub enum Class {
    Blank,
    Hash,
    Letter,
    Digit,
    Sign(Sign),
    Lead,
    Other,
}

/// What a token is.
#[derive(Clone, Copy)]
pub enum Kind {
    Name,
    Let,
    In,
    Sign(Sign),
}

#[tactic(auto, unfolding(ol_parse::specs::Texts::class_of))]
fn class_of(b: u8) -> Class
    ensures { seen result ≡ class_of b }
{
    match b {
        b'a'..=b'z' | b'A'..=b'Z' | b'_' => Class::Letter,
        b'0'..=b'9' | b'\'' => Class::Digit,
        b' ' | b'\t' | b'\n' | b'\r' => Class::Blank,
        b'#' => Class::Hash,
        b'\\' => Class::Sign(Sign::Lambda),
        b'.' => Class::Sign(Sign::Dot),
        b'=' => Class::Sign(Sign::Equals),
        b'(' => Class::Sign(Sign::Open),
        b')' => Class::Sign(Sign::Close),
        FIRST_OF_LAMBDA => Class::Lead,
        _ => Class::Other,
    }
}

// Whether a gap goes on with a byte, within a comment or not.
fn goes_on(comment: bool, b: u8) -> bool
    ensures { result ≡ goes_on comment b (class_of b) }
{
    comment || matches!(class_of(b), Class::Blank | Class::Hash)
}

// Whether one is in a comment behind a byte of a gap.
fn comment_after(comment: bool, b: u8) -> bool
    ensures { result ≡ comment_after comment b (class_of b) }
{
    if comment {
        b != b'\n'
    } else {
        matches!(class_of(b), Class::Hash)
    }
}

// How many bytes of a gap come first.
fn gap_length(rest: &[u8]) -> usize
    ensures length { result ≡ gap_length false rest.now }
    ensures within { result ≤ length rest.now }
{
    let mut comment = false;
    for at in 0..rest.len() {
        if !goes_on(comment, rest[at]) {
            return at;
        }
        comment = comment_after(comment, rest[at]);
    }
    rest.len()
}

fn is_in_word(b: u8) -> bool
    ensures { result ≡ in_word (class_of b) }
{
    matches!(class_of(b), Class::Letter | Class::Digit)
}

// How many bytes of a word come first.
fn word_length(rest: &[u8]) -> usize
    ensures length { result ≡ word_length rest.now }
    ensures within { result ≤ length rest.now }
{
    for at in 0..rest.len() {
        if !is_in_word(rest[at]) {
            return at;
        }
    }
    rest.len()
}

// How many bytes the token has that comes first.
fn token_length(rest: &[u8]) -> usize
    requires some { 0 < length rest.now }
    ensures within { result ≤ length rest.now }
    ensures some { 0 < result }
    ensures exact { (k : Token) (ks : List Token) (a bs : List ℕ) → rest.now ≡ a ++ bs →
        IsToken k a → Spells (is_word k) ks bs → result ≡ length a }
{
    match class_of(rest[0]) {
        Class::Letter => word_length(rest),
        Class::Lead => { if rest.len() < 2 { 1 } else { 2 } }
        _ => 1,
    }
}

#[tactic(auto, unfolding(ol_parse::specs::Texts::token_of))]
fn kind_of_word(word: &[u8]) -> Kind
    ensures { kind_token result word.now ≡ token_of word.now }
{
    if word == b"let".as_slice() {
        Kind::Let
    } else if word == b"in".as_slice() {
        Kind::In
    } else {
        Kind::Name
    }
}

// What a token is.
fn kind_of(token: &[u8]) -> Kind
    requires some { 0 < length token.now }
    ensures { (k : Token) → IsToken k token.now → kind_token result token.now ≡ k }
{
    match class_of(token[0]) {
        Class::Sign(sign) => Kind::Sign(sign),
        Class::Lead => Kind::Sign(Sign::Lambda),
        Class::Letter => kind_of_word(token),
        Class::Blank => Kind::Name,
        Class::Hash => Kind::Name,
        Class::Digit => Kind::Name,
        Class::Other => Kind::Name,
    }
}

/// The first token of some bytes.
#[derive(Clone, Copy)]
pub struct FirstToken {
    /// How many bytes the gap before it has.
    pub gap: usize,
    /// How many bytes it has.
    pub length: usize,
    /// What it is.
    pub kind: Kind,
}

/// The first token of bytes that can be read as tokens. `None`: they are a gap alone. Of other
/// bytes it says nothing but that the token is one of them, and has a byte.
pub fn first_token(rest: &[u8]) -> Option<FirstToken>
    ensures first { (after : Bool) (tokens : List Token) (spelled : Spells after tokens rest.now) →
        IsFirstToken result spelled }
    ensures within { IfSome result (λ f. f.gap + f.length ≤ length rest.now) }
    ensures some { IfSome result (λ f. 0 < f.length) }
{
    let gap = gap_length(rest);
    let (_, behind) = rest.split_at(gap);
    if behind.is_empty() {
        return None;
    }
    let length = token_length(behind);
    let (token, _) = behind.split_at(length);
    let kind = kind_of(token);
    Some(FirstToken { gap, length, kind })
}
