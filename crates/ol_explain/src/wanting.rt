//! Of a line that isn't one of a trace: the byte at which it breaks off, and what is wanted
//! there.

ghost use Rattle.std.specs.Prelude.{
  ◌≡◌,
  ◌≢◌,
  ℕ,
  ◌+◌,
  ◌<◌,
  ◌≤◌,
  ◌++◌,
  ◌∷◌,
  [],
  true,
  false,
  ◌↔◌,
  List,
  length,
  drop,
  take,
  count_by,
  codes,
  Some,
  None,
  IfOk,
  IfSome,
  IfNone,
  OnOk,
  ◌==◌,
  Option,
};
ghost use Rattle.std.specs.List.{slice_range};
ghost use Rattle.ol_rules.specs.Names.{comes_before};
ghost use Rattle.ol_view.specs.declared.forms.Form.{Form};
ghost use Rattle.ol_view.specs.declared.forms.Form.TheVariants.{Two};
ghost use Rattle.ol_view.specs.Checks.{HasNoLine};
ghost use Rattle.ol_view.specs.Forms.{header_of};
ghost use Rattle.ol_view.specs.LineReading.{is_digit};
ghost use Rattle.ol_view.specs.RuleNames.{rule_text};
ghost use Rattle.ol_view.specs.TraceTexts.{name_text, MayBeWritten};
ghost use Rattle.std.specs.Fmt.{decimal};
ghost use Rattle.ol_explain.specs.declared.wanting.Field.TheVariants as field;
ghost use Rattle.ol_explain.specs.Afters.{line_with};
ghost use Rattle.ol_explain.specs.Fields.{IsField, Begins, GoesOn, IsEnd, IsCut, AreAt, IsFault, IsBrokenBy, IsBadBy};
ghost use Rattle.ol_explain.specs.Wanted.{AreThose, IsLine, byte_words, choice_words, is_told, choices, end_at, greater_at, bytes_at, wanted_at};
ghost use Rattle.ol_limits.specs.Limits.{most_fuel};

use crate::naming::{put as put_words, put_long};
use ol_limits::{MOST_FUEL, NoMemory};
use ol_net::Rule;
use ol_rules::NodeName;
use ol_subjects::{Answer, End, put, put_number};
use ol_view::{Form, RULES, behind, name_at, number_at, put_name, rule_at, rule_word};
use std::alloc::Global;

/// A part of a line, before the byte that ends it.
#[derive(Clone, Copy)]
pub enum Field {
    /// The first line of a trace.
    Header,
    /// The name of a rule.
    Rule,
    /// A wave.
    Number,
    /// The name of a node.
    Name,
}

/// Why a line isn't one of the grammar.
#[derive(Clone, Copy)]
pub enum Fault {
    /// It breaks off in this field, which begins at `start`, and which this byte ends.
    Cut { field: Field, end: u8, start: usize },
    /// The second name, which begins at `start`, isn't greater than the first one.
    Unordered { first: NodeName, start: usize },
}

// Whether the word begins so.
fn word_begins(word: &str, read: &[u8]) -> bool
    ensures so { result ≡ true → (more : List ℕ) × (word.now ≡ read.now ++ more) }
    ensures not { result ≡ false → (more : List ℕ) → word.now ≢ read.now ++ more }
{
    word.as_bytes().starts_with(read)
}

// Whether the name of a rule begins so.
fn rule_begins(read: &[u8]) -> bool
    ensures so { result ≡ true → Begins field.Rule read.now }
    ensures not { result ≡ false → Begins field.Rule read.now → ⊥ }
{
    for rule in RULES {
        if word_begins(rule_word(rule), read) {
            return true;
        }
    }
    false
}

// Whether these bytes are a number.
fn is_number(read: &[u8]) -> bool
    ensures so { result ≡ true → IsField field.Number read.now }
    ensures not { result ≡ false → IsField field.Number read.now → ⊥ }
{
    match number_at(read, 0) {
        Some((_, to)) => to == read.len(),
        None => false,
    }
}

// Whether they are a name.
fn is_name(read: &[u8]) -> bool
    ensures so { result ≡ true → IsField field.Name read.now }
    ensures not { result ≡ false → IsField field.Name read.now → ⊥ }
{
    match name_at(read, 0) {
        Some((_, to)) => to == read.len(),
        None => false,
    }
}

// Whether they are the name of a rule.
fn is_rule(read: &[u8]) -> bool
    ensures so { result ≡ true → IsField field.Rule read.now }
    ensures not { result ≡ false → IsField field.Rule read.now → ⊥ }
{
    match rule_at(read, 0) {
        Some((_, to)) => to == read.len(),
        None => false,
    }
}

// Whether they are a first line.
fn is_header(read: &[u8]) -> bool
    ensures so { result ≡ true → IsField field.Header read.now }
    ensures not { result ≡ false → IsField field.Header read.now → ⊥ }
{
    if read.len() != 10 {
        return false;
    }
    header_begins(read)
}

// Whether they are a field of this kind.
fn is_field(field: Field, read: &[u8]) -> bool
    ensures so { result ≡ true → IsField field read.now }
    ensures not { result ≡ false → IsField field read.now → ⊥ }
{
    match field {
        Field::Header => is_header(read),
        Field::Rule => is_rule(read),
        Field::Number => is_number(read),
        Field::Name => is_name(read),
    }
}

// Whether a number begins so.
fn number_begins(read: &[u8]) -> bool
    ensures so { result ≡ true → Begins field.Number read.now }
    ensures not { result ≡ false → Begins field.Number read.now → ⊥ }
{
    read.is_empty() || is_number(read)
}

// Whether a name begins so: with a number, with one and a dot, or it is one.
fn name_begins(read: &[u8]) -> bool
    ensures so { result ≡ true → Begins field.Name read.now }
    ensures not { result ≡ false → Begins field.Name read.now → ⊥ }
{
    if read.is_empty() {
        return true;
    }
    let last = read.len() - 1;
    if read[last] == b'.' {
        return is_number(&read[..last]);
    }
    is_name(read)
}

// Whether a first line begins so.
fn header_begins(read: &[u8]) -> bool
    ensures so { result ≡ true → Begins field.Header read.now }
    ensures not { result ≡ false → Begins field.Header read.now → ⊥ }
{
    word_begins("ol trace 1", read) || word_begins("ol trace 2", read)
}

// Whether a field of this kind begins so.
fn field_begins(field: Field, read: &[u8]) -> bool
    ensures so { result ≡ true → Begins field read.now }
    ensures not { result ≡ false → Begins field read.now → ⊥ }
{
    match field {
        Field::Header => header_begins(read),
        Field::Rule => rule_begins(read),
        Field::Number => number_begins(read),
        Field::Name => name_begins(read),
    }
}

// How far what begins here is the beginning of a field.
fn beginning(field: Field, text: &[u8], start: usize) -> usize
    requires { start ≤ length text.now }
    ensures from { start ≤ result }
    ensures within { result ≤ length text.now }
    ensures begins { Begins field (slice_range text.now start result) }
    ensures ends { result < length text.now
        → Begins field (slice_range text.now start (result + 1)) → ⊥ }
{
    let mut to = start;
    while to < text.len() {
        if !field_begins(field, &text[start..to + 1]) {
            return to;
        }
        to += 1;
    }
    to
}

// Whether the byte is wanted behind the beginning of a field.
fn goes_on(alloc: Global, field: Field, end: u8, read: &[u8], byte: u8) -> Result<bool, NoMemory>
    ensures so { IfOk result (λ so. so ≡ true → GoesOn field end read.now byte) }
    ensures not { IfOk result (λ so. so ≡ false → GoesOn field end read.now byte → ⊥) }
{
    if byte == end && is_field(field, read) {
        return Ok(true);
    }
    let mut longer = Vec::from_slice(alloc, read)?;
    longer.push(byte)?;
    Ok(field_begins(field, &longer))
}

// Appends the byte if it is.
fn put_wanted(
    alloc: Global,
    bytes: &mut Vec<u8>,
    field: Field,
    end: u8,
    read: &[u8],
    byte: u8,
) -> Result<(), NoMemory>
    ensures { OnOk result (AreThose (GoesOn field end read.now) byte bytes.old.items
        → AreThose (GoesOn field end read.now) (byte + 1) bytes.new.items) }
{
    let so = goes_on(alloc, field, end, read, byte)?;
    if !so {
        return Ok(());
    }
    put(bytes, &[byte])?;
    Ok(())
}

// The bytes that are.
fn wanted(alloc: Global, field: Field, end: u8, read: &[u8]) -> Result<Vec<u8>, NoMemory>
    ensures { IfOk result (λ bytes. AreThose (GoesOn field end read.now) 256 bytes.items) }
{
    let mut bytes = Vec::new(alloc);
    for number in 0..256u16 {
        put_wanted(alloc, &mut bytes, field, end, read, number as u8)?;
    }
    Ok(bytes)
}

// The place behind the name of a rule and a space.
fn behind_rule(text: &[u8], at: usize) -> Option<(Rule, usize)>
    requires { at ≤ length text.now }
    ensures some { IfSome result (λ r.
        drop at text.now ≡ rule_text r.0 ++ 32 ∷ drop r.1 text.now) }
    ensures none { IfNone result ((u w : List ℕ) → IsField field.Rule u
        → drop at text.now ≢ u ++ 32 ∷ w) }
    ensures place { IfSome result (λ r. (at ≤ r.1) × (r.1 ≤ length text.now)) }
{
    let Some((rule, space)) = rule_at(text, at) else {
        return None;
    };
    let Some(to) = behind(text, space, b' ') else {
        return None;
    };
    Some((rule, to))
}

// The place behind a number and a space.
fn behind_number(text: &[u8], at: usize) -> Option<(u32, usize)>
    requires { at ≤ length text.now }
    ensures some { IfSome result (λ r. (r.0 ≤ 4294967295)
        × (drop at text.now ≡ decimal r.0 ++ 32 ∷ drop r.1 text.now)) }
    ensures none { IfNone result ((u w : List ℕ) → IsField field.Number u
        → drop at text.now ≢ u ++ 32 ∷ w) }
    ensures place { IfSome result (λ r. (at ≤ r.1) × (r.1 ≤ length text.now)) }
{
    let Some((number, space)) = number_at(text, at) else {
        return None;
    };
    let Some(to) = behind(text, space, b' ') else {
        return None;
    };
    Some((number, to))
}

// The place behind a name and the byte that ends it.
fn behind_name(text: &[u8], at: usize, end: u8) -> Option<(NodeName, usize)>
    requires at { at ≤ length text.now }
    requires end { IsEnd field.Name end }
    ensures some { IfSome result (λ r. MayBeWritten r.0
        × (drop at text.now ≡ name_text r.0 ++ end ∷ drop r.1 text.now)) }
    ensures none { IfNone result ((u w : List ℕ) → IsField field.Name u
        → drop at text.now ≢ u ++ end ∷ w) }
    ensures place { IfSome result (λ r. (at ≤ r.1) × (r.1 ≤ length text.now)) }
{
    let Some((name, space)) = name_at(text, at) else {
        return None;
    };
    let Some(to) = behind(text, space, end) else {
        return None;
    };
    Some((name, to))
}

// The fault of a line whose names begin at `start`: this first one, and the other behind it.
fn fault_of_second(text: &[u8], start: usize, first: NodeName, to: usize) -> Fault
    requires start { start ≤ length text.now }
    requires to { to ≤ length text.now }
    ensures { (form : Form) (at : ℕ) → AreAt form text.now at start → MayBeWritten first
        → drop start text.now ≡ name_text first ++ 32 ∷ drop to text.now
        → IsFault form text.now at result }
{
    match behind_name(text, to, b'\n') {
        Some(_) => Fault::Unordered { first, start: to },
        None => Fault::Cut {
            field: Field::Name,
            end: b'\n',
            start: to,
        },
    }
}

// The fault of a line whose names begin here.
fn fault_of_names(text: &[u8], start: usize) -> Fault
    requires { start ≤ length text.now }
    ensures { (form : Form) (at : ℕ) → AreAt form text.now at start
        → IsFault form text.now at result }
{
    let Some((first, to)) = behind_name(text, start, b' ') else {
        return Fault::Cut {
            field: Field::Name,
            end: b' ',
            start,
        };
    };
    fault_of_second(text, start, first, to)
}

// The fault of the line of the second form that begins here.
fn fault_of_two(text: &[u8], at: usize) -> Fault
    requires { at ≤ length text.now }
    ensures { IsFault Two text.now at result }
{
    let Some((_rule, wave)) = behind_rule(text, at) else {
        return Fault::Cut {
            field: Field::Rule,
            end: b' ',
            start: at,
        };
    };
    let Some((_number, names)) = behind_number(text, wave) else {
        return Fault::Cut {
            field: Field::Number,
            end: b' ',
            start: wave,
        };
    };
    fault_of_names(text, names)
}

// The fault of the line that begins here.
fn fault_of(form: Form, text: &[u8], at: usize) -> Fault
    requires { at ≤ length text.now }
    ensures { IsFault form text.now at result }
{
    match form {
        Form::One => fault_of_names(text, at),
        Form::Two => fault_of_two(text, at),
    }
}

// ---- the words

// Appends the words of a byte; ten digits have one word.
fn put_choice(text: &mut Vec<u8>, ten: bool, byte: u8) -> Result<(), NoMemory>
    ensures { OnOk result (text.new.items ≡ text.old.items ++ choice_words ten byte) }
{
    if ten && byte == b'0' {
        return put(text, b"a digit");
    }
    match byte {
        b'\n' => put(text, b"a line feed"),
        b' ' => put(text, b"a space"),
        b'.' => put(text, b"a dot"),
        _ => put(text, &[byte]),
    }
}

// Whether the byte has words of its own: of ten digits only the first has.
fn is_told(ten: bool, byte: u8) -> bool
    ensures { result ≡ is_told ten byte }
{
    !(ten && b'0' < byte && byte <= b'9')
}

// Appends the words of these bytes.
fn put_choices(text: &mut Vec<u8>, bytes: &[u8]) -> Result<(), NoMemory>
    ensures { OnOk result (text.new.items ≡ text.old.items
        ++ choices (count_by is_digit bytes.now == 10) (codes " ") bytes.now) }
{
    let ten = bytes.iter().filter(|byte| byte.is_ascii_digit()).count() == 10;
    let mut before: &[u8] = b" ";
    for byte in bytes {
        if is_told(ten, *byte) {
            put(text, before)?;
            put_choice(text, ten, *byte)?;
            before = b" or ";
        }
    }
    Ok(())
}

// The first line of an answer, and the beginning of the second.
fn begun(alloc: Global, line: u32, at: usize) -> Result<Vec<u8>, NoMemory>
    ensures { IfOk result (λ text. text.items ≡ line_with (codes "bad text at line ") line
        ++ codes "byte " ++ decimal at ++ codes ": wanted") }
{
    let mut text = Vec::new(alloc);
    put(&mut text, b"bad text at line ")?;
    put_number(alloc, &mut text, line as u64)?;
    put(&mut text, b"\n")?;
    put(&mut text, b"byte ")?;
    put_number(alloc, &mut text, at as u64)?;
    put(&mut text, b": wanted")?;
    Ok(text)
}

// The answer to a line that breaks off in this field.
fn cut(
    alloc: Global,
    text: &[u8],
    line: u32,
    field: Field,
    end: u8,
    start: usize,
) -> Result<Answer, NoMemory>
    requires { start ≤ length text.now }
    ensures text { IfOk result (λ a. (form : Option Form) (at : ℕ) →
        IsCut form text.now at field end start → IsBrokenBy form text.now at line a.text.items) }
    ensures end { IfOk result (λ a. a.end ≡ End.BadText) }
{
    let to = beginning(field, text, start);
    let bytes = wanted(alloc, field, end, &text[start..to])?;
    let mut text = begun(alloc, line, to)?;
    put_choices(&mut text, &bytes)?;
    put(&mut text, b"\n")?;
    let end = End::BadText;
    Ok(Answer { text, end })
}

// The answer to a line whose second name isn't greater than its first.
fn unordered(alloc: Global, line: u32, start: usize, first: NodeName) -> Result<Answer, NoMemory>
    ensures text { IfOk result (λ a. a.text.items
        ≡ line_with (codes "bad text at line ") line ++ greater_at start first ++ codes "\n") }
    ensures end { IfOk result (λ a. a.end ≡ End.BadText) }
{
    let mut words = String::new(alloc);
    put_words(&mut words, " a name greater than ")?;
    put_name(&mut words, first)?;
    let mut text = begun(alloc, line, start)?;
    put(&mut text, words.as_bytes())?;
    put(&mut text, b"\n")?;
    let end = End::BadText;
    Ok(Answer { text, end })
}

/// The answer to a text whose first line is none of a trace. `NoMemory`: no memory was found.
pub fn bad_header(alloc: Global, text: &[u8]) -> Result<Answer, NoMemory>
    requires none { (form : Form) (rest : List ℕ) → text.now ≢ header_of form ++ rest }
    ensures text { IfOk result (λ a. IsBrokenBy None text.now 0 1 a.text.items) }
    ensures end { IfOk result (λ a. a.end ≡ End.BadText) }
{
    let answer = cut(alloc, text, 1, Field::Header, b'\n', 0)?;
    Ok(answer)
}

/// The answer to a line of a trace, which begins here and is none of the grammar: the byte at which
/// it breaks off, and what is wanted there, or that the names are not in order. `NoMemory`: no
/// memory was found.
pub fn bad_line(
    alloc: Global,
    form: Form,
    text: &[u8],
    at: usize,
    line: u32,
) -> Result<Answer, NoMemory>
    requires at { at ≤ length text.now }
    requires none { HasNoLine form (drop at text.now) }
    ensures text { IfOk result (λ a. IsBadBy form text.now at line a.text.items) }
    ensures end { IfOk result (λ a. a.end ≡ End.BadText) }
{
    match fault_of(form, text, at) {
        Fault::Cut { field, end, start } => {
            let answer = cut(alloc, text, line, field, end, start)?;
            Ok(answer)
        }
        Fault::Unordered { first, start } => {
            let answer = unordered(alloc, line, start, first)?;
            Ok(answer)
        }
    }
}

/// The answer to a line, which begins here, behind as many as a trace may have. `NoMemory`: no
/// memory was found.
pub fn past_the_end(alloc: Global, at: usize) -> Result<Answer, NoMemory>
    ensures text { IfOk result (λ a. a.text.items
        ≡ line_with (codes "bad text at line ") (most_fuel + 2) ++ end_at at ++ codes "\n") }
    ensures end { IfOk result (λ a. a.end ≡ End.BadText) }
{
    let mut text = begun(alloc, MOST_FUEL + 2, at)?;
    put(&mut text, b" the end, after 8000000 entries")?;
    put(&mut text, b"\n")?;
    let end = End::BadText;
    Ok(Answer { text, end })
}
