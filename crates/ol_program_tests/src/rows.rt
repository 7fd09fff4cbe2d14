//! Rows of questions, each with its answer.

use crate::leaving::left;
use crate::level_texts::walked;
use crate::strategies::nexts;
use crate::trees::printed;
use ol_term::Translation;
use std::alloc::Global;
use std::process::Abort;
use std::test::Fail;

/// What the rows of a table ask.
#[derive(Clone, Copy)]
pub enum Question {
    Walk(Translation),
    Tree,
    Exit,
    Next,
}

/// What stands before the answer of a row: two numbers, signs of levels, and a text. A question
/// doesn't read what it has no use for.
#[derive(Clone, Copy)]
pub struct Asked<'a> {
    pub first: u32,
    pub second: u32,
    pub signs: &'a str,
    pub text: &'a str,
}

/// The number before the first space, and what stands behind it. Of another word it is 0.
fn number(text: &str) -> (u32, &str) {
    let (word, rest) = text.split_once(" ").unwrap_or((text, ""));
    (word.parse::<u32>().unwrap_or(0), rest)
}

/// The parts of a row before its answer.
fn parts_of(text: &str) -> Asked<'_> {
    let (first, rest) = number(text);
    let (second, rest) = number(rest);
    let (signs, text) = rest.split_once(" ").unwrap_or((rest, ""));
    Asked {
        first,
        second,
        signs,
        text,
    }
}

fn answer(alloc: Global, question: Question, text: &str) -> Result<String, Fail> {
    let asked = parts_of(text);
    match question {
        Question::Walk(translation) => walked(alloc, translation, asked),
        Question::Tree => printed(alloc, asked),
        Question::Exit => left(alloc, asked),
        Question::Next => nexts(alloc, asked),
    }
}

/// Asserts the answers of a table: on each line what is asked, ` => ` and the answer.
pub fn assert_rows(
    rt: &impl Abort,
    alloc: Global,
    question: Question,
    table: &[u8],
) -> Result<(), Fail> {
    let table = str::from_utf8(table).unwrap_or("no text");
    for row in table.split('\n') {
        let (text, wanted) = row.split_once(" => ").unwrap_or((row, ""));
        let answer = answer(alloc, question, text)?;
        assert!(rt; answer.as_str() == wanted, "{text} => {answer}");
    }
    Ok(())
}
