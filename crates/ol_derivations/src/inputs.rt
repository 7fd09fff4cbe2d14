//! The inputs of a file, one a line.

ghost use Rattle.std.specs.Prelude.{IfOk};
ghost use Rattle.ol_derivations.specs.Lines.{lines_of};
ghost use Rattle.ol_derivations.specs.StudentsSoFar.{IsInputs};

use crate::applying::{Input, further_of};
use crate::lines::{Read, lines_of, read_line};
use crate::telling::line_text;
use ol_limits::NoMemory;
use std::alloc::Global;

/// What comes of a file with inputs.
#[derive(Drop)]
pub enum Inputs<'a> {
    /// The lines with terms, in their order.
    Lines(Vec<Input<'a>>),
    /// The line of text that says which line is none, and why.
    Fault(Vec<u8>),
}

/// The inputs of a file: its lines but the empty ones and comments. Each is a text of the grammar
/// within the limits of a term from which beta steps are made. `NoMemory`: no memory was found.
pub fn inputs_of<'a>(alloc: Global, bytes: &'a [u8]) -> Result<Inputs<'a>, NoMemory>
    ensures { IfOk result (IsInputs (lines_of bytes.now)) }
{
    let lines = lines_of(alloc, bytes)?;
    let mut kept: Vec<Input<'a>> = Vec::new(alloc);
    for k in 0..lines.len() {
        let line = lines[k];
        match read_line(alloc, line)? {
            Read::LeftOut => {}
            Read::Term(file) => {
                let further = further_of(alloc, line)?;
                kept.push(Input {
                    text: line,
                    file,
                    further,
                })?;
            }
            Read::NoTerm(words) => {
                let text = line_text(alloc, k + 1, &words)?;
                return Ok(Inputs::Fault(text));
            }
        }
    }
    Ok(Inputs::Lines(kept))
}
