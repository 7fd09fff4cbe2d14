//! The questions to a frame.

ghost use Rattle.std.specs.Prelude.{◌<◌, ◌++◌, map, IfOk};
ghost use Rattle.ol_net.specs.Numbered.{net_of};
ghost use Rattle.ol_context.specs.Contexts.{empty};
ghost use Rattle.ol_context.specs.Asked.{os};
ghost use Rattle.ol_context.specs.Shapes.{AreHeld, Extends, IsNumberOf};
ghost use Rattle.ol_context.specs.Shapes as shapes;
ghost use Rattle.ol_decoding.specs.AddedLines.{AddsQuestion};
ghost use Rattle.ol_decoding.specs.Trails.{AreLinesOf, AreQuestions};

use crate::trailing::{Ending, trail};
use crate::writing::put_context;
use ol_context::{Context, Val, Values};
use ol_limits::NoMemory;
use ol_net::{Net, Port};
use ol_readback::Frame;
use ol_subjects::{put, put_number, put_shown};
use std::alloc::Global;

// Appends the lines of the question for n abstractions, whose mark is n times `o` before `empty`.
fn put_question(
    alloc: Global,
    net: &Net,
    values: &mut Values,
    text: &mut Vec<u8>,
    frame: &Frame,
    n: u32,
    mark: Val,
    lines: u32,
) -> Result<(Ending, u32), NoMemory>
    requires port { frame.now.port < net.now.free }
    requires held { AreHeld values.old frame.now.levels }
    requires mark { IsNumberOf values.old mark (os n empty) }
    ensures question { IfOk result (λ r. AddsQuestion (net_of net.now) frame.now.port
        (map (shapes.value values.old) frame.now.levels) n lines text.old.items text.new.items
        r.0 r.1) }
    ensures extends { Extends values.old values.new }
{
    let mut levels = frame.levels.copied(alloc)?;
    levels.push(mark)?;
    let context = Context::of(levels);
    put(text, b"asked ")?;
    put_number(alloc, text, n as u64)?;
    put(text, b" ")?;
    put_shown(alloc, text, &Port::Free(frame.port))?;
    put(text, b" ")?;
    put_context(alloc, text, values, &context)?;
    put(text, b"\n")?;
    let ended = trail(alloc, net, values, text, frame.port, context, lines)?;
    Ok(ended)
}

// The value of n times `o` before `empty`.
fn mark_of(values: &mut Values, n: u32) -> Result<Val, NoMemory>
    ensures mark { IfOk result (λ v. IsNumberOf values.new v (os n empty)) }
    ensures extends { Extends values.old values.new }
{
    let mut mark = values.empty();
    for k in 0..n {
        mark = values.put_o(mark)?;
    }
    Ok(mark)
}

// The lines of the questions for 0 abstractions, for 1, and so on.
#[tactic(auto, using(ol_context::proofs::Shapes::held_more, crate::proofs::Chosen::questions_begin, crate::proofs::Chosen::questions_on, crate::proofs::Chosen::is_answered, crate::proofs::Chosen::is_lost))]
fn all_questions(
    alloc: Global,
    net: &Net,
    values: &mut Values,
    frame: &Frame,
    lines: u32,
) -> Result<Vec<u8>, NoMemory>
    requires port { frame.now.port < net.now.free }
    requires held { AreHeld values.old frame.now.levels }
    ensures lines { IfOk result (λ text. AreQuestions (net_of net.now) frame.now.port
        (map (shapes.value values.old) frame.now.levels) 0 lines text.items) }
    ensures extends { Extends values.old values.new }
{
    let mut text = Vec::new(alloc);
    let mut n: u32 = 0;
    let mut mark = values.empty();
    let mut left = lines;
    'questions: loop {
        let (ending, last) = put_question(alloc, net, values, &mut text, frame, n, mark, left)?;
        let Ending::Barred = ending else {
            return Ok(text);
        };
        if n >= net.nodes() {
            return Ok(text);
        }
        mark = values.put_o(mark)?;
        n += 1;
        left = last;
    }
}

/// The lines of the question that is chosen, or of all questions, to a frame at a port that the net
/// has, with levels of this holder. `NoMemory`: no memory was found. Earlier values stay.
pub fn questions(
    alloc: Global,
    net: &Net,
    values: &mut Values,
    frame: &Frame,
    question: Option<u32>,
    lines: u32,
) -> Result<Vec<u8>, NoMemory>
    requires port { frame.now.port < net.now.free }
    requires held { AreHeld values.old frame.now.levels }
    ensures lines { IfOk result (λ text. AreLinesOf (net_of net.now) frame.now.port
        (map (shapes.value values.old) frame.now.levels) question lines text.items) }
    ensures extends { Extends values.old values.new }
{
    match question {
        None => {
            let text = all_questions(alloc, net, values, frame, lines)?;
            Ok(text)
        }
        Some(n) => {
            let mut text = Vec::new(alloc);
            let mark = mark_of(values, n)?;
            put_question(alloc, net, values, &mut text, frame, n, mark, lines)?;
            Ok(text)
        }
    }
}
