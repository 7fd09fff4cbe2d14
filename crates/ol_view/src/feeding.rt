//! Traces checked piece by piece.

ghost use Rattle.std.specs.Prelude.{◌≡◌, ◌≢◌, ℕ, ◌++◌, ◌≤◌, List, [], ◌∷◌, length, drop, true, false, None, Some, IfOk, IfSome, IfNone, IsSomeAnd};
ghost use Rattle.ol_net.specs.Graph.{Graph};
ghost use Rattle.ol_limits.specs.Limits.{most_fuel};
ghost use Rattle.ol_view.specs.declared.forms.Form.{Form};
ghost use Rattle.ol_view.specs.declared.forms.Form.TheVariants.{One};
ghost use Rattle.ol_view.specs.Forms.{header_of};
ghost use Rattle.ol_view.specs.LineReading.{TellsOf};
ghost use Rattle.ol_view.specs.Checks.{start_net_of_graph, OnlyIsFound};
ghost use Rattle.ol_view.specs.Feeding.{IsReplayedTo, IsFed, IsAnswered, IsWholeLine, bad_at};

use crate::answers::Check;
use crate::forms::Form;
use crate::line_reading::Line;
use crate::standing::line_at;
use crate::tracing::HEADER;
use crate::wave_tracing::WAVE_HEADER;
use ol_diamond::{Rewritten, Weighing};
use ol_limits::{MOST_FUEL, NoMemory};
use ol_net::Net;
use std::alloc::Global;

// The most bytes of a line, its line feed aside.
const MOST_OF_LINE: usize = 52;

/// The format of a trace's text, by its first line. `None`: the first line isn't `ol trace 1` or
/// `ol trace 2`, or has no line feed.
pub fn form_of(text: &[u8]) -> Option<Form>
    ensures form { IfSome result (λ form.
        text.now ≡ header_of form ++ drop (length (header_of One)) text.now) }
    ensures none { IfNone result
        ((form : Form) (rest : List ℕ) → text.now ≢ header_of form ++ rest) }
{
    if text.starts_with(HEADER.as_bytes()) {
        return Some(Form::One);
    }
    if text.starts_with(WAVE_HEADER.as_bytes()) {
        return Some(Form::Two);
    }
    None
}

/// Whether the line describes the interaction: the pair was active and, in format 2, the line has
/// its rule and its wave.
pub fn is_so(line: Line, made: Option<Rewritten>) -> bool
    ensures so { result ≡ true → IsSomeAnd made (λ of. TellsOf line.told of.rule of.wave) }
    ensures not { result ≡ false → IfSome made (λ of. TellsOf line.told of.rule of.wave → ⊥) }
{
    let Some(made) = made else {
        return false;
    };
    match line.told {
        Some((rule, wave)) => rule == made.rule && wave == made.wave,
        None => true,
    }
}

/// The check of a trace whose text is fed in pieces. Of the text it keeps only the unfinished last
/// line, at most 53 bytes.
#[derive(Drop)]
pub struct Checker {
    // The form, once the first line has come.
    form: Option<Form>,
    // What the lines so far led to.
    replay: Weighing,
    // How many entries these are.
    entries: u32,
    // The line that isn't ended.
    line: Vec<u8>,
}

impl Checker {
    /// A checker before the first piece. The net has given at most 1,000,000 node numbers. It is
    /// unchanged. `NoMemory`: no memory was found.
    pub fn new(alloc: Global, net: &Net) -> Result<Checker, NoMemory>
        requires few { length net.now.nodes ≤ 1000000 }
        ensures fed { IfOk result (IsFed net.now []) }
    {
        net.is_net();
        let replay = Weighing::new(alloc, net)?;
        Ok(Checker {
            form: None,
            replay,
            entries: 0,
            line: Vec::new(alloc),
        })
    }

    // What is found where the line that isn't ended is none of the grammar.
    fn bad(&self) -> Check
        requires most { self.now.entries ≤ most_fuel }
        ensures { result ≡ bad_at self.now.form self.now.entries }
    {
        match self.form {
            None => Check::BadText { line: 1 },
            Some(_) => Check::BadText {
                line: self.entries + 2,
            },
        }
    }

    // The first line has come.
    fn read_first(&mut self) -> Option<Check>
        requires form { self.old.form ≡ None }
        requires whole { IsWholeLine self.old.line.items }
        ensures { (net : Graph) (text : List ℕ) → IsReplayedTo net text self.old
            → IsAnswered net text result self.new }
    {
        let Some(form) = form_of(&self.line) else {
            return Some(Check::BadText { line: 1 });
        };
        self.form = Some(form);
        self.line.clear();
        None
    }

    // The line of an entry has come.
    fn read_entry(&mut self, form: Form) -> Result<Option<Check>, NoMemory>
        requires form { self.old.form ≡ Some form }
        requires whole { IsWholeLine self.old.line.items }
        requires read { (net : Graph) × (text : List ℕ) × IsReplayedTo net text self.old }
        ensures { (net : Graph) (text : List ℕ) → IsReplayedTo net text self.old
            → IfOk result (λ found. IsAnswered net text found self.new) }
    {
        let number = self.entries + 2;
        if self.entries == MOST_FUEL {
            return Ok(Some(Check::BadText { line: number }));
        }
        let Some(line) = line_at(form, &self.line, 0) else {
            return Ok(Some(Check::BadText { line: number }));
        };
        let made = self.replay.rewrite(line.first, line.second)?;
        if !is_so(line, made) {
            return Ok(Some(Check::NotARun { line: number }));
        }
        self.entries += 1;
        self.line.clear();
        Ok(None)
    }

    // One byte more.
    fn take(&mut self, byte: u8) -> Result<Option<Check>, NoMemory>
        requires fed { (net : Graph) × (text : List ℕ) × IsFed net text self.old }
        ensures { (net : Graph) (text : List ℕ) → IsFed net text self.old
            → IfOk result (λ found. IsAnswered net (text ++ byte ∷ []) found self.new) }
    {
        self.line.push(byte)?;
        if byte != b'\n' {
            if self.line.len() <= MOST_OF_LINE {
                return Ok(None);
            }
            return Ok(Some(self.bad()));
        }
        match self.form {
            None => Ok(self.read_first()),
            Some(form) => self.read_entry(form),
        }
    }

    /// Feeds the next piece of the text. An answer holds for each text that begins with the bytes
    /// fed so far, and the checker accepts no further piece. The answer is returned as soon as the
    /// line feed of the first bad line was fed, or 53 bytes of it without a line feed. `None`: all
    /// finished lines are good. `NoMemory`: no memory was found, and the checker accepts no further
    /// piece.
    pub fn feed(&mut self, piece: &[u8]) -> Result<Option<Check>, NoMemory>
        requires fed { (net : Graph) × (text : List ℕ) × IsFed net text self.old }
        ensures answered { (net : Graph) (text : List ℕ) → IsFed net text self.old
            → IfOk result (λ found. IsAnswered net (text ++ piece.now) found self.new) }
    {
        for at in 0..piece.len() {
            if let Some(found) = self.take(piece[at])? {
                return Ok(Some(found));
            }
        }
        Ok(None)
    }

    /// The verdict on the text that was fed, if it ends here.
    pub fn finish(&self) -> Check
        requires fed { (net : Graph) × (text : List ℕ) × IsFed net text self.now }
        ensures found { (net : Graph) (text : List ℕ) → IsFed net text self.now
            → OnlyIsFound (start_net_of_graph net) text result }
    {
        if self.form.is_none() {
            return self.bad();
        }
        if !self.line.is_empty() {
            return self.bad();
        }
        if self.replay.is_complete() {
            Check::Complete
        } else {
            Check::Run { k: self.entries }
        }
    }
}
