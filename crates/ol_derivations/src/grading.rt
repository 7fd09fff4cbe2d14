//! A student against the solution, and all of them.

ghost use Rattle.std.specs.Prelude.{◌≡◌, ℕ, false, List, ◌+◌, ◌<◌, ◌++◌, [], ◌∷◌, length, drop, if◌then◌else◌, codes, All, MatchOption, IfOk, OnOk};
ghost use Rattle.std.specs.Fmt.{decimal};
ghost use Rattle.std.specs.List.{AllZip};
ghost use Rattle.ol_derivations.specs.Applications.{IsFunction, IsInput};
ghost use Rattle.ol_readback.specs.Texts.{AreNamed};
ghost use Rattle.ol_derivations.specs.Lines.{lines_of};
ghost use Rattle.ol_derivations.specs.Grades.{AreInputs, IsGrade, IsGradeOf, IsGraded, file_line, on_input};
ghost use Rattle.ol_derivations.specs.StudentsSoFar.{AreAllGrades, AreWanted, AddsHeads, IsOn, IsPathOf, IsSaid, IsSolved, IsWanted, texts_of};

use crate::applying::{Function, Input};
use crate::functions::{Parsed, function_of};
use crate::inputs::{Inputs, inputs_of};
use crate::lines::words_of;
use crate::naming::all_names;
use crate::printing::head_text;
use crate::read_trees::Seen;
use crate::reading::{Bounds, Found, is_whole, lack_words, read_on};
use ol_equal::{Compared, Path, compared_text, same_tree};
use ol_limits::NoMemory;
use ol_subjects::{Answer, End, put, put_number};
use std::alloc::Global;

/// What there is of a student's function.
#[derive(Drop)]
pub enum Work {
    /// Its text, of any length.
    Text(Vec<u8>),
    /// Nothing: it can't be read.
    Unread,
    /// Nothing: it has more bytes than a function may have, 1,048,576.
    TooLong,
}

/// A student's function, and the name that stands before what is said of it.
#[derive(Drop)]
pub struct Student {
    pub name: Vec<u8>,
    pub work: Work,
}

/// What a solution has on an input.
#[derive(Drop)]
pub enum Wanted {
    /// A tree in which each place has a head.
    Whole(Seen),
    /// The words that say on which input it has none, and why.
    Fault(Vec<u8>),
}

/// What comes of a solution on the inputs.
#[derive(Drop)]
pub enum Solved {
    /// The tree on each input.
    Trees(Vec<Seen>),
    /// The words that say why it is none.
    Fault(Vec<u8>),
}

/// What is said of a student, and whether all is equal.
#[derive(Drop)]
pub struct Told {
    pub words: Vec<u8>,
    pub fine: bool,
}

// Some words, on input k.
fn words_on(alloc: Global, words: &[u8], k: usize) -> Result<Vec<u8>, NoMemory>
    ensures { IfOk result (λ text. text.items ≡ on_input words.now k) }
{
    let mut text = Vec::new(alloc);
    put(&mut text, words)?;
    put(&mut text, b" on ")?;
    put_number(alloc, &mut text, k as u64)?;
    Ok(text)
}

// What a solution has on input k.
fn wanted_on(
    alloc: Global,
    solution: &Function<'_>,
    input: &Input<'_>,
    k: usize,
    bounds: Bounds,
) -> Result<Wanted, NoMemory>
    requires function { IsFunction solution.now }
    requires input { IsInput input.now }
    ensures { IfOk result (IsWanted bounds solution.now.text.now input.now.text.now k) }
{
    match read_on(alloc, solution, input, bounds)? {
        Found::Tree(seen) => {
            if is_whole(&seen.tree) {
                return Ok(Wanted::Whole(seen));
            }
            let holes = words_on(alloc, b"holes are left", k)?;
            Ok(Wanted::Fault(holes))
        }
        Found::Without(lack) => {
            let words = words_on(alloc, lack_words(lack).as_bytes(), k)?;
            Ok(Wanted::Fault(words))
        }
    }
}

// The whole trees of a solution, or on which input it has none.
fn trees_of(
    alloc: Global,
    solution: &Function<'_>,
    inputs: &[Input<'_>],
    bounds: Bounds,
) -> Result<Solved, NoMemory>
    requires function { IsFunction solution.now }
    requires inputs { All IsInput inputs.now }
    ensures { IfOk result (IsSolved bounds (texts_of inputs.now) solution.now.text.now) }
{
    let mut trees: Vec<Seen> = Vec::new(alloc);
    for k in 0..inputs.len() {
        let input = &inputs[k];
        match wanted_on(alloc, solution, input, k + 1, bounds)? {
            Wanted::Whole(seen) => trees.push(seen)?,
            Wanted::Fault(words) => return Ok(Solved::Fault(words)),
        }
    }
    Ok(Solved::Trees(trees))
}

// What comes of a solution.
fn solve(
    alloc: Global,
    solution: &[u8],
    inputs: &[Input<'_>],
    bounds: Bounds,
) -> Result<Solved, NoMemory>
    requires inputs { All IsInput inputs.now }
    ensures { IfOk result (IsSolved bounds (texts_of inputs.now) solution.now) }
{
    match function_of(alloc, solution)? {
        Parsed::Fault(words) => Ok(Solved::Fault(words)),
        Parsed::Function(function) => {
            let solved = trees_of(alloc, &function, inputs, bounds)?;
            Ok(solved)
        }
    }
}

// The path to the first place where two trees aren't heads that agree, or None where they are equal.
fn path_of(compared: &Compared) -> Option<&Path>
    ensures { MatchOption result (compared.now ≡ Compared.Equal)
        (λ path. IsPathOf compared.now path.now) }
{
    match compared {
        Compared::Equal => None,
        Compared::Different { path } => Some(path),
        Compared::Cut { path } => Some(path),
    }
}

// Appends what two trees have at the place of a path.
fn put_heads(
    alloc: Global,
    text: &mut Vec<u8>,
    wanted: &Seen,
    got: &Seen,
    path: &Path,
) -> Result<(), NoMemory>
    requires wanted { AreNamed (length wanted.now.names) wanted.now.tree }
    requires got { AreNamed (length got.now.names) got.now.tree }
    ensures { OnOk result
        (AddsHeads wanted.now got.now path.now text.old.items text.new.items) }
{
    let all = all_names(alloc, &wanted.names, &got.names)?;
    let expected = head_text(alloc, &wanted.tree, &wanted.names, &all, path)?;
    let found = head_text(alloc, &got.tree, &got.names, &all, path)?;
    put(text, b": expected ")?;
    put(text, &expected)?;
    put(text, b", got ")?;
    put(text, &found)?;
    Ok(())
}

// What is said of two trees on input k, or None where they are equal.
fn compared(alloc: Global, wanted: &Seen, got: &Seen, k: usize) -> Result<Option<Vec<u8>>, NoMemory>
    requires wanted { AreNamed (length wanted.now.names) wanted.now.tree }
    requires got { AreNamed (length got.now.names) got.now.tree }
    ensures { IfOk result (IsSaid wanted.now got.now k) }
{
    let compared = same_tree(alloc, &wanted.tree, &wanted.names, &got.tree, &got.names)?;
    let Some(path) = path_of(&compared) else {
        return Ok(None);
    };
    let told = compared_text(alloc, &compared)?;
    let mut words = words_on(alloc, &told, k)?;
    put_heads(alloc, &mut words, wanted, got, path)?;
    Ok(Some(words))
}

// What is said of a student on input k, or None where all is equal.
fn fault_on(
    alloc: Global,
    student: &Function<'_>,
    input: &Input<'_>,
    wanted: &Seen,
    k: usize,
    bounds: Bounds,
) -> Result<Option<Vec<u8>>, NoMemory>
    requires function { IsFunction student.now }
    requires input { IsInput input.now }
    requires wanted { AreNamed (length wanted.now.names) wanted.now.tree }
    ensures { IfOk result (IsOn bounds student.now.text.now input.now.text.now wanted.now k) }
{
    match read_on(alloc, student, input, bounds)? {
        Found::Tree(got) => {
            let told = compared(alloc, wanted, &got, k)?;
            Ok(told)
        }
        Found::Without(lack) => {
            let words = words_on(alloc, lack_words(lack).as_bytes(), k)?;
            Ok(Some(words))
        }
    }
}

// The words of a student who is equal on so many inputs.
fn equal_words(alloc: Global, inputs: usize) -> Result<Vec<u8>, NoMemory>
    ensures { IfOk result (λ text.
        text.items ≡ codes "equal on " ++ decimal inputs ++ codes " of " ++ decimal inputs) }
{
    let mut text = Vec::new(alloc);
    put(&mut text, b"equal on ")?;
    put_number(alloc, &mut text, inputs as u64)?;
    put(&mut text, b" of ")?;
    put_number(alloc, &mut text, inputs as u64)?;
    Ok(text)
}

// The wanted tree on an input.
fn wanted_at(wanted: &Vec<Seen>, k: usize) -> &Seen
    requires { k < length wanted.now.items }
    ensures { drop k wanted.now.items ≡ result.now ∷ drop (k + 1) wanted.now.items }
{
    &wanted[k]
}

// What is said of a student whose text is a function.
fn told_on(
    alloc: Global,
    student: &Function<'_>,
    inputs: &[Input<'_>],
    wanted: &Vec<Seen>,
    bounds: Bounds,
) -> Result<Told, NoMemory>
    requires function { IsFunction student.now }
    requires inputs { All IsInput inputs.now }
    requires wanted { AreWanted (texts_of inputs.now) wanted.now.items }
    ensures { IfOk result (λ told. IsGrade bounds (texts_of inputs.now) wanted.now.items
        student.now.text.now told.words.items told.fine) }
{
    for k in 0..inputs.len() {
        let input = &inputs[k];
        let tree = wanted_at(wanted, k);
        match fault_on(alloc, student, input, tree, k + 1, bounds)? {
            None => {}
            Some(words) => {
                let fine = false;
                return Ok(Told { words, fine });
            }
        }
    }
    let words = equal_words(alloc, inputs.len())?;
    let fine = true;
    Ok(Told { words, fine })
}

// What is said of a student's text.
fn told_of_text(
    alloc: Global,
    student: &[u8],
    inputs: &[Input<'_>],
    wanted: &Vec<Seen>,
    bounds: Bounds,
) -> Result<Told, NoMemory>
    requires inputs { All IsInput inputs.now }
    requires wanted { AreWanted (texts_of inputs.now) wanted.now.items }
    ensures { IfOk result (λ told. IsGrade bounds (texts_of inputs.now) wanted.now.items
        student.now told.words.items told.fine) }
{
    match function_of(alloc, student)? {
        Parsed::Fault(words) => {
            let fine = false;
            Ok(Told { words, fine })
        }
        Parsed::Function(function) => {
            let told = told_on(alloc, &function, inputs, wanted, bounds)?;
            Ok(told)
        }
    }
}

// What is said of a student without a text.
fn without_text(alloc: Global, why: &[u8]) -> Result<Told, NoMemory>
    ensures words { IfOk result (λ told. told.words.items ≡ why.now) }
    ensures fine { IfOk result (λ told. told.fine ≡ false) }
{
    let words = words_of(alloc, why)?;
    let fine = false;
    Ok(Told { words, fine })
}

// What is said of a student.
fn told_of(
    alloc: Global,
    work: &Work,
    inputs: &[Input<'_>],
    wanted: &Vec<Seen>,
    bounds: Bounds,
) -> Result<Told, NoMemory>
    requires inputs { All IsInput inputs.now }
    requires wanted { AreWanted (texts_of inputs.now) wanted.now.items }
    ensures { IfOk result (λ told. IsGradeOf bounds (texts_of inputs.now) wanted.now.items
        work.now told.words.items told.fine) }
{
    match work {
        Work::Text(bytes) => {
            let told = told_of_text(alloc, bytes, inputs, wanted, bounds)?;
            Ok(told)
        }
        Work::Unread => {
            let told = without_text(alloc, b"can't be read")?;
            Ok(told)
        }
        Work::TooLong => {
            let told = without_text(alloc, b"limit bytes 1048576")?;
            Ok(told)
        }
    }
}

// Appends the line of a student.
fn put_line(text: &mut Vec<u8>, name: &[u8], words: &[u8]) -> Result<(), NoMemory>
    ensures { OnOk result
        (text.new.items ≡ text.old.items ++ file_line name.now words.now) }
{
    put(text, name)?;
    put(text, b": ")?;
    put(text, words)?;
    put(text, b"\n")
}

// What is said of all students.
fn grades(
    alloc: Global,
    students: &[Student],
    inputs: &[Input<'_>],
    wanted: &Vec<Seen>,
    bounds: Bounds,
) -> Result<Answer, NoMemory>
    requires inputs { All IsInput inputs.now }
    requires wanted { AreWanted (texts_of inputs.now) wanted.now.items }
    ensures { IfOk result (λ a. AreAllGrades bounds (texts_of inputs.now) wanted.now.items
        students.now a.text.items a.end) }
{
    let mut text = Vec::new(alloc);
    let mut fine = true;
    for k in 0..students.len() {
        let student = &students[k];
        let told = told_of(alloc, &student.work, inputs, wanted, bounds)?;
        put_line(&mut text, &student.name, &told.words)?;
        fine &= told.fine;
    }
    let end = end_of(fine);
    Ok(Answer { text, end })
}

// How the answer ends.
fn end_of(fine: bool) -> End
    ensures { result ≡ (if fine then End.Yes else End.No) }
{
    if fine { End::Yes } else { End::No }
}

// The refusal of a file: its name, and why.
fn refusal(alloc: Global, name: &[u8], words: &[u8]) -> Result<Answer, NoMemory>
    ensures text { IfOk result (λ a. a.text.items ≡ file_line name.now words.now) }
    ensures end { IfOk result (λ a. a.end ≡ End.Refused) }
{
    let mut text = Vec::new(alloc);
    put_line(&mut text, name, words)?;
    let end = End::Refused;
    Ok(Answer { text, end })
}

// The refusal of a file with inputs, by the line about one of them.
fn inputs_refusal(alloc: Global, line: &[u8]) -> Result<Answer, NoMemory>
    ensures text { IfOk result (λ a. a.text.items ≡ codes "inputs: " ++ line.now) }
    ensures end { IfOk result (λ a. a.end ≡ End.Refused) }
{
    let mut text = Vec::new(alloc);
    put(&mut text, b"inputs: ")?;
    put(&mut text, line)?;
    let end = End::Refused;
    Ok(Answer { text, end })
}

// The answer on these inputs.
fn graded_on(
    alloc: Global,
    inputs: &[Input<'_>],
    solution: &[u8],
    students: &[Student],
    bounds: Bounds,
) -> Result<Answer, NoMemory>
    requires inputs { All IsInput inputs.now }
    ensures { IfOk result (λ a. (bytes : List ℕ)
        → AreInputs (lines_of bytes) (texts_of inputs.now)
        → IsGraded bytes solution.now students.now bounds a.text.items a.end) }
{
    if inputs.is_empty() {
        let answer = refusal(alloc, b"inputs", b"none")?;
        return Ok(answer);
    }
    match solve(alloc, solution, inputs, bounds)? {
        Solved::Fault(words) => {
            let answer = refusal(alloc, b"solution", &words)?;
            Ok(answer)
        }
        Solved::Trees(wanted) => {
            let answer = grades(alloc, students, inputs, &wanted, bounds)?;
            Ok(answer)
        }
    }
}

/// What is said of students' functions, each compared with a solution on the same inputs.
///
/// `inputs` has one input a line: one or more arguments, which together are a text of the grammar.
/// Empty lines and those that begin with `#` are left out of account, also behind blanks. A
/// function is the text of a term. It is applied to the arguments of the line from the left; a free
/// name is the same wherever it is spelled the same. Of the net of this term `demand` reads a tree.
///
/// Each student gets a line, which begins with his name, a colon and a space. It is decided by the
/// first input, counted from 1, on which his tree and the solution's aren't equal:
///
/// - `equal on N of N`: there is none.
/// - `different at PATH on K: expected HEAD, got HEAD`: both trees have a head at the place of this
///   path, and these don't agree: they differ in their abstractions, their variables or the numbers
///   of their arguments. The first head is the solution's.
/// - `cut at PATH on K: expected HEAD, got HEAD`: his tree has no head there, `?`, or wasn't read so
///   far, `...`.
/// - `beyond the fuel on K`: he has no tree, since `demand` goes on.
/// - `limit depth 1000 on K`, `limit nodes 200000 on K`: his term on this input is too deep, or its
///   net too large.
/// - `limit bytes 1048576`, `syntax, line L, column C`, `limit depth 1000`: his text is no
///   function. Lines and columns are counted from 1, columns in bytes.
/// - `can't be read`, `limit bytes 1048576`: there is no text of his, for this reason.
///
/// A head is told by its binders, its variable and an underscore for each argument, as `\a b. a _`.
/// In both heads a letter is the same binder: none is a free name of one of the two trees. So the
/// two heads that a line tells have different texts (law `no_head_twice`).
///
/// Where two trees are equal, each place of both has a head, so the two terms have one normal form,
/// up to names of binders, and are convertible. Where they are different, the terms aren't
/// convertible. (Law `compared_trees` of ol_law_confluence.)
///
/// - `Yes`: each student is equal on all inputs.
/// - `No`: some student isn't.
/// - `Refused`: there is no input, a line of `inputs` is none, or the solution's text is no
///   function, or on some input it has no tree in which each place has a head: nobody's tree could
///   be equal to it. The text says which.
///
/// `NoMemory`: no memory was found.
pub fn grade(
    alloc: Global,
    inputs: &[u8],
    solution: &[u8],
    students: &[Student],
    bounds: Bounds,
) -> Result<Answer, NoMemory>
    ensures { IfOk result (λ a. IsGraded inputs.now solution.now students.now bounds
        a.text.items a.end) }
{
    match inputs_of(alloc, inputs)? {
        Inputs::Fault(line) => {
            let answer = inputs_refusal(alloc, &line)?;
            Ok(answer)
        }
        Inputs::Lines(lines) => {
            let answer = graded_on(alloc, &lines, solution, students, bounds)?;
            Ok(answer)
        }
    }
}
