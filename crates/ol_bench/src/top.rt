//! A command, from its files to what is written.

ghost use Rattle.std.specs.Prelude.{◌≡◌, ℕ, List, [], ◌∷◌, ◌++◌, Option, ◌≤◌, length, drop, true, IfOk};
ghost use Rattle.ol_io.specs.Readings.{AreOfSince};
ghost use Rattle.ol_bench.specs.Inputs.{IsNamed, most_of};
ghost use Rattle.ol_bench.specs.Commands.{IsCause, IsCauseOfOne, IsCauseOfTwo, IsCauseOfWalk, IsCauseOfWhole, IsCauseOnward, IsTwoWithin, IsWithinBounds, Names, contents_of};
ghost use Rattle.ol_bench.specs.Commands.{ReadsNoFurther, ReadsOnward, ReadsTwo};
ghost use Rattle.ol_bench.specs.Commands.{HaveName, IsCauseOfGrade, IsCauseOfSolution, IsCauseOfStudents, student_name};
ghost use Rattle.ol_bench.specs.Taking.{IsWorkOf};
ghost use Rattle.ol_bench.specs.Statuses.{status_number};
ghost use Rattle.ol_bench.specs.Writing.{Told, WritesAnswer, change_of, is_shown, status_of};

use crate::asked::{Asked, Content, Given, OnOne, OnTwo, TERM};
use crate::piecewise::check_by_pieces;
use crate::taking::{bytes_of, refusal};
use ol_decoding::{Wanted, frame_walk};
use ol_derivations::{Bounds as Following, Student, Work, grade};
use ol_io::{ReadAll, Sink, Source, Written, write_all};
use ol_limits::NoMemory;
use ol_subjects::{Answer, End, put};
use std::alloc::Global;

/// How a call of the bench ended.
#[derive(Clone, Copy, Debug, PartialEq, Eq)]
pub enum Status {
    /// The answer is yes, or there was no question of yes and no. It was written, to the sink of
    /// answers.
    Yes,
    /// The answer is no. It was written to the sink of answers. If what was asked for isn't there,
    /// a net after some lines of a trace or a place of a term, the line that says why was written
    /// to the sink of errors.
    No,
    /// A file couldn't be read, or it has too many bytes, and isn't one of a student; or `ol`
    /// refuses a file with a term or a net. The line that says so was written to the sink of
    /// errors.
    Refused,
    /// The sink to which the text goes failed, and has taken its first bytes: not all of them, and
    /// maybe none. The other sink has taken nothing.
    WriteFault,
    /// Memory ran out, and neither sink has taken anything.
    NoMemory,
    /// A trace is one of a run that isn't complete, and this was asked. The answer was written to
    /// the sink of answers.
    Run,
    /// A line of a trace isn't the next one of a run, and this was asked. The answer was written
    /// to the sink of answers.
    NotARun,
    /// A line of a trace isn't in the grammar, and this was asked. The answer was written to the
    /// sink of answers.
    BadText,
}

impl Status {
    /// The number that a process ends with. 2 is left for wrong words.
    pub fn number(self) -> u8
        ensures number { result ≡ status_number self }
    {
        match self {
            Status::Yes => 0,
            Status::No => 1,
            Status::Refused => 3,
            Status::WriteFault => 5,
            Status::NoMemory => 6,
            Status::Run => 10,
            Status::NotARun => 11,
            Status::BadText => 12,
        }
    }
}

// The answer of a command on one file.
fn of_one<S: Source>(
    alloc: Global,
    src: &mut S,
    file: &Given,
    command: OnOne,
) -> Result<Answer, NoMemory>
    requires known { (name : List ℕ) → IsNamed file.now name → S.knows src.old name ≡ true }
    ensures caused { (files : ℕ → List ℕ → Option (List ℕ))
        → AreOfSince files (S.readings src.old) (S.readings src.new)
        → IfOk result (λ a. IsCauseOfOne command file.now files
        (S.faults src.old) (S.faults src.new) a.text.items a.end) }
    ensures told { AreOfSince (λ _. S.contents src.old) (S.readings src.old) (S.readings src.new) }
{
    let content = command.content();
    match bytes_of(alloc, src, file, content) {
        Err(fault) => {
            let answer = refusal(alloc, fault, content)?;
            Ok(answer)
        }
        Ok(bytes) => {
            let answer = command.answer(alloc, &bytes)?;
            Ok(answer)
        }
    }
}

// The answer of a command on two files, where the first one has these bytes. The second one is read
// to its end.
fn onward_whole<S: Source>(
    alloc: Global,
    src: &mut S,
    bytes: &[u8],
    other: &Given,
    command: OnTwo,
) -> Result<Answer, NoMemory>
    requires known { (name : List ℕ) → IsNamed other.now name → S.knows src.old name ≡ true }
    requires short { length bytes.now ≤ most_of (contents_of command).0 }
    requires within { IsTwoWithin command }
    ensures caused { (files : ℕ → List ℕ → Option (List ℕ))
        → AreOfSince files (S.readings src.old) (S.readings src.new)
        → IfOk result (λ a. IsCauseOfWhole command bytes.now other.now files
        (S.faults src.old) (S.faults src.new) a.text.items a.end) }
    ensures told { AreOfSince (λ _. S.contents src.old) (S.readings src.old) (S.readings src.new) }
{
    let (_, content) = command.contents();
    match bytes_of(alloc, src, other, content) {
        Err(fault) => {
            let answer = refusal(alloc, fault, content)?;
            Ok(answer)
        }
        Ok(more) => {
            let answer = command.answer(alloc, bytes, &more)?;
            Ok(answer)
        }
    }
}

// The answer of a command on two files, where the first one has these bytes.
fn onward<S: Source>(
    alloc: Global,
    src: &mut S,
    bytes: &[u8],
    other: &Given,
    command: OnTwo,
) -> Result<Answer, NoMemory>
    requires known { (name : List ℕ) → IsNamed other.now name → S.knows src.old name ≡ true }
    requires short { length bytes.now ≤ most_of (contents_of command).0 }
    requires within { IsTwoWithin command }
    ensures caused { (files : ℕ → List ℕ → Option (List ℕ))
        → AreOfSince files (S.readings src.old) (S.readings src.new)
        → IfOk result (λ a. IsCauseOnward command bytes.now other.now files
        (S.faults src.old) (S.faults src.new) a.text.items a.end) }
    ensures told { AreOfSince (λ _. S.contents src.old) (S.readings src.old) (S.readings src.new) }
    ensures no_further { ReadsOnward command bytes.now other.now
        (S.readings src.old) (S.readings src.new) }
{
    match command.as_check() {
        None => onward_whole(alloc, src, bytes, other, command),
        Some((subject, layout)) => match other {
            Given::Name(name) => {
                check_by_pieces(alloc, src, bytes, name.as_str(), subject, layout)
            }
            Given::Text(_) => onward_whole(alloc, src, bytes, other, command),
        },
    }
}

// The answer of a command on two files.
fn of_two<S: Source>(
    alloc: Global,
    src: &mut S,
    file: &Given,
    other: &Given,
    command: OnTwo,
) -> Result<Answer, NoMemory>
    requires known { (name : List ℕ) → IsNamed file.now name → S.knows src.old name ≡ true }
    requires second { (name : List ℕ) → IsNamed other.now name → S.knows src.old name ≡ true }
    requires within { IsTwoWithin command }
    ensures caused { (files : ℕ → List ℕ → Option (List ℕ))
        → AreOfSince files (S.readings src.old) (S.readings src.new)
        → IfOk result (λ a. IsCauseOfTwo command file.now other.now files
        (S.faults src.old) (S.faults src.new) a.text.items a.end) }
    ensures told { AreOfSince (λ _. S.contents src.old) (S.readings src.old) (S.readings src.new) }
    ensures no_further { ReadsTwo command file.now other.now
        (S.readings src.old) (S.readings src.new) }
{
    let (content, _) = command.contents();
    match bytes_of(alloc, src, file, content) {
        Err(fault) => {
            let answer = refusal(alloc, fault, content)?;
            Ok(answer)
        }
        Ok(bytes) => {
            let answer = onward(alloc, src, &bytes, other, command)?;
            Ok(answer)
        }
    }
}

// The answer where a place of a term is wanted.
fn of_walk<S: Source>(
    alloc: Global,
    src: &mut S,
    file: &Given,
    wanted: &Wanted,
) -> Result<Answer, NoMemory>
    requires known { (name : List ℕ) → IsNamed file.now name → S.knows src.old name ≡ true }
    ensures caused { (files : ℕ → List ℕ → Option (List ℕ))
        → AreOfSince files (S.readings src.old) (S.readings src.new)
        → IfOk result (λ a. IsCauseOfWalk wanted.now file.now files
        (S.faults src.old) (S.faults src.new) a.text.items a.end) }
    ensures told { AreOfSince (λ _. S.contents src.old) (S.readings src.old) (S.readings src.new) }
{
    let content = Content::Subject(TERM);
    match bytes_of(alloc, src, file, content) {
        Err(fault) => {
            let answer = refusal(alloc, fault, content)?;
            Ok(answer)
        }
        Ok(bytes) => {
            let answer = frame_walk(alloc, &bytes, wanted)?;
            Ok(answer)
        }
    }
}

// The name of a student, as it stands before what is said of him.
fn student_name(file: &Given, alloc: Global) -> Result<Vec<u8>, NoMemory>
    ensures { IfOk result (λ name. name.items ≡ student_name file.now) }
{
    let mut name = Vec::new(alloc);
    match file {
        Given::Name(file) => put(&mut name, file.as_bytes())?,
        Given::Text(_) => put(&mut name, b"-e")?,
    }
    Ok(name)
}

// What there is of a student's file, by what came of reading it.
fn work_of(read: Result<Vec<u8>, ReadAll>) -> Result<Work, NoMemory>
    ensures { IfOk result (IsWorkOf read) }
{
    match read {
        Ok(bytes) => Ok(Work::Text(bytes)),
        Err(fault) => match fault {
            ReadAll::NoMemory => Err(NoMemory),
            ReadAll::Fault => Ok(Work::Unread),
            ReadAll::TooLong => Ok(Work::TooLong),
        },
    }
}

// The student whose file this is.
fn student_of(
    alloc: Global,
    file: &Given,
    read: Result<Vec<u8>, ReadAll>,
) -> Result<Student, NoMemory>
    ensures name { IfOk result (λ s. s.name.items ≡ student_name file.now) }
    ensures work { IfOk result (λ s. IsWorkOf read s.work) }
{
    let work = work_of(read)?;
    let name = student_name(file, alloc)?;
    Ok(Student { name, work })
}

// The students with one more.
fn with_student(students: Vec<Student>, student: Student) -> Result<Vec<Student>, NoMemory>
    ensures { IfOk result (λ more. more.items ≡ students.items ++ student ∷ []) }
{
    let mut students = students;
    students.push(student)?;
    Ok(students)
}

// The answer on these inputs and this solution, where the files of these students were read, or
// couldn't be, and those from `at` on are left.
fn of_students<S: Source>(
    alloc: Global,
    src: &mut S,
    bounds: Following,
    inputs: &[u8],
    solution: &[u8],
    read: Vec<Student>,
    files: &[Given],
    at: usize,
) -> Result<Answer, NoMemory>
    requires known { (name : List ℕ) → HaveName (drop at files.now) name
        → S.knows src.old name ≡ true }
    requires place { at ≤ length files.now }
    ensures caused { (told : ℕ → List ℕ → Option (List ℕ))
        → AreOfSince told (S.readings src.old) (S.readings src.new)
        → IfOk result (λ a. IsCauseOfStudents bounds inputs.now solution.now read.items
        (drop at files.now) told (S.faults src.old) (S.faults src.new) a.text.items a.end) }
    ensures told { AreOfSince (λ _. S.contents src.old) (S.readings src.old) (S.readings src.new) }
{
    if at == files.len() {
        let answer = grade(alloc, inputs, solution, &read, bounds)?;
        return Ok(answer);
    }
    let file = &files[at];
    let bytes = bytes_of(alloc, src, file, Content::Subject(TERM));
    let student = student_of(alloc, file, bytes)?;
    let more = with_student(read, student)?;
    let answer = of_students(alloc, src, bounds, inputs, solution, more, files, at + 1)?;
    Ok(answer)
}

// The answer on these inputs, where the solution and the students' files are read.
fn of_solution<S: Source>(
    alloc: Global,
    src: &mut S,
    bounds: Following,
    inputs: &[u8],
    solution: &Given,
    students: &[Given],
) -> Result<Answer, NoMemory>
    requires solution { (name : List ℕ) → IsNamed solution.now name → S.knows src.old name ≡ true }
    requires students { (name : List ℕ) → HaveName students.now name
        → S.knows src.old name ≡ true }
    ensures caused { (files : ℕ → List ℕ → Option (List ℕ))
        → AreOfSince files (S.readings src.old) (S.readings src.new)
        → IfOk result (λ a. IsCauseOfSolution bounds inputs.now solution.now students.now files
        (S.faults src.old) (S.faults src.new) a.text.items a.end) }
    ensures told { AreOfSince (λ _. S.contents src.old) (S.readings src.old) (S.readings src.new) }
{
    let content = Content::Subject(TERM);
    match bytes_of(alloc, src, solution, content) {
        Err(fault) => {
            let answer = refusal(alloc, fault, content)?;
            Ok(answer)
        }
        Ok(bytes) => {
            let none = Vec::new(alloc);
            let answer = of_students(alloc, src, bounds, inputs, &bytes, none, students, 0)?;
            Ok(answer)
        }
    }
}

// What is said of students' functions.
fn of_grade<S: Source>(
    alloc: Global,
    src: &mut S,
    bounds: Following,
    inputs: &Given,
    solution: &Given,
    students: &[Given],
) -> Result<Answer, NoMemory>
    requires inputs { (name : List ℕ) → IsNamed inputs.now name → S.knows src.old name ≡ true }
    requires solution { (name : List ℕ) → IsNamed solution.now name → S.knows src.old name ≡ true }
    requires students { (name : List ℕ) → HaveName students.now name
        → S.knows src.old name ≡ true }
    ensures caused { (files : ℕ → List ℕ → Option (List ℕ))
        → AreOfSince files (S.readings src.old) (S.readings src.new)
        → IfOk result (λ a. IsCauseOfGrade bounds inputs.now solution.now students.now files
        (S.faults src.old) (S.faults src.new) a.text.items a.end) }
    ensures told { AreOfSince (λ _. S.contents src.old) (S.readings src.old) (S.readings src.new) }
{
    let content = Content::Subject(TERM);
    match bytes_of(alloc, src, inputs, content) {
        Err(fault) => {
            let answer = refusal(alloc, fault, content)?;
            Ok(answer)
        }
        Ok(bytes) => {
            let answer = of_solution(alloc, src, bounds, &bytes, solution, students)?;
            Ok(answer)
        }
    }
}

// The answer to what is asked.
fn answer<S: Source>(alloc: Global, asked: &Asked, src: &mut S) -> Result<Answer, NoMemory>
    requires known { (name : List ℕ) → Names asked.now name → S.knows src.old name ≡ true }
    requires bounds { IsWithinBounds asked.now }
    ensures caused { (files : ℕ → List ℕ → Option (List ℕ))
        → AreOfSince files (S.readings src.old) (S.readings src.new)
        → IfOk result (λ a. IsCause asked.now files
        (S.faults src.old) (S.faults src.new) a.text.items a.end) }
    ensures told { AreOfSince (λ _. S.contents src.old) (S.readings src.old) (S.readings src.new) }
    ensures no_further { ReadsNoFurther asked.now (S.readings src.old) (S.readings src.new) }
{
    match asked {
        Asked::One { file, command } => of_one(alloc, src, file, *command),
        Asked::Two {
            file,
            other,
            command,
        } => of_two(alloc, src, file, other, *command),
        Asked::Walk { file, wanted } => of_walk(alloc, src, file, wanted),
        Asked::Grade {
            inputs,
            solution,
            students,
            bounds,
        } => of_grade(alloc, src, *bounds, inputs, solution, students),
    }
}

// The status of an answer that is written whole.
fn status_of(end: End) -> Status
    ensures { result ≡ status_of end }
{
    match end {
        End::Yes => Status::Yes,
        End::No => Status::No,
        End::Nothing => Status::No,
        End::Refused => Status::Refused,
        End::Run => Status::Run,
        End::NotARun => Status::NotARun,
        End::BadText => Status::BadText,
    }
}

// Whether the answer goes to the sink of answers.
fn is_shown(end: End) -> bool
    ensures { result ≡ is_shown end }
{
    match end {
        End::Nothing => false,
        End::Refused => false,
        _ => true,
    }
}

// Writes a text. This status is told where the sink takes all of it.
fn told<W: Sink>(sink: &mut W, text: &[u8], status: Status) -> Status
    ensures { Told text.now status result (change_of W.faults W.taken sink.old sink.new) }
{
    match write_all(sink, text) {
        Written::All => status,
        Written::Fault { .. } => Status::WriteFault,
    }
}

/// Reads the files of a command, and writes its answer or why there is none: to `out`, or to
/// `errors` where a file is refused or can't be read, or where there is nothing to show. The source
/// has to know the names of the files, and the numbers are within their bounds (`OnOne`, `OnTwo`).
///
/// A file with a term has at most 1,048,576 bytes, one with a net 33,554,432, and one with a
/// trace or in which a place is asked 402,653,184.
///
/// - `Yes`: the answer is yes, or the command asks nothing that has a no. The answer was written to
///   `out`.
/// - `No`: the answer is no. It was written to `out`; or, where there is nothing to show, the line
///   that says why to `errors`: that a trace has fewer lines than were asked for, or a bad one
///   among these, or that a term has no such place.
/// - `Run`, `NotARun`, `BadText`: of a trace it was asked what it is found to be, and it isn't one
///   of a complete run. The answer was written to `out`.
/// - `Refused`: a line was written to `errors`, and nothing to `out`. The line is `read fault`
///   where the source failed, but not at a student's file (`Grade`); `limit bytes 1048576`,
///   `limit net 33554432` or `limit journal 402653184` where a file has more bytes than that; or
///   the one by which `ol` refuses a file with a term or a net. Where both of two files have too many
///   bytes, the limit of the first one is told. If it was asked what a trace is found to be, the
///   limit of the trace is told only if its first 402,653,184 bytes don't decide, the unfinished
///   line at their end aside.
/// - `WriteFault`: the sink to which the text goes failed. It has taken the text's first bytes, not
///   all of them and maybe none, and the other sink nothing.
/// - `NoMemory`: no memory was found, and neither sink has taken anything.
pub fn bench<S: Source, W: Sink, E: Sink>(
    alloc: Global,
    asked: &Asked,
    src: &mut S,
    out: &mut W,
    errors: &mut E,
) -> Status
    // The source knows the names of the files, and the numbers are within their bounds.
    requires known { (name : List ℕ) → Names asked.now name → S.knows src.old name ≡ true }
    requires bounds { IsWithinBounds asked.now }

    // The text is the answer to the files, or the line that refuses them. It was told to the sink
    // to which it goes: the whole of it, and the status says how the command ended; or a front of
    // it, and the sink failed. The other sink was left alone, and so were both where memory ran
    // out. This holds of any files that the readings of this call are of, and they are of those
    // whose bytes the source tells.
    ensures answered { (files : ℕ → List ℕ → Option (List ℕ))
        → AreOfSince files (S.readings src.old) (S.readings src.new)
        → WritesAnswer (IsCause asked.now files (S.faults src.old) (S.faults src.new))
        (change_of W.faults W.taken out.old out.new)
        (change_of E.faults E.taken errors.old errors.new) result }
    ensures told { AreOfSince (λ _. S.contents src.old) (S.readings src.old) (S.readings src.new) }

    // A trace that `check` judges is read no further than it has to be: at most 65,536 bytes after
    // the line that fixes the verdict, or after the 53rd byte of a line.
    ensures no_further { ReadsNoFurther asked.now (S.readings src.old) (S.readings src.new) }
{
    let Ok(Answer { text, end }) = answer(alloc, asked, src) else {
        return Status::NoMemory;
    };
    if is_shown(end) {
        told(out, &text, status_of(end))
    } else {
        told(errors, &text, status_of(end))
    }
}
