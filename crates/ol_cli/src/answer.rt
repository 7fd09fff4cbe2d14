//! An answer: a text, its status, and what is handed back with it.
ghost use Rattle.std.specs.Prelude.{◌≡◌, IfOk, None};
ghost use Rattle.ol_cli.specs.Texts.{line};

use crate::status::Status;
use crate::texts::line;
use ol_limits::NoMemory;
use ol_wire::Words;
use std::alloc::Global;

/// A text that is to be written, and the status with which the call ends.
///
/// `closed` are the closed words of the workers' table, where the job has workers and their run is
/// complete or used up its fuel.
#[derive(Drop)]
pub struct Answer {
    pub text: Vec<u8>,
    pub status: Status,
    pub closed: Option<Words>,
}

impl Answer {
    /// An answer without closed words: its job has no workers, or their run wasn't ended.
    pub fn text_alone(text: Vec<u8>, status: Status) -> Answer
        ensures { result ≡ record { text = text; status = status; closed = None } }
    {
        Answer {
            text,
            status,
            closed: None,
        }
    }
}

/// A line that says why there is no answer.
pub fn refusal(alloc: Global, words: &str, status: Status) -> Result<Answer, NoMemory>
    ensures text { IfOk result (λ a. a.text.items ≡ line words.now) }
    ensures status { IfOk result (λ a. a.status ≡ status) }
    ensures closed { IfOk result (λ a. a.closed ≡ None) }
{
    let text = line(alloc, words)?;
    Ok(Answer::text_alone(text, status))
}
