//! A trace, followed line by line by a run from a net.

ghost use Rattle.std.specs.Prelude.{◌≤◌, length, IfOk};
ghost use Rattle.ol_orders.specs.Replays.{IsReplay};
ghost use Rattle.ol_explain.specs.Followed.{Stops};
ghost use Rattle.ol_limits.specs.Limits.{most_fuel, most_nodes};

use ol_diamond::{Rewritten, Weighing};
use ol_limits::NoMemory;
use ol_net::Net;
use ol_orders::Replay;
use ol_view::{Form, Line, form_of, is_so, line_at};
use std::alloc::Global;

/// Why a trace is followed no further.
#[derive(Clone, Copy)]
pub enum Stop {
    /// Its first line isn't one of a trace.
    NoHeader,
    /// It ends here, or as many entries as were asked for are made.
    Good,
    /// No line of the grammar, by this form, stands here.
    NoLine { form: Form },
    /// This line stands here, and isn't one of the run: its pair isn't active, or what was made of
    /// the pair isn't what the line tells.
    Otherwise { line: Line, made: Option<Rewritten> },
}

/// A trace that was followed: the run of its first entries, and where in the text their lines
/// end.
#[derive(Drop)]
pub struct Followed {
    pub replay: Replay,
    pub at: usize,
    pub stop: Stop,
}

/// The run of the first entries of a trace, at most so many: up to the first line that isn't
/// good. The trace may be of either form. `NoMemory`: no memory was found.
pub fn follow(alloc: Global, net: &Net, text: &[u8], most: u32) -> Result<Followed, NoMemory>
    requires small { length net.now.nodes ≤ most_nodes }
    requires most { most ≤ most_fuel }
    ensures replay { IfOk result (λ f. IsReplay net.now f.replay) }
    ensures stops { IfOk result (λ f. Stops net.now text.now most f.replay f.at f.stop) }
{
    net.is_net();
    let mut replay = Replay::new(alloc, net)?;
    let Some(form) = form_of(text) else {
        let stop = Stop::NoHeader;
        return Ok(Followed {
            replay,
            at: 0,
            stop,
        });
    };
    let mut weighing = Weighing::new(alloc, net)?;
    let mut at = 11;
    while at < text.len() {
        if replay.run.journal.len() == most {
            let stop = Stop::Good;
            return Ok(Followed { replay, at, stop });
        }
        let Some(line) = line_at(form, text, at) else {
            let stop = Stop::NoLine { form };
            return Ok(Followed { replay, at, stop });
        };
        let made = weighing.rewrite(line.first, line.second)?;
        if !is_so(line, made) {
            let stop = Stop::Otherwise { line, made };
            return Ok(Followed { replay, at, stop });
        }
        if !replay.rewrite_named(line.first, line.second)? {
            unreachable!()
        }
        at = line.next;
    }
    let stop = Stop::Good;
    Ok(Followed { replay, at, stop })
}
