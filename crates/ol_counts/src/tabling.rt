//! The command `waves`: the table of a run's waves.

ghost use Rattle.std.specs.Prelude.{◌≡◌, ◌≤◌, length, IfOk};
ghost use Rattle.ol_subjects.specs.Subjects.{most_bytes};
ghost use Rattle.ol_counts.specs.Waves.{IsTable};
ghost use Rattle.ol_counts.specs.WaveAnswers.{IsWavesAnswer, IsWavesOfNet};
ghost use Rattle.ol_limits.specs.Limits.{most_fuel, most_nodes};

use crate::rows::{put_header, put_left, put_mean, put_rows, put_totals, put_widest};
use crate::wave_counts::{first_widest, last_wave, tally};
use ol_diamond::{WaveList, waves};
use ol_limits::{Fuel, NoMemory};
use ol_net::Net;
use ol_rules::{Ended, Journal, run};
use ol_subjects::{Answer, End, NetRead, Subject, read_subject};
use std::alloc::Global;

// The table of a journal with these waves.
fn table(alloc: Global, journal: &Journal, waves: &WaveList) -> Result<Vec<u8>, NoMemory>
    requires count { length waves.now ≡ length journal.now }
    ensures { IfOk result (λ text. IsTable journal.now waves.now text.items) }
{
    let mut text = Vec::new(alloc);
    if journal.len() == 0 {
        put_totals(alloc, &mut text, 0, 0)?;
        return Ok(text);
    }
    let last = last_wave(waves);
    let tallies = tally(alloc, journal, waves, last)?;
    let widest = first_widest(tallies.as_slice());
    put_header(&mut text)?;
    put_rows(alloc, &mut text, tallies.as_slice(), last)?;
    put_widest(alloc, &mut text, widest)?;
    put_mean(alloc, &mut text, journal.len(), last)?;
    put_totals(alloc, &mut text, last, journal.len())?;
    Ok(text)
}

// The answer for a net.
fn of_net(alloc: Global, net: &Net, fuel: u32) -> Result<Answer, NoMemory>
    requires few { length net.now.nodes ≤ most_nodes }
    requires within { fuel ≤ most_fuel }
    ensures { IfOk result (λ a. IsWavesOfNet net.now fuel a.text.items a.end) }
{
    let mut last = net.copy()?;
    let ran = run(alloc, &mut last, fuel)?;
    let waves = waves(alloc, net, &ran.journal)?;
    let mut text = table(alloc, &ran.journal, &waves)?;
    match ran.ended {
        Ended::Done => {
            let end = End::Yes;
            Ok(Answer { text, end })
        }
        Ended::Spent => {
            put_left(alloc, &mut text, fuel)?;
            let end = End::No;
            Ok(Answer { text, end })
        }
    }
}

/// How many pairs each wave of a run has, all together and by rule: a line for each wave, from 1 to
/// the last one. The wave of a pair is the round in which it would be rewritten if each round
/// rewrote all pairs that are there. Below stand the first of the widest waves, how many pairs a
/// wave has in the mean, as a fraction, how many waves there are, and how many interactions. Where
/// there is no pair, only the last two lines come. A run of at most `fuel` interactions is taken,
/// the one of one thread: of complete runs it doesn't matter which (`tables_agree`).
///
/// - `Yes`: the run is complete.
/// - `No`: it goes on beyond the fuel. The table is that of its first interactions, and a last line
///   says so.
/// - `Refused`: `ol` refuses the file, by this line.
///
/// The file has at most 1,048,576 bytes with a term, and 33,554,432 with a net. `NoMemory`: no
/// memory was found.
pub fn wave_table(
    alloc: Global,
    bytes: &[u8],
    subject: Subject,
    fuel: Fuel,
) -> Result<Answer, NoMemory>
    requires short { length bytes.now ≤ most_bytes subject }
    ensures { IfOk result (λ a. IsWavesAnswer bytes.now fuel.most a.text.items subject a.end) }
{
    match read_subject(alloc, bytes, subject)? {
        NetRead::Refused(text) => {
            let end = End::Refused;
            Ok(Answer { text, end })
        }
        NetRead::Net(net) => {
            let answer = of_net(alloc, &net, fuel.most)?;
            Ok(answer)
        }
    }
}
