//! The net of a file: what stands from its first line `ol net 1` on.

ghost use Rattle.std.specs.Prelude.{◌≡◌, ◌≤◌, ℕ, List, true, false, length, drop, IfOk};
ghost use Rattle.ol_subjects.specs.declared.subjects.Subject.{Subject};
ghost use Rattle.ol_subjects.specs.Readied.{IsSubjectRead};
ghost use Rattle.ol_orders.specs.Same.{BeginsLine, HasHead, IsNetPart};
ghost use Rattle.ol_limits.specs.Limits.{most_net_bytes};

use ol_limits::NoMemory;
use ol_subjects::{NetRead, Subject, read_subject};
use std::alloc::Global;

// Whether a line begins at this byte.
fn begins_line(bytes: &[u8], at: usize) -> bool
    ensures yes { result ≡ true → BeginsLine bytes.now at }
    ensures no { result ≡ false → BeginsLine bytes.now at → ⊥ }
{
    if at == 0 {
        return true;
    }
    match bytes.get(at - 1) {
        Some(byte) => *byte == b'\n',
        None => false,
    }
}

// Whether the line `ol net 1` stands at this byte.
fn has_head(bytes: &[u8], at: usize) -> bool
    requires { at ≤ length bytes.now }
    ensures yes { result ≡ true → HasHead bytes.now at }
    ensures no { result ≡ false → HasHead bytes.now at → ⊥ }
{
    if !begins_line(bytes, at) {
        return false;
    }
    if bytes[at..].starts_with("ol net 1\n".as_bytes()) {
        return true;
    }
    false
}

// The byte from which a file is read as a net.
fn net_at(bytes: &[u8]) -> usize
    ensures part { IsNetPart bytes.now (drop result bytes.now) }
    ensures within { result ≤ length bytes.now }
{
    for at in 0..bytes.len() {
        if has_head(bytes, at) {
            return at;
        }
    }
    0
}

/// The net of a file, or the line by which `ol` refuses it. What stands before the first line
/// `ol net 1` is passed over. `NoMemory`: no memory was found.
pub fn read_part(alloc: Global, bytes: &[u8]) -> Result<NetRead, NoMemory>
    requires short { length bytes.now ≤ most_net_bytes }
    ensures { IfOk result (λ read. (part : List ℕ) × IsNetPart bytes.now part
        × IsSubjectRead Subject.Net part read) }
{
    let read = read_subject(alloc, &bytes[net_at(bytes)..], Subject::Net)?;
    Ok(read)
}
