//! Pieces of texts.

ghost use Rattle.std.specs.Prelude.{◌≡◌, ◌++◌, ◌∷◌, [], OnOk, IfOk, IfSome};
ghost use Rattle.std.specs.Fmt.{decimal};

use ol_limits::NoMemory;
use std::alloc::Global;
use std::fmt;

/// Appends some bytes.
pub fn put(text: &mut Vec<u8>, piece: &[u8]) -> Result<(), NoMemory>
    ensures { OnOk result (text.new.items ≡ text.old.items ++ piece.now) }
{
    match text.extend_from_slice(piece) {
        Ok(()) => Ok(()),
        Err(_) => Err(NoMemory),
    }
}

/// Appends what is shown. `NoMemory`: no memory was found.
pub fn put_shown<D: fmt::Display>(
    alloc: Global,
    text: &mut Vec<u8>,
    shown: &D,
) -> Result<(), NoMemory>
    ensures { OnOk result (IfSome (D.output shown.now)
        (λ bytes. text.new.items ≡ text.old.items ++ bytes)) }
{
    let Ok(bytes) = format!(in alloc; "{shown}") else {
        return Err(NoMemory);
    };
    put(text, bytes.as_bytes())
}

/// Appends a number.
pub fn put_number(alloc: Global, text: &mut Vec<u8>, number: u64) -> Result<(), NoMemory>
    ensures { OnOk result (text.new.items ≡ text.old.items ++ decimal number) }
{
    put_shown(alloc, text, &number)
}
