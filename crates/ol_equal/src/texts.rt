//! The text of the answer of a comparison.

ghost use Rattle.std.specs.Prelude.{◌≡◌, ◌++◌, ◌∷◌, [], ◌<◌, length, slice_get, slice_index_or, drop, codes, IfOk, OnOk};
ghost use Rattle.std.specs.Fmt.{decimal};
ghost use Rattle.ol_equal.specs.Texts.{path_text, compared_text};
ghost use Rattle.ol_equal.specs.Walking.{dotted};

use crate::answers::Compared;
use crate::steps::Path;
use ol_limits::NoMemory;
use std::alloc::Global;

/// The text of the answer: `equal`, `different at PATH` or `cut at PATH`. PATH is `root`, or the
/// numbers of the path, separated by dots.
///
/// `NoMemory`: no memory was found.
pub fn compared_text(alloc: Global, compared: &Compared) -> Result<Vec<u8>, NoMemory>
    ensures words { IfOk result (λ text. text.items ≡ compared_text compared.now) }
{
    let mut text = Vec::new(alloc);
    match compared {
        Compared::Equal => put(&mut text, b"equal")?,
        Compared::Different { path } => put_at(alloc, &mut text, b"different at ", path)?,
        Compared::Cut { path } => put_at(alloc, &mut text, b"cut at ", path)?,
    }
    Ok(text)
}

fn put(text: &mut Vec<u8>, bytes: &[u8]) -> Result<(), NoMemory>
    ensures { OnOk result (text.new.items ≡ text.old.items ++ bytes.now) }
{
    text.extend_from_slice(bytes)?;
    Ok(())
}

fn put_number(alloc: Global, text: &mut Vec<u8>, number: u32) -> Result<(), NoMemory>
    ensures { OnOk result (text.new.items ≡ text.old.items ++ decimal number) }
{
    let digits = number.to_string(alloc)?;
    put(text, digits.as_bytes())?;
    Ok(())
}

// Appends some words and a path.
fn put_at(alloc: Global, text: &mut Vec<u8>, words: &[u8], path: &Path) -> Result<(), NoMemory>
    ensures { OnOk result (text.new.items ≡ text.old.items ++ (words.now ++ path_text path.now)) }
{
    put(text, words)?;
    if path.len() == 0 {
        put(text, b"root")?;
        return Ok(());
    }
    put_number(alloc, text, number_at(path, 0))?;
    put_dotted(alloc, text, path)?;
    Ok(())
}

// Number k of a path, which has it.
fn number_at(path: &Path, k: u32) -> u32
    requires { k < length path.now }
    ensures { result ≡ slice_index_or path.now k 0 }
{
    match path.get(k) {
        Some(number) => number,
        None => unreachable!(),
    }
}

// Appends the numbers of a path but the first, a dot before each.
fn put_dotted(alloc: Global, text: &mut Vec<u8>, path: &Path) -> Result<(), NoMemory>
    ensures { OnOk result (text.new.items ≡ text.old.items ++ dotted (drop 1 path.now)) }
{
    for k in 1..path.len() {
        put(text, b".")?;
        put_number(alloc, text, number_at(path, k))?;
    }
    Ok(())
}
