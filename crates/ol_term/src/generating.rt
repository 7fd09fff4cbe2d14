//! Large terms, made by doubling.

ghost use Rattle.std.specs.Prelude.{◌≡◌, ◌≢◌, ◌+◌, ◌*◌, ◌^◌, ◌<◌, ◌++◌, ◌∷◌, [], ◌↔◌, length, Err, IfOk, OnOk};
ghost use Rattle.ol_term.specs.Generated.{doubled, doubled_text};
ghost use Rattle.ol_term.specs.declared.generating.Made.TheVariants.{TooLarge};

use std::alloc::Global;

/// Why no text was made.
#[derive(Clone, Copy, Debug, PartialEq, Eq)]
pub enum Made {
    /// The request is for more than ten doublings.
    TooLarge,
    /// A memory allocation failed.
    NoMemory,
}

// A term applied to itself, in brackets.
fn applied(alloc: Global, term: &[u8]) -> Result<Vec<u8>, Made>
    ensures made { IfOk result (λ text. text.items ≡ 40 ∷ term.now ++ (32 ∷ term.now ++ 41 ∷ [])) }
    ensures refused { result ≢ Err TooLarge }
{
    let mut text = Vec::new(alloc);
    put(&mut text, b"(")?;
    put(&mut text, term)?;
    put(&mut text, b" ")?;
    put(&mut text, term)?;
    put(&mut text, b")")?;
    Ok(text)
}

fn put(text: &mut Vec<u8>, piece: &[u8]) -> Result<(), Made>
    ensures put { OnOk result (text.new.items ≡ text.old.items ++ piece.now) }
    ensures refused { result ≢ Err TooLarge }
{
    match text.extend_from_slice(piece) {
        Ok(()) => Ok(()),
        Err(_) => Err(Made::NoMemory),
    }
}

// The term that is doubled k times.
fn double(alloc: Global, k: u32) -> Result<Vec<u8>, Made>
    ensures made { IfOk result (λ text. text.items ≡ doubled k) }
    ensures refused { result ≢ Err TooLarge }
{
    let mut text = Vec::new(alloc);
    put(&mut text, b"((\\x. x x) (\\y. y))")?;
    for _ in 0..k {
        text = applied(alloc, &text)?;
    }
    Ok(text)
}

/// The text of a large term that reduces to an identity: `((\x. x x) (\y. y))`, doubled k times to
/// an application of the term to itself, `(T T)`, with a line feed at the end. It has 22 * 2^k - 2
/// bytes. `TooLarge`: k exceeds 10. `NoMemory`: no memory was found.
pub fn make(alloc: Global, k: u32) -> Result<Vec<u8>, Made>
    ensures made { IfOk result (λ text. text.items ≡ doubled_text k) }
    ensures size { IfOk result (λ text. length text.items + 2 ≡ 22 * 2 ^ k) }
    ensures too_large { result ≡ Err TooLarge ↔ 10 < k }
{
    if k > 10 {
        return Err(Made::TooLarge);
    }
    let mut text = double(alloc, k)?;
    put(&mut text, b"\n")?;
    Ok(text)
}
