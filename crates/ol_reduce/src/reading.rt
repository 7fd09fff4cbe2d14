//! Words that are there.
ghost use Rattle.std.specs.Prelude.{◌≡◌, ◌<◌, length, slice_index};

use ol_wire::Words;

/// The word of that number.
pub(crate) fn word_at(words: &Words, at: u32) -> u64
    requires { at < length words.now.words }
    ensures { result ≡ slice_index words.now.words at }
{
    match words.word(at) {
        Some(word) => word,
        None => 0,
    }
}
