//! The theorem on the translations.

ghost use Rattle.ol_translate.specs.Laws.{TranslationIsNet};

/// Each translation of a term is a net.
pub fn translation_is_a_net()
    ensures { TranslationIsNet }
{}
