//! The meaning of the arguments after the command.

ghost use Rattle.std.specs.Prelude.{◌≡◌, ◌++◌, ◌∷◌, [], Some, None, IfOk, MatchOption, option_map, length, map, true, false, if◌then◌else◌};
ghost use Rattle.ol_words.specs.Lines.{Line, line_of, is_dashed, is_end, option_of, after_hyphens, name_and_value, flag_alone, value_in, is_equals, is_option};
ghost use Rattle.ol_words.specs.Settings.{flags_in, known_in, options_in};
ghost use Rattle.ol_words.specs.Views.{texts};
ghost use Rattle.std.specs.List.{position_or_len};
ghost use Rattle.ol_words.specs.Texts.{texts_of};
ghost use Rattle.ol_words.specs.Jobs.{values_of};
ghost use Rattle.ol_words.specs.Once.{is_given_once, is_told_once};

use crate::settings::Setting;
use std::alloc::{AllocError, Global};
use std::marker::Model;

/// The options with their values, and the names, each in order.
#[derive(Drop)]
pub(crate) struct Line<'a> {
    options: Vec<(&'a [u8], &'a [u8])>,
    names: Vec<&'a str>,
}

impl<'a> Model for Line<'a> {
    ghost use Rattle.std.specs.Prelude.{map};
    ghost use Rattle.ol_words.specs.Lines.{Line};

    ghost Value = { Line };

    ghost view = { λ l. record {
      options = map (λ p. (p.0.now, p.1.now)) l.options.items;
      names = map (λ n. n.now) l.names.items;
    } };
}

// The text begins with `-` and isn't `-` alone.
fn is_dashed(word: &[u8]) -> bool
    ensures { result ≡ is_dashed word.now }
{
    matches!(word, [b'-', _, ..])
}

// The name is the option of one of the settings.
fn is_option(settings: &[Setting], name: &[u8]) -> bool
    ensures { result ≡ is_option (options_in settings.now) name.now }
{
    for setting in settings {
        if setting.option().as_bytes() == name {
            return true;
        }
    }
    false
}

// The name is the option of one of the settings, and is a flag.
fn is_flag(settings: &[Setting], name: &[u8]) -> bool
    ensures { result ≡ is_option (flags_in settings.now) name.now }
{
    for setting in settings {
        if setting.is_flag() && setting.option().as_bytes() == name {
            return true;
        }
    }
    false
}

// The place of the first `=`, or the length where there is none.
fn place_of_equals(text: &[u8]) -> usize
    ensures { result ≡ position_or_len is_equals text.now }
{
    for place in 0..text.len() {
        if text[place] == b'=' {
            return place;
        }
    }
    text.len()
}

// What stands behind the first `=`, if there is one.
fn value_in<'a>(text: &'a [u8]) -> Option<&'a [u8]>
    ensures { option_map (λ v. v.now) result ≡ value_in text.now }
{
    let place = place_of_equals(text);
    if place < text.len() {
        Some(&text[place + 1..])
    } else {
        None
    }
}

// A flag, which stands alone and has then the value 1.
fn flag_alone<'a>(flag: &'a [u8], value: Option<&'a [u8]>) -> Option<(&'a [u8], Option<&'a [u8]>)>
    ensures { option_map (λ p. (p.0.now, option_map (λ v. v.now) p.1)) result
        ≡ flag_alone flag.now (option_map (λ v. v.now) value.entry) }
{
    match value {
        None => Some((flag, Some(b"1"))),
        Some(_) => None,
    }
}

// An option, with its value where that is attached by `=`.
fn name_and_value<'a>(settings: &[Setting], text: &'a [u8]) -> Option<(&'a [u8], Option<&'a [u8]>)>
    ensures { option_map (λ p. (p.0.now, option_map (λ v. v.now) p.1)) result
        ≡ name_and_value (known_in settings.now) text.now }
{
    let name = &text[..place_of_equals(text)];
    if is_flag(settings, name) {
        flag_alone(name, value_in(text))
    } else if is_option(settings, name) {
        Some((name, value_in(text)))
    } else {
        None
    }
}

// The option that a word writes out, with its value where that is attached.
fn option_of<'a>(settings: &[Setting], word: &'a [u8]) -> Option<(&'a [u8], Option<&'a [u8]>)>
    ensures { option_map (λ p. (p.0.now, option_map (λ v. v.now) p.1)) result
        ≡ option_of (known_in settings.now) word.now }
{
    match word {
        [b'-', b'-', text @ ..] => name_and_value(settings, text),
        _ => None,
    }
}

// The words as texts, each behind those that are there.
fn push_all<'a>(names: &mut Vec<&'a str>, words: &'a [String]) -> Result<(), AllocError>
    ensures { IfOk result (λ _.
        texts names.new.items ≡ texts names.old.items ++ texts_of words.now) }
{
    for word in words {
        names.push(word.as_str())?;
    }
    Ok(())
}

/// What the words after a verb with these settings say, or None if they aren't read.
pub(crate) fn line_of<'a>(
    alloc: Global,
    settings: &[Setting],
    words: &'a [String],
) -> Result<Option<Line<'a>>, AllocError>
    ensures { IfOk result (λ line. line
        ≡ line_of (known_in settings.now) (texts_of words.now)) }
{
    let mut options: Vec<(&'a [u8], &'a [u8])> = Vec::new(alloc);
    let mut names: Vec<&'a str> = Vec::new(alloc);
    let mut waiting: Option<&'a [u8]> = None;
    for place in 0..words.len() {
        let word = words[place].as_str();
        let bytes = word.as_bytes();
        match waiting {
            Some(option) => {
                if is_dashed(bytes) {
                    return Ok(None);
                }
                options.push((option, bytes))?;
                waiting = None;
            }
            None => {
                if word == "--" {
                    push_all(&mut names, &words[place + 1..])?;
                    return Ok(Some(Line { options, names }));
                }
                if !is_dashed(bytes) {
                    names.push(word)?;
                } else {
                    match option_of(settings, bytes) {
                        None => return Ok(None),
                        Some((option, Some(value))) => options.push((option, value))?,
                        Some((option, None)) => waiting = Some(option),
                    }
                }
            }
        }
    }
    match waiting {
        Some(_) => Ok(None),
        None => Ok(Some(Line { options, names })),
    }
}

impl<'a> Line<'a> {
    /// Each option is given once at most, and there are so many names.
    pub(crate) fn is_told_once(&self, settings: &[Setting], names: usize) -> bool
        ensures { result ≡ is_told_once (options_in settings.now) names self.now }
    {
        for setting in settings {
            if count_of(&self.options, setting.option().as_bytes()) >= 2 {
                return false;
            }
        }
        self.names.len() == names
    }
}

// How often an option is given.
fn count_of(options: &[(&[u8], &[u8])], option: &[u8]) -> usize
    ensures { result ≡ length (values_of option.now (map (λ p. (p.0.now, p.1.now)) options.now)) }
{
    let mut count: usize = 0;
    for place in 0..options.len() {
        if options[place].0 == option {
            count += 1;
        }
    }
    count
}
