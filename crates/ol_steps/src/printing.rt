//! The printed text of a term with names.

ghost use Rattle.std.specs.Prelude.{◌≡◌, ◌++◌, true, false, OnOk};
ghost use Rattle.ol_term.specs.Texts.{before_binder, before_body};
ghost use Rattle.ol_steps.specs.Terms.{named_of};
ghost use Rattle.ol_steps.specs.NamedTexts.{is_abstraction, is_name, left_bracket, right_bracket, named_text};

use crate::terms::NamedTerm;
use ol_limits::NoMemory;
use ol_subjects::put;

pub fn before_binder(body: bool) -> &'static str
    ensures { result.now ≡ before_binder body }
{
    if body { " " } else { "\\" }
}

pub fn before_body(body: bool) -> &'static str
    ensures { result.now ≡ before_body body }
{
    if body { ". " } else { "" }
}

pub fn left_bracket(needed: bool) -> &'static str
    ensures { result.now ≡ left_bracket needed }
{
    if needed { "(" } else { "" }
}

pub fn right_bracket(needed: bool) -> &'static str
    ensures { result.now ≡ right_bracket needed }
{
    if needed { ")" } else { "" }
}

pub fn is_abstraction(term: &NamedTerm) -> bool
    ensures { result ≡ is_abstraction (named_of term.now) }
{
    matches!(term, NamedTerm::Abstraction(_, _))
}

pub fn is_name(term: &NamedTerm) -> bool
    ensures { result ≡ is_name (named_of term.now) }
{
    matches!(term, NamedTerm::Name(_))
}

/// The text of a term, which is the body of a binder just before it where `body` is true. The calls
/// recurse as deep as the term is.
pub fn put_part(text: &mut Vec<u8>, term: &NamedTerm, body: bool) -> Result<(), NoMemory>
    ensures { OnOk result (text.new.items ≡ text.old.items ++ named_text body (named_of term.now)) }
{
    match term {
        NamedTerm::Name(name) => {
            put(text, before_body(body).as_bytes())?;
            put(text, name)
        }
        NamedTerm::Abstraction(binder, inner) => {
            put(text, before_binder(body).as_bytes())?;
            put(text, binder)?;
            put_part(text, inner, true)?;
            Ok(())
        }
        NamedTerm::Application(function, argument) => {
            put(text, before_body(body).as_bytes())?;
            put(text, left_bracket(is_abstraction(function)).as_bytes())?;
            put_part(text, function, false)?;
            put(text, right_bracket(is_abstraction(function)).as_bytes())?;
            put(text, b" ")?;
            put(text, left_bracket(!is_name(argument)).as_bytes())?;
            put_part(text, argument, false)?;
            put(text, right_bracket(!is_name(argument)).as_bytes())
        }
    }
}

/// Appends the printed text of a term with names. Binders are gathered after one `\`; a function
/// that is an abstraction and an argument that is no name stand in brackets. The calls recurse as
/// deep as the term is. `NoMemory`: no memory was found.
pub fn put_named(text: &mut Vec<u8>, term: &NamedTerm) -> Result<(), NoMemory>
    ensures { OnOk result
        (text.new.items ≡ text.old.items ++ named_text false (named_of term.now)) }
{
    put_part(text, term, false)
}
