//! What is open round a token.

ghost use Rattle.std.specs.Prelude.{◌≡◌, [], ◌∷◌, option_map, IfOk, OnOk};
ghost use Rattle.std.specs.Str.{bytes_eq};
ghost use Rattle.ol_parse.specs.Grammar.{name, in_key};
ghost use Rattle.ol_places.specs.declared.scanning.Mode.TheVariants.{Atom};
ghost use Rattle.ol_places.specs.Occurrences.{is_unbound};
ghost use Rattle.ol_places.specs.Tokens.{sign_token, kind_token};
ghost use Rattle.ol_places.specs.Scans.{bracket, binder, defining, closed, unwound, names_of, scopes_of, shown, innermost, IsScan, Takes};

use crate::tokens::{Kind, Sign};
use ol_limits::NoMemory;
use std::alloc::Global;

/// What a name is that comes next.
#[derive(Clone, Copy)]
pub enum Mode {
    /// An occurrence.
    Atom,
    /// One of those that a `\` binds.
    Names,
    /// That of a `let`.
    Let,
}

/// What is open round a token.
#[derive(Clone, Copy)]
pub enum Scope<'a> {
    Bracket,
    /// A `\` with this name, or a `let` behind its `in`.
    Binder(&'a [u8]),
    /// A `let` with this name, before its `in`.
    Defining(&'a [u8]),
}

/// What is open round a token, the innermost last, and the names that are bound there.
#[derive(Drop)]
pub struct Scan<'a> {
    pub mode: Mode,
    pub scopes: Vec<Scope<'a>>,
    pub bound: Vec<&'a [u8]>,
}

/// Before the first token.
pub fn no_scan<'a>(alloc: Global) -> Scan<'a>
    ensures mode { result.mode ≡ Atom }
    ensures scopes { result.scopes.items ≡ [] }
    ensures scan { IsScan result }
{
    Scan {
        mode: Mode::Atom,
        scopes: Vec::new(alloc),
        bound: Vec::new(alloc),
    }
}

fn is_same(word: &[u8], other: &[u8]) -> bool
    ensures { result ≡ bytes_eq word.now other.now }
{
    word == other
}

// Whether a name isn't bound.
fn is_unbound(bound: &[&[u8]], name: &[u8]) -> bool
    ensures { result ≡ is_unbound (names_of bound.now) name.now }
{
    for k in 0..bound.len() {
        if is_same(name, bound[k]) {
            return false;
        }
    }
    true
}

// Ends the innermost binders, and the scope round them, which is the answer.
fn unwind<'a>(scan: &mut Scan<'a>) -> Option<Scope<'a>>
    requires { IsScan scan.old }
    ensures scope { option_map shown result
        ≡ innermost (unwound (scopes_of scan.old.scopes.items)) }
    ensures scopes { scopes_of scan.new.scopes.items
        ≡ closed (unwound (scopes_of scan.old.scopes.items)) }
    ensures mode { scan.new.mode ≡ scan.old.mode }
    ensures scan { IsScan scan.new }
{
    while let Some(scope) = scan.scopes.pop() {
        match scope {
            Scope::Binder(_) => {
                let _name = scan.bound.pop();
            }
            Scope::Bracket => return Some(scope),
            Scope::Defining(_) => return Some(scope),
        }
    }
    None
}

fn bind<'a>(scan: &mut Scan<'a>, name: &'a [u8]) -> Result<(), NoMemory>
    requires { IsScan scan.old }
    ensures scopes { OnOk result (scopes_of scan.new.scopes.items
        ≡ binder name.now ∷ scopes_of scan.old.scopes.items) }
    ensures mode { scan.new.mode ≡ scan.old.mode }
    ensures scan { OnOk result (IsScan scan.new) }
{
    scan.scopes.push(Scope::Binder(name))?;
    scan.bound.push(name)?;
    Ok(())
}

// Takes a name, and tells whether it is free.
fn take_name<'a>(scan: &mut Scan<'a>, word: &'a [u8]) -> Result<bool, NoMemory>
    requires { IsScan scan.old }
    ensures { IfOk result (Takes (name word.now) scan.old scan.new) }
{
    match scan.mode {
        Mode::Atom => Ok(is_unbound(&scan.bound, word)),
        Mode::Names => {
            bind(scan, word)?;
            Ok(false)
        }
        Mode::Let => {
            scan.scopes.push(Scope::Defining(word))?;
            scan.mode = Mode::Atom;
            Ok(false)
        }
    }
}

// Takes an `in`: behind it the name of the `let` is bound.
fn take_in<'a>(scan: &mut Scan<'a>) -> Result<bool, NoMemory>
    requires { IsScan scan.old }
    ensures { IfOk result (Takes in_key scan.old scan.new) }
{
    if let Some(Scope::Defining(name)) = unwind(scan) {
        bind(scan, name)?;
    }
    scan.mode = Mode::Atom;
    Ok(false)
}

// Takes a token that is no word.
fn take_sign<'a>(scan: &mut Scan<'a>, sign: Sign) -> Result<bool, NoMemory>
    requires { IsScan scan.old }
    ensures { IfOk result (Takes (sign_token sign) scan.old scan.new) }
{
    scan.mode = Mode::Atom;
    match sign {
        Sign::Lambda => scan.mode = Mode::Names,
        Sign::Open => scan.scopes.push(Scope::Bracket)?,
        Sign::Close => {
            let _ended = unwind(scan);
        }
        Sign::Dot => {}
        Sign::Equals => {}
    }
    Ok(false)
}

/// Takes a token of this kind, and tells whether it is a free name.
pub fn take<'a>(scan: &mut Scan<'a>, kind: Kind, token: &'a [u8]) -> Result<bool, NoMemory>
    requires { IsScan scan.old }
    ensures { IfOk result (Takes (kind_token kind token.now) scan.old scan.new) }
{
    match kind {
        Kind::Name => take_name(scan, token),
        Kind::Let => {
            scan.mode = Mode::Let;
            Ok(false)
        }
        Kind::In => take_in(scan),
        Kind::Sign(sign) => take_sign(scan, sign),
    }
}
