//! Texts of terms.

ghost use Rattle.std.specs.Prelude.{◌≤◌, length};

use ol_parse::parse;
use ol_term::{Names, Term};
use std::alloc::{AllocError, Global};
use std::test::Fail;

// A term in preorder: `\` an abstraction, `@` an application, a digit a bound variable, a letter a
// free name by its number.
fn write(term: &Term, out: &mut Vec<u8>) -> Result<(), AllocError> {
    match term {
        Term::Var(k) if *k < 10 => out.push(b'0' + *k as u8)?,
        Term::Free(k) if *k < 26 => out.push(b'a' + *k as u8)?,
        Term::Var(_) | Term::Free(_) => out.push(b'?')?,
        Term::Lam(body) => {
            out.push(b'\\')?;
            write(body, out)?;
        }
        Term::App(function, argument) => {
            out.push(b'@')?;
            write(function, out)?;
            write(argument, out)?;
        }
    }
    Ok(())
}

// The names, each after a space.
fn write_names(names: &Names, out: &mut Vec<u8>) -> Result<(), AllocError> {
    for k in 0..names.len() {
        out.push(b' ')?;
        if let Some(name) = names.get(k) {
            out.extend_from_slice(name)?;
        }
    }
    Ok(())
}

// The term of a text and its names, or why there is none.
fn read(alloc: Global, text: &[u8]) -> Result<Vec<u8>, AllocError>
    requires { length text.now ≤ 10000 }
{
    match parse(alloc, text) {
        Ok(file) => {
            let mut out = Vec::new(alloc);
            write(&file.term, &mut out)?;
            write_names(&file.names, &mut out)?;
            Ok(out)
        }
        Err(fault) => {
            let told = format!(in alloc; "{fault:?}")?;
            Ok(told.into_bytes())
        }
    }
}

/// The last term of a `let` is the function, so its names come before those of the first term.
#[test]
fn a_text_is_read(rt: HostRuntime) -> Result<(), Fail> {
    let alloc = rt.alloc();
    let text = b"# of two names\r\n\tlet I = \\x y'. x(f y') in I \xCE\xBBz. _g f z # the end";
    let read = read(alloc, text)?;
    assert!(rt; read.as_slice() == b"@\\@0\\@@ab0\\\\@1@b0 _g f".as_slice());
    Ok(())
}

/// Texts parted by `;`, and the place where each is dead, after `|`.
#[test]
fn other_texts_are_dead_somewhere(rt: HostRuntime) -> Result<(), Fail> {
    let mut out = Vec::new(rt.alloc());
    for text in b";in;\\x.;(x));x \xCEy;let x = y in;let let = y in y;x 'y".split(|byte| *byte
        == b';')
    {
        if text.len() < 100 {
            let read = read(rt.alloc(), text)?;
            out.extend_from_slice(&read)?;
        }
    }
    assert!(rt;
        out.as_slice()
            == b"Syntax { at: 0 }Syntax { at: 2 }Syntax { at: 3 }Syntax { at: 3 }\
            Syntax { at: 3 }Syntax { at: 12 }Syntax { at: 7 }Syntax { at: 2 }"
                .as_slice()
    );
    Ok(())
}

// An abstraction of a thousand names, the first of which is left out if `few` is true.
fn deep(alloc: Global, few: bool) -> Result<Vec<u8>, AllocError> {
    let mut text = [b' '; 2004];
    text[0] = b'\\';
    for k in 0..1000 {
        text[2 * k + 1] = b'x';
    }
    text[2001] = b'.';
    text[2003] = b'x';
    if few {
        text[1] = b' ';
    }
    match parse(alloc, &text) {
        Ok(_) => Vec::from_slice(alloc, b"Ok"),
        Err(fault) => Ok(format!(in alloc; "{fault:?}")?.into_bytes()),
    }
}

#[test]
fn a_deep_term_is_refused(rt: HostRuntime) -> Result<(), Fail> {
    let refused = deep(rt.alloc(), false)?;
    let taken = deep(rt.alloc(), true)?;
    assert!(rt;
        refused.as_slice() == b"Depth { depth: 1001 }".as_slice()
            && taken.as_slice() == b"Ok".as_slice()
    );
    Ok(())
}
