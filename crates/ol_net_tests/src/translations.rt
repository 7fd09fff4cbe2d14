//! The nets of terms.

ghost use Rattle.std.specs.Prelude.{◌≤◌, length};

use ol_netfile::write_net;
use ol_parse::parse;
use ol_term::Translation;
use ol_translate::translate;
use std::alloc::{AllocError, Global};
use std::test::Fail;

/// The text of the net of a term.
fn net_text(alloc: Global, input: &[u8], translation: Translation) -> Result<Vec<u8>, Fail>
    requires { length input.now ≤ 100 }
{
    let file = parse(alloc, input).ok().ok_or("no term")?;
    let net = translate(alloc, &file, translation).map_err(Fail::from)?;
    if net.nodes() > 1000 || net.free_ports() > 1000 {
        return Err(Fail::from("too large"));
    }
    Ok(write_net(alloc, &net)?)
}

/// By translation 2 the second variable of `x x` is slot 2 of the application. The names of the last
/// term of a `let` come first: free port 1 is `b`, the function of node 2, and free port 2 is `a`, the
/// argument of node 0.
#[test]
fn terms_have_their_nets(rt: HostRuntime) -> Result<(), Fail> {
    let two = net_text(rt.alloc(), b"\\x. x x", Translation::Two)?;
    let one = net_text(rt.alloc(), b"let x = a in b x", Translation::One)?;
    assert!(rt;
        two.as_slice()
            == b"ol net 1\nfree 1\nnode lam 0\nnode app 0\nnode croissant 0\nnode fan 0\n\
            link f0 0.0\nlink 0.1 1.1\nlink 0.2 3.0\nlink 1.0 2.1\nlink 1.2 3.2\nlink 2.0 3.1\n"
                .as_slice()
            && one.as_slice()
                == b"ol net 1\nfree 3\nnode app 0\nnode lam 0\nnode app 0\nnode croissant 0\n\
                node croissant 1\nnode bracket 0\nnode croissant 1\nnode bracket 0\nlink f0 0.1\n\
                link f1 3.0\nlink f2 7.0\nlink 0.0 1.0\nlink 0.2 6.1\nlink 1.1 2.1\nlink 1.2 5.0\n\
                link 2.0 3.1\nlink 2.2 4.1\nlink 4.0 5.1\nlink 6.0 7.1\n"
                    .as_slice()
    );
    Ok(())
}

/// A text applied to itself, in brackets.
fn twice(alloc: Global, text: &str) -> Result<String, AllocError> {
    format!(in alloc; "({text} {text})")
}

/// A text applied to itself, and so on, so many times.
fn doubled(alloc: Global, text: &str, times: u32) -> Result<String, AllocError> {
    let mut doubled = String::from_str(alloc, text)?;
    for _time in 0..times {
        let next = twice(alloc, &doubled)?;
        doubled = next;
    }
    Ok(doubled)
}

/// The number of nodes of a term by a translation, or why there is no net.
fn nodes(alloc: Global, text: &[u8], translation: Translation) -> Result<String, Fail>
    requires { length text.now ≤ 2000000 }
{
    let file = parse(alloc, text).ok().ok_or("no term")?;
    let nodes = translate(alloc, &file, translation).map(|net| net.nodes());
    Ok(format!(in alloc; "{nodes:?} ")?)
}

/// The same by both translations, of a text that is so often applied to itself.
fn sizes(alloc: Global, text: &str, times: u32) -> Result<String, Fail> {
    let text = doubled(alloc, text, times)?;
    if text.len() > 2_000_000 {
        return Err("too long")?;
    }
    let mut one = nodes(alloc, text.as_bytes(), Translation::One)?;
    let two = nodes(alloc, text.as_bytes(), Translation::Two)?;
    one.push_str(&two)?;
    Ok(one)
}

/// Of the generator's term for k the net has 10 * 2^k - 1 nodes by translation 1, and 8 * 2^k - 1 by
/// translation 2. A term of n nodes without variables of others applied to itself has 2 n + 1: from
/// 2 nodes on, 196,607 and then 393,215, which are too many.
#[test]
fn nets_have_their_sizes(rt: HostRuntime) -> Result<(), Fail> {
    let mut text = String::new(rt.alloc());
    for (term, times) in [
        ("((\\x. x x) (\\y. y))", 1),
        ("((\\x. x x) (\\y. y))", 10),
        ("(\\x. x)", 16),
        ("(\\x. x)", 17),
    ] {
        let sizes = sizes(rt.alloc(), term, times)?;
        text.push_str(&sizes)?;
    }
    assert!(rt;
        text.as_bytes()
            == b"Ok(19) Ok(15) Ok(10239) Ok(8191) Ok(196607) Ok(196607) \
            Err(TooMany) Err(TooMany) "
                .as_slice(),
        "{text}"
    );
    Ok(())
}
