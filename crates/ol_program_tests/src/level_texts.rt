//! Levels, and walks with them, as plain texts.

ghost use Rattle.std.specs.Prelude.{IfOk};
ghost use Rattle.ol_context.specs.Shapes.{IsHeld, AreHeld, Extends};

use crate::rows::Asked;
use crate::small_terms::{net_of, parsed};
use ol_context::{Context, Shape, Val, Values, Walk, walk};
use ol_limits::NoMemory;
use ol_net::Net;
use ol_term::Translation;
use std::alloc::{AllocError, Global};
use std::test::Fail;

/// Appends a level value, as in `*.<empty,o.empty>`.
fn spell(values: &Values, v: Val, text: &mut String) -> Result<(), AllocError>
    requires { IsHeld values.now v }
{
    match values.shape(v) {
        Shape::Empty => text.push_str("empty"),
        Shape::O(a) => {
            text.push_str("o.")?;
            spell(values, a, text)
        }
        Shape::Star(a) => {
            text.push_str("*.")?;
            spell(values, a, text)
        }
        Shape::Pair(a, b) => {
            text.push_str("<")?;
            spell(values, a, text)?;
            text.push_str(",")?;
            spell(values, b, text)?;
            text.push_str(">")
        }
    }
}

/// The levels below 8 that are not empty, each after its number.
fn spelled(alloc: Global, values: &Values, context: &Context) -> Result<String, AllocError>
    requires { AreHeld values.now context.now }
{
    let mut text = String::new(alloc);
    for k in 0..8 {
        let level = context.level(values, k);
        if !matches!(values.shape(level), Shape::Empty) {
            text = format!(in alloc; "{text} {k}:")?;
            spell(values, level, &mut text)?;
        }
    }
    Ok(text)
}

/// A value made of v, by a sign: `*.v`, `<v,empty>` by `e`, `<v,o.empty>` by `p`, and else `o.v`.
fn put(values: &mut Values, sign: u8, v: Val) -> Result<Val, NoMemory>
    requires { IsHeld values.old v }
    ensures extends { Extends values.old values.new }
    ensures held { IfOk result (λ w. IsHeld values.new w) }
{
    let empty = values.empty();
    match sign {
        b'*' => values.put_star(v),
        b'e' => values.put_pair(v, empty),
        b'p' => {
            let o = values.put_o(empty)?;
            values.put_pair(v, o)
        }
        _ => values.put_o(v),
    }
}

/// What such signs make of the empty value, the last first.
fn signed(values: &mut Values, signs: &str) -> Result<Val, NoMemory>
    ensures extends { Extends values.old values.new }
    ensures held { IfOk result (λ v. IsHeld values.new v) }
{
    let mut v = values.empty();
    for sign in signs.as_bytes().iter().rev() {
        v = put(values, *sign, v)?;
    }
    Ok(v)
}

/// The context that begins with up to three levels, whose signs have commas between them.
pub fn begun(alloc: Global, values: &mut Values, signs: &str) -> Result<Context, NoMemory>
    ensures { IfOk result (λ c. AreHeld values.new c) }
{
    let (first, rest) = signs.split_once(",").unwrap_or((signs, ""));
    let (second, third) = rest.split_once(",").unwrap_or((rest, ""));
    let a = signed(values, first)?;
    let b = signed(values, second)?;
    let c = signed(values, third)?;
    Ok(Context::of(vec![in alloc; a, b, c]?))
}

fn exit_text(
    alloc: Global,
    values: &Values,
    port: u32,
    context: &Context,
    crossings: u64,
) -> Result<String, AllocError>
    requires { AreHeld values.now context.now }
{
    let levels = spelled(alloc, values, context)?;
    format!(in alloc; "{crossings} to {port} with{levels}")
}

/// What a walk of at most `second` crossings from free port `first` of a net answers that begins
/// with these levels.
fn walked_on(alloc: Global, net: &Net, asked: Asked<'_>) -> Result<String, Fail> {
    if asked.first >= net.free_ports() {
        return Err(Fail::from("no such port"));
    }
    let mut values = Values::new(alloc);
    let context = begun(alloc, &mut values, asked.signs)?;
    let text = match walk(net, &mut values, asked.first, context, asked.second as u64)? {
        Walk::Exit {
            port,
            context,
            crossings,
        } => exit_text(alloc, &values, port, &context, crossings),
        Walk::Undefined { crossings } => format!(in alloc; "undefined at {crossings}"),
        Walk::Budget => String::from_str(alloc, "budget"),
    };
    Ok(text?)
}

/// The same over the net of a term by a translation.
pub fn walked(alloc: Global, translation: Translation, asked: Asked<'_>) -> Result<String, Fail> {
    let file = parsed(alloc, asked.text)?;
    let net = net_of(alloc, &file, translation)?;
    walked_on(alloc, &net, asked)
}
