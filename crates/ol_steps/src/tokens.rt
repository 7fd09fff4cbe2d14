//! What is seen of a text of the grammar, token by token, if only names of binders are kept.

ghost use Rattle.std.specs.Prelude.{◌≡◌, ◌<◌, [], ◌∷◌, length, IfNone, IfSome, IfOk, OnOk};
ghost use Rattle.std.specs.Option.{option_map};
ghost use Rattle.ol_steps.specs.Trees.{binders_in};
ghost use Rattle.ol_steps.specs.Sights.{closed, defined, finish, if_whole, join, result_of, take};
ghost use Rattle.ol_steps.specs.Sights as sight;
ghost use Rattle.ol_steps.specs.SeenTokens.{frame_in, frames_in, sight_of, token_in, IsEnded};

use crate::trees::BinderTree;
use ol_limits::NoMemory;
use std::alloc::Global;

/// A token.
#[derive(Clone, Copy)]
pub enum Token<'a> {
    Name(&'a [u8]),
    Let,
    In,
    Lambda,
    Dot,
    Equals,
    Open,
    Close,
}

/// What is open round a place: a spine that a body is for, an abstraction, a `let` behind its `in`
/// with the names of its value, a bracket and the spine before it, a `let` before its `in`.
#[derive(Drop)]
pub enum Round<'a> {
    Applied(Option<BinderTree>),
    Abstracted(&'a [u8]),
    Bound(&'a [u8], BinderTree),
    Bracket(Option<BinderTree>),
    Defining(&'a [u8]),
}

/// What stops a term: the end of what is open, a bracket and the spine before it, or a `let` that
/// waits for its `in`.
#[derive(Drop)]
pub enum Closer<'a> {
    Nothing,
    Bracket(Option<BinderTree>),
    Let(&'a [u8]),
}

/// Where the reader is: in a term, behind the spine that stands there; behind a λ; behind `let`.
#[derive(Drop)]
pub enum Reading {
    Term(Option<BinderTree>),
    Binders,
    LetName,
}

// One more thing that is open.
#[tactic(auto, using(crate::proofs::Frames::frames_push))]
fn push<'a>(rounds: &mut Vec<Round<'a>>, round: Round<'a>) -> Result<(), NoMemory>
    ensures { OnOk result (frames_in rounds.new.items
        ≡ frame_in round.entry ∷ frames_in rounds.old.items) }
{
    rounds.push(round)?;
    Ok(())
}

// The innermost thing that is open, taken off.
#[tactic(auto, using(crate::proofs::Frames::frames_push))]
fn pop<'a>(rounds: &mut Vec<Round<'a>>) -> Option<Round<'a>>
    ensures none { IfNone result (frames_in rounds.old.items ≡ []) }
    ensures none_left { IfNone result (frames_in rounds.new.items ≡ []) }
    ensures some { IfSome result (λ r. frames_in rounds.old.items
        ≡ frame_in r ∷ frames_in rounds.new.items) }
    ensures fewer { IfSome result (λ r. length rounds.new.items < length rounds.old.items) }
{
    match rounds.pop() {
        Some(round) => Some(round),
        None => None,
    }
}

// A spine, applied to what follows it.
fn joined(
    alloc: Global,
    spine: Option<BinderTree>,
    argument: BinderTree,
) -> Result<BinderTree, NoMemory>
    ensures { IfOk result (λ t. binders_in t
        ≡ join (option_map binders_in spine) (binders_in argument)) }
{
    match spine {
        Some(function) => {
            let tree = BinderTree::parts(alloc, function, argument)?;
            Ok(tree)
        }
        None => Ok(argument),
    }
}

// A term is whole: the names of what it ends, and what stops it, taken off.
fn finish<'a>(
    alloc: Global,
    whole: BinderTree,
    rounds: &mut Vec<Round<'a>>,
) -> Result<(BinderTree, Closer<'a>), NoMemory>
    ensures { IfOk result (λ r. IsEnded (finish (binders_in whole) (frames_in rounds.old.items))
        (binders_in r.0) r.1 rounds.new.items) }
{
    let mut tree = whole;
    'ends: while let Some(round) = pop(rounds) {
        match round {
            Round::Applied(spine) => {
                tree = joined(alloc, spine, tree)?;
            }
            Round::Abstracted(name) => {
                tree = BinderTree::binder(alloc, name, tree)?;
            }
            Round::Bound(name, value) => {
                let function = BinderTree::binder(alloc, name, tree)?;
                tree = BinderTree::parts(alloc, function, value)?;
            }
            Round::Bracket(spine) => return Ok((tree, Closer::Bracket(spine))),
            Round::Defining(name) => return Ok((tree, Closer::Let(name))),
        }
    }
    Ok((tree, Closer::Nothing))
}

// A right bracket behind a term.
fn take_close<'a>(
    alloc: Global,
    spine: Option<BinderTree>,
    rounds: &mut Vec<Round<'a>>,
) -> Result<Reading, NoMemory>
    ensures { IfOk result (λ r. sight_of r rounds.new.items
        ≡ if_whole (option_map binders_in spine) (frames_in rounds.old.items) closed) }
{
    let Some(whole) = spine else {
        return Ok(Reading::Term(None));
    };
    let (whole, closer) = finish(alloc, whole, rounds)?;
    match closer {
        Closer::Bracket(before) => {
            let tree = joined(alloc, before, whole)?;
            Ok(Reading::Term(Some(tree)))
        }
        Closer::Let(_name) => Ok(Reading::Term(Some(whole))),
        Closer::Nothing => Ok(Reading::Term(Some(whole))),
    }
}

// An `in` behind a term.
fn take_in<'a>(
    alloc: Global,
    spine: Option<BinderTree>,
    rounds: &mut Vec<Round<'a>>,
) -> Result<Reading, NoMemory>
    ensures { IfOk result (λ r. sight_of r rounds.new.items
        ≡ if_whole (option_map binders_in spine) (frames_in rounds.old.items) defined) }
{
    let Some(whole) = spine else {
        return Ok(Reading::Term(None));
    };
    let (whole, closer) = finish(alloc, whole, rounds)?;
    match closer {
        Closer::Let(name) => {
            push(rounds, Round::Bound(name, whole))?;
            Ok(Reading::Term(None))
        }
        Closer::Bracket(_spine) => Ok(Reading::Term(Some(whole))),
        Closer::Nothing => Ok(Reading::Term(Some(whole))),
    }
}

// A token in a term.
fn take_in_term<'a>(
    alloc: Global,
    spine: Option<BinderTree>,
    token: Token<'a>,
    rounds: &mut Vec<Round<'a>>,
) -> Result<Reading, NoMemory>
    ensures { IfOk result (λ r. sight_of r rounds.new.items
        ≡ take (sight.at (option_map binders_in spine) (frames_in rounds.old.items))
        (token_in token.entry)) }
{
    match token {
        Token::Name(_) => {
            let tree = joined(alloc, spine, BinderTree::Leaf)?;
            Ok(Reading::Term(Some(tree)))
        }
        Token::Open => {
            push(rounds, Round::Bracket(spine))?;
            Ok(Reading::Term(None))
        }
        Token::Lambda => {
            push(rounds, Round::Applied(spine))?;
            Ok(Reading::Binders)
        }
        Token::Let => {
            push(rounds, Round::Applied(spine))?;
            Ok(Reading::LetName)
        }
        Token::Close => {
            let reading = take_close(alloc, spine, rounds)?;
            Ok(reading)
        }
        Token::In => {
            let reading = take_in(alloc, spine, rounds)?;
            Ok(reading)
        }
        Token::Dot => Ok(Reading::Term(spine)),
        Token::Equals => Ok(Reading::Term(spine)),
    }
}

/// Takes a token.
pub fn take<'a>(
    alloc: Global,
    reading: Reading,
    token: Token<'a>,
    rounds: &mut Vec<Round<'a>>,
) -> Result<Reading, NoMemory>
    ensures { IfOk result (λ r. sight_of r rounds.new.items
        ≡ take (sight_of reading rounds.old.items) (token_in token.entry)) }
{
    match reading {
        Reading::Term(spine) => {
            let next = take_in_term(alloc, spine, token, rounds)?;
            Ok(next)
        }
        Reading::Binders => match token {
            Token::Name(name) => {
                push(rounds, Round::Abstracted(name))?;
                Ok(Reading::Binders)
            }
            Token::Dot => Ok(Reading::Term(None)),
            Token::Let | Token::In | Token::Lambda => Ok(Reading::Binders),
            Token::Equals | Token::Open | Token::Close => Ok(Reading::Binders),
        },
        Reading::LetName => match token {
            Token::Name(name) => {
                push(rounds, Round::Defining(name))?;
                Ok(Reading::Term(None))
            }
            Token::Let | Token::In | Token::Lambda | Token::Dot => Ok(Reading::LetName),
            Token::Equals | Token::Open | Token::Close => Ok(Reading::LetName),
        },
    }
}

/// The names of the whole, at its end.
pub fn ended<'a>(
    alloc: Global,
    reading: Reading,
    rounds: &mut Vec<Round<'a>>,
) -> Result<BinderTree, NoMemory>
    ensures { IfOk result (λ t. binders_in t ≡ result_of (sight_of reading rounds.old.items)) }
{
    match reading {
        Reading::Term(Some(whole)) => {
            let (tree, _closer) = finish(alloc, whole, rounds)?;
            Ok(tree)
        }
        Reading::Term(None) => Ok(BinderTree::Leaf),
        Reading::Binders => Ok(BinderTree::Leaf),
        Reading::LetName => Ok(BinderTree::Leaf),
    }
}
