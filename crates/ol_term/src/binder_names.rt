//! Names of binders: a to z, then a1 to z1, a2 to z2 and so on, except the free names.

ghost use Rattle.std.specs.Prelude.{◌≡◌, ℕ, ◌+◌, ◌<◌, ◌++◌, List, length, slice_index_or, IfOk, OnOk};
ghost use Rattle.std.specs.Fmt.{decimal};
ghost use Rattle.ol_term.specs.BinderNames.{candidate, is_among, fresh_from, binder_number, binder_name};
ghost use Rattle.ol_term.specs.BinderNumbers.{AreNumbers, IsStart};

use crate::name_list::Names;
use ol_limits::NoMemory;
use std::alloc::{AllocError, Global};
use std::marker::Model;

const LETTERS: u64 = 26;

fn write_number(alloc: Global, text: &mut Vec<u8>, number: u64) -> Result<(), AllocError>
    ensures { OnOk result (text.new.items ≡ text.old.items ++ decimal number) }
{
    let digits = number.to_string(alloc)?;
    text.extend_from_slice(digits.as_bytes())?;
    Ok(())
}

fn write_candidate(alloc: Global, text: &mut Vec<u8>, number: u64) -> Result<(), AllocError>
    ensures { OnOk result (text.new.items ≡ text.old.items ++ candidate number) }
{
    text.push(b'a' + (number % LETTERS) as u8)?;
    let round = number / LETTERS;
    if round == 0 {
        return Ok(());
    }
    write_number(alloc, text, round)?;
    Ok(())
}

// Adds name `number` of the whole sequence to the text.
fn put_candidate(alloc: Global, text: &mut Vec<u8>, number: u64) -> Result<(), NoMemory>
    ensures { OnOk result (text.new.items ≡ text.old.items ++ candidate number) }
{
    write_candidate(alloc, text, number)?;
    Ok(())
}

// Whether this text is one of the names.
fn is_name(names: &Names, text: &[u8]) -> bool
    ensures { result ≡ is_among names.now text.now }
{
    match names.find(text) {
        Some(_) => true,
        None => false,
    }
}

// Whether name `number` of the whole sequence is a free name.
fn is_taken(alloc: Global, names: &Names, number: u64) -> Result<bool, NoMemory>
    ensures { IfOk result (λ r. r ≡ is_among names.now (candidate number)) }
{
    let mut text = Vec::new(alloc);
    put_candidate(alloc, &mut text, number)?;
    Ok(is_name(names, text.as_slice()))
}

// The first number from `number` on whose name is no free name.
fn next_fresh(alloc: Global, names: &Names, number: u64) -> Result<u64, NoMemory>
    ensures { IfOk result (λ m. m ≡ fresh_from names.now (length names.now) number) }
{
    let mut m = number;
    for passed in 0..names.len() {
        let taken = is_taken(alloc, names, m)?;
        if !taken {
            return Ok(m);
        }
        if m == u64::MAX {
            return Err(NoMemory);
        }
        m += 1;
    }
    Ok(m)
}

// The number from which to look for the next binder's name.
fn start_of(numbers: &Vec<u64>) -> Result<u64, NoMemory>
    ensures { IfOk result (λ m. IsStart numbers.now.items m) }
{
    let count = numbers.len();
    if count == 0 {
        return Ok(0);
    }
    let last = numbers[count - 1];
    if last == u64::MAX {
        return Err(NoMemory);
    }
    Ok(last + 1)
}

// The number of the name of a binder with `t` binders round it. `numbers` keeps those of the first
// binders.
fn number_of(
    alloc: Global,
    names: &Names,
    numbers: &mut Vec<u64>,
    t: usize,
) -> Result<u64, NoMemory>
    requires { AreNumbers names.now numbers.old.items }
    ensures number { IfOk result (λ m. m ≡ binder_number names.now t) }
    ensures numbers { AreNumbers names.now numbers.new.items }
{
    'fill: while numbers.len() <= t {
        let start = start_of(numbers)?;
        let number = next_fresh(alloc, names, start)?;
        numbers.push(number)?;
    }
    Ok(numbers[t])
}

/// The names with which binders are printed, for a list of free names.
///
/// The sequence is a to z, then a1 to z1, a2 to z2 and so on, except the free names. A binder with
/// t enclosing binders has name number t, from 0. Contracts view it as the list of free names.
#[derive(Drop)]
pub struct BinderNames<'a> {
    alloc: Global,
    names: &'a Names,
    numbers: Vec<u64>,
}

impl<'a> Model for BinderNames<'a> {
    ghost Value = { List (List ℕ) };

    ghost view = { λ b. b.names.now };

    ghost invariant = { λ b. AreNumbers b.names.now b.numbers.items };
}

impl<'a> BinderNames<'a> {
    /// The names of binders for these free names.
    pub fn new(alloc: Global, names: &'a Names) -> BinderNames<'a>
        ensures { result ≡ names.now }
    {
        BinderNames {
            alloc,
            names,
            numbers: Vec::new(alloc),
        }
    }

    /// Appends the name of a binder with `t` enclosing binders to the text. `NoMemory`: no memory
    /// was found; the text may then end with a part of the name.
    pub fn put(&mut self, text: &mut Vec<u8>, t: usize) -> Result<(), NoMemory>
        ensures text { OnOk result (text.new.items ≡ text.old.items ++ binder_name self.old t) }
        ensures names { self.new ≡ self.old }
    {
        let names = self.names;
        let number = number_of(self.alloc, names, &mut self.numbers, t)?;
        put_candidate(self.alloc, text, number)?;
        Ok(())
    }
}
