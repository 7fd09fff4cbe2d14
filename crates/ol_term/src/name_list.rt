//! Lists of names, each found by an index.

ghost use Rattle.std.specs.Prelude.{◌≡◌, ◌≢◌, ℕ, ◌+◌, ◌^◌, ◌<◌, ◌≤◌, ◌↔◌, List, [], ◌∷◌, ◌++◌, Some, IfOk, OnOk, OnErr, IfSome, IsNone, length, map, slice_get, take};
ghost use Rattle.std.specs.BTreeMap.{insert_entry};
ghost use Rattle.std.specs.Option.{option_map};
ghost use Rattle.ol_term.specs.NameLists.{IsFirstPlace, NoNameTwice, position_of, put_unless, with_names};
ghost use Rattle.ol_term.specs.NameIndexes.{by_bytes};
ghost use Rattle.ol_term.specs.NameFinds.{IsIndexed, found};

use ol_limits::NoMemory;
use std::alloc::Global;
use std::collections::BTreeMap;
use std::marker::Model;

/// A list of different names, each a list of bytes, numbered from 0.
#[derive(Drop)]
pub struct Names {
    alloc: Global,
    rows: Vec<Vec<u8>>,
    index: BTreeMap<Vec<u8>, u32>,
}

impl Model for Names {
    ghost Value = { List (List ℕ) };

    ghost view = { λ n. map (λ row. row.items) n.rows.items };

    ghost invariant = { λ n. IsIndexed (map (λ row. row.items) n.rows.items) n.index.entries };
}

impl Names {
    /// No names.
    pub fn new(alloc: Global) -> Names
        ensures { result ≡ [] }
    {
        Names {
            alloc,
            rows: Vec::new(alloc),
            index: BTreeMap::new(alloc),
        }
    }

    /// The number of names.
    pub fn len(&self) -> u32
        ensures { result ≡ length self.now }
    {
        self.rows.len() as u32
    }

    /// Theorem: the names are different, and there are fewer than 2^32.
    pub fn are_different(&self)
        ensures different { NoNameTwice self.now }
        ensures few { length self.now < 2 ^ 32 }
    {
        let _ = &self.rows;
    }

    /// The name with number `k`. `None`: `k` isn't less than `len`.
    pub fn get(&self, k: u32) -> Option<&[u8]>
        ensures name { option_map (λ name. name.now) result ≡ slice_get self.now k }
        ensures none { IsNone result ↔ (length self.now ≤ k) }
    {
        let row = self.rows.get(k as usize)?;
        Some(row.as_slice())
    }

    /// The number of this name. `None`: the list doesn't contain it.
    pub fn find(&self, name: &[u8]) -> Option<u32>
        ensures place { IfSome result (λ k. IsFirstPlace self.now name.now k) }
        ensures none { IsNone result ↔ ((j : ℕ) → slice_get self.now j ≢ Some name.now) }
    {
        found_in(&self.index, name)
    }

    /// The number of this name, which is appended if the list doesn't contain it. The list has
    /// fewer than 4,294,967,295 names before. `NoMemory`: no memory was found, and the list is
    /// unchanged.
    pub fn add(&mut self, name: &[u8]) -> Result<u32, NoMemory>
        requires { length self.old < 4294967295 }
        ensures number { IfOk result (λ k. IsFirstPlace self.new name.now k) }
        ensures known { IfOk result (λ k. k < length self.old → self.new ≡ self.old) }
        ensures last { IfOk result (λ k.
            length self.old ≤ k → self.new ≡ self.old ++ name.now ∷ []) }
        ensures refusal { OnErr result (self.new ≡ self.old) }
    {
        if let Some(k) = found_in(&self.index, name) {
            return Ok(k);
        }
        let number = self.rows.len() as u32;
        let row = Vec::from_slice(self.alloc, name)?;
        let key = Vec::from_slice(self.alloc, name)?;
        self.rows.push(row)?;
        match put(&mut self.index, key, number) {
            Ok(()) => Ok(number),
            Err(NoMemory) => {
                let _ = self.rows.pop();
                Err(NoMemory)
            }
        }
    }

    /// Appends the names of another list, each unless this list contains it. `NoMemory`: no memory
    /// was found for a name, and only those before it were appended.
    pub fn add_all(&mut self, names: &Names) -> Result<(), NoMemory>
        ensures all { OnOk result (self.new ≡ with_names self.old names.now) }
        ensures refusal { OnErr result
            ((k : ℕ) × (self.new ≡ with_names self.old (take k names.now))) }
    {
        for k in 0..names.len() {
            let Some(name) = names.get(k) else {
                unreachable!()
            };
            add_name(self, name)?;
        }
        Ok(())
    }
}

// Appends a name, unless the list contains it. A list has fewer than 2^32 names, each of which
// takes memory.
fn add_name(list: &mut Names, name: &[u8]) -> Result<(), NoMemory>
    ensures added { OnOk result
        (list.new ≡ put_unless (position_of name.now list.old) list.old name.now) }
    ensures refusal { OnErr result (list.new ≡ list.old) }
{
    if list.len() == u32::MAX {
        return Err(NoMemory);
    }
    list.add(name)?;
    Ok(())
}

fn found_in(index: &BTreeMap<Vec<u8>, u32>, name: &[u8]) -> Option<u32>
    ensures { result ≡ found name.now index.now.entries }
{
    index.get(name).copied()
}

fn put(index: &mut BTreeMap<Vec<u8>, u32>, key: Vec<u8>, number: u32) -> Result<(), NoMemory>
    ensures put { OnOk result (index.new.entries
        ≡ insert_entry by_bytes index.old.entries key number) }
    ensures refusal { OnErr result (index.new.entries ≡ index.old.entries) }
{
    index.insert(key, number)?;
    Ok(())
}
