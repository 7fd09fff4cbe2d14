//! The position of a variable in a list of wires.

ghost use Rattle.std.specs.Prelude.{◌≡◌, None, Some, slice_get, OnOk, IfErr, MatchOption};
ghost use Rattle.ol_translate.specs.Translation.{wire_of};
ghost use Rattle.ol_translate.specs.Growth.{IsPlaced, HaveOneEach, IsIndex, KeepsOthers};
ghost use Rattle.ol_translate.specs.declared.faults.TransFault.TheVariants.{TooMany};

use crate::faults::TransFault;
use crate::wires::Wire;
use std::alloc::Global;

/// The position of each variable's wire in a list of wires. The entry for a variable without a wire
/// in the list has no meaning.
#[derive(Drop)]
pub struct Index {
    pub places: Vec<usize>,
}

impl Index {
    /// An empty index.
    pub fn new(alloc: Global) -> Index {
        Index {
            places: Vec::new(alloc),
        }
    }

    /// Notes the position of a variable's wire.
    pub fn note(&mut self, variable: usize, place: usize) -> Result<(), TransFault>
        ensures noted { OnOk result (slice_get self.new.places.items variable ≡ Some place) }
        ensures kept { OnOk result (
            KeepsOthers variable self.old.places.items self.new.places.items) }
        ensures refusal { IfErr result (λ e. e ≡ TooMany → ⊥) }
    {
        if variable == usize::MAX {
            // No memory holds so many places.
            return Err(TransFault::NoMemory);
        }
        if variable >= self.places.len() {
            self.places.resize(variable + 1, 0)?;
        }
        self.places[variable] = place;
        Ok(())
    }

    /// Notes the positions of all these wires.
    pub fn fill(&mut self, wires: &Vec<Wire>) -> Result<(), TransFault>
        requires one_each { HaveOneEach wires.now.items }
        ensures index { OnOk result (IsIndex self.new.places.items wires.now.items) }
        ensures refusal { IfErr result (λ e. e ≡ TooMany → ⊥) }
    {
        for (place, wire) in wires.iter().enumerate() {
            self.note(wire.0, place)?;
        }
        Ok(())
    }

    /// The position of a variable's wire, or `None` if the list has none.
    pub fn place_of(&self, wires: &Vec<Wire>, variable: usize) -> Option<usize>
        requires { IsIndex self.now.places.items wires.now.items }
        ensures { MatchOption result (wire_of variable wires.now.items ≡ None)
            (λ place. IsPlaced variable wires.now.items place) }
    {
        if variable >= self.places.len() {
            return None;
        }
        let place = self.places[variable];
        if place >= wires.len() {
            return None;
        }
        if wires[place].0 != variable {
            return None;
        }
        Some(place)
    }
}
