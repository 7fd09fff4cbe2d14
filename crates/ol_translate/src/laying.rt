//! The recursive construction of nodes and links.

ghost use Rattle.std.specs.Prelude.{◌≡◌, ℕ, ◌^◌, All, ◌≤◌, ◌<◌, ◌+◌, ◌++◌, [], ◌∷◌, length, IfOk, OnOk, IfErr};
ghost use Rattle.ol_term.specs.Trees.{tree_of};
ghost use Rattle.ol_translate.specs.Translation.{nodes_of, links_of, name_links, occurrence, subnet_of, wire_of, outside, slot_port, erasers, bound_port, bracket_nodes, bracket_links, past_brackets, fans, fan_nodes, fan_links, merged};
ghost use Rattle.ol_translate.specs.Growth.{next_number, Lays, Adds, OnlyAbove, HaveOneEach, IsIndex};
ghost use Rattle.ol_translate.specs.Names.{HasNames};
ghost use Rattle.ol_limits.specs.Limits.{most_nodes};
ghost use Rattle.ol_translate.specs.declared.faults.TransFault.TheVariants.{TooMany};

use crate::faults::TransFault;
use crate::index::Index;
use crate::parts::Parts;
use crate::wires::{Ends, Wire, bare_variable, find_wire, slot_of};
use ol_net::{Kind, Port};
use ol_term::{Term, Translation};
use std::alloc::Global;

impl Parts {
    /// A whole term, at level 0. Its root is linked to free port 0, and the wire of each name to
    /// the free port of the name.
    pub fn whole(alloc: Global, term: &Term, translation: Translation) -> Result<Parts, TransFault>
        requires { (names : ℕ) × HasNames (tree_of term.now) names }
        ensures nodes { IfOk result (λ parts.
            parts.nodes.items ≡ nodes_of translation (tree_of term.now)) }
        ensures links { IfOk result (λ parts.
            parts.links.items ≡ links_of translation (tree_of term.now)) }
        ensures too_many { IfErr result (λ e.
            OnlyAbove (length (nodes_of translation (tree_of term.now))) e) }
    {
        let mut parts = Parts {
            alloc,
            nodes: Vec::new(alloc),
            links: Vec::new(alloc),
            index: Index::new(alloc),
        };
        let ends = parts.part(translation, term, 0, 0)?;
        parts.join(Port::Free(0), ends.root)?;
        parts.join_names(&ends.wires)?;
        Ok(parts)
    }

    /// The wire of each name is joined to the name's free port.
    fn join_names(&mut self, wires: &Vec<Wire>) -> Result<(), TransFault>
        requires few { All (λ w. w.0 < 2 ^ 31) wires.now.items }
        ensures links { OnOk result (self.new.links.items
            ≡ self.old.links.items ++ name_links wires.now.items) }
        ensures nodes { self.new.nodes.items ≡ self.old.nodes.items }
        ensures refusal { IfErr result (λ e. e ≡ TooMany → ⊥) }
    {
        for wire in wires {
            self.join(Port::Free((wire.0 + 1) as u32), wire.1)?;
        }
        Ok(())
    }

    /// A subterm with `depth` enclosing abstractions, at a level.
    pub fn part(
        &mut self,
        translation: Translation,
        term: &Term,
        depth: usize,
        level: u32,
    ) -> Result<Ends, TransFault>
        requires few_abstractions { depth ≤ length self.old.nodes.items }
        requires few_levels { level ≤ length self.old.nodes.items }
        ensures lays { IfOk result (λ ends. Lays self.old
            (subnet_of translation (tree_of term.now) depth level (next_number self.old))
            self.new ends) }
        ensures too_many { IfErr result (λ e.
            let b = next_number self.old in
            OnlyAbove (b + length (subnet_of translation (tree_of term.now) depth level b).nodes)
            e) }
    {
        match term {
            Term::Var(variable) => self.occurrence(*variable as usize, level),
            Term::Free(name) => self.occurrence(depth + *name as usize, level),
            Term::Lam(body) => {
                let number = self.add(Kind::Lam, level)?;
                let body = self.part(translation, body, depth + 1, level)?;
                self.abstraction(number, &body)
            }
            Term::App(function, argument) => {
                let variable = bare_variable(translation, depth, argument);
                let number = self.add(Kind::App, level)?;
                let function = self.part(translation, function, depth, level)?;
                match variable {
                    Some(variable) => self.application_to(number, level, variable, function),
                    None => {
                        let argument = self.part(translation, argument, depth, level + 1)?;
                        self.application(number, level, function, &argument)
                    }
                }
            }
        }
    }

    fn occurrence(&mut self, variable: usize, level: u32) -> Result<Ends, TransFault>
        ensures lays { IfOk result (λ ends. Lays self.old
            (occurrence variable level (next_number self.old)) self.new ends) }
        ensures too_many { IfErr result (λ e. e ≡ TooMany → most_nodes ≤ next_number self.old) }
    {
        let number = self.add(Kind::Croissant, level)?;
        let mut wires = Vec::new(self.alloc);
        wires.push((variable, slot_of(number, 0)))?;
        Ok(Ends {
            root: slot_of(number, 1),
            wires,
        })
    }

    /// The joins of abstraction `number`, after the nodes of its body.
    fn abstraction(&mut self, number: u32, body: &Ends) -> Result<Ends, TransFault>
        ensures adds { OnOk result (
            let x = wire_of 0 body.now.wires.items in
            Adds self.old self.new (erasers x)
            ((slot_port number 1, body.now.root)
            ∷ (slot_port number 2, bound_port x (next_number self.old)) ∷ [])) }
        ensures ends { IfOk result (λ ends. (ends.root ≡ slot_port number 0)
            × (ends.wires.items ≡ outside body.now.wires.items)) }
        ensures too_many { IfErr result (λ e.
            let x = wire_of 0 body.now.wires.items in
            OnlyAbove (next_number self.old + length (erasers x)) e) }
    {
        let bound = match find_wire(&body.wires, 0) {
            Some(port) => port,
            None => slot_of(self.add(Kind::Eraser, 0)?, 0),
        };
        self.join(slot_of(number, 1), body.root)?;
        self.join(slot_of(number, 2), bound)?;
        let wires: Vec<Wire> = body
            .wires
            .iter()
            .filter(|w| w.0 > 0)
            .map(|w| (w.0.saturating_sub(1), w.1))
            .collect(self.alloc)?;
        Ok(Ends {
            root: slot_of(number, 0),
            wires,
        })
    }

    /// The joins of application `number`, after the nodes of its two terms.
    fn application(
        &mut self,
        number: u32,
        level: u32,
        function: Ends,
        argument: &Ends,
    ) -> Result<Ends, TransFault>
        requires one_each { HaveOneEach function.wires.items }
        ensures adds { IfOk result (λ ends.
            let b = next_number self.old in
            let more = argument.now.wires.items in
            let F = fans level (b + length more) function.wires.items (past_brackets b more) in
            Adds self.old self.new (bracket_nodes level more ++ F.nodes)
            (((slot_port number 0, function.root) ∷ (slot_port number 2, argument.now.root) ∷ [])
            ++ (bracket_links b more ++ F.links))
            × (ends.root ≡ slot_port number 1) × (ends.wires.items ≡ F.wires)) }
        ensures too_many { IfErr result (λ e.
            let b = next_number self.old in
            let more = argument.now.wires.items in
            let F = fans level (b + length more) function.wires.items (past_brackets b more) in
            OnlyAbove (b + length (bracket_nodes level more) + length F.nodes) e) }
    {
        let mut wires = function.wires;
        self.join(slot_of(number, 0), function.root)?;
        self.join(slot_of(number, 2), argument.root)?;
        let bracketed = self.brackets(level, &argument.wires)?;
        self.fans(level, &mut wires, &bracketed)?;
        Ok(Ends {
            root: slot_of(number, 1),
            wires,
        })
    }

    /// The joins of application `number` to a variable, after the nodes of its function. Slot 2 of
    /// the application is the variable's wire.
    fn application_to(
        &mut self,
        number: u32,
        level: u32,
        variable: usize,
        function: Ends,
    ) -> Result<Ends, TransFault>
        requires one_each { HaveOneEach function.wires.items }
        ensures adds { IfOk result (λ ends.
            let more = (variable, slot_port number 2) ∷ [] in
            let F = fans level (next_number self.old) function.wires.items more in
            Adds self.old self.new F.nodes ((slot_port number 0, function.root) ∷ F.links)
            × (ends.root ≡ slot_port number 1) × (ends.wires.items ≡ F.wires)) }
        ensures too_many { IfErr result (λ e.
            let b = next_number self.old in
            let more = (variable, slot_port number 2) ∷ [] in
            OnlyAbove (b + length (fans level b function.wires.items more).nodes) e) }
    {
        let mut wires = function.wires;
        self.join(slot_of(number, 0), function.root)?;
        let mut more = Vec::new(self.alloc);
        more.push((variable, slot_of(number, 2)))?;
        self.fans(level, &mut wires, &more)?;
        Ok(Ends {
            root: slot_of(number, 1),
            wires,
        })
    }

    /// A bracket on each wire.
    fn brackets(&mut self, level: u32, wires: &Vec<Wire>) -> Result<Vec<Wire>, TransFault>
        ensures adds { IfOk result (λ out.
            let b = next_number self.old in
            Adds self.old self.new
            (bracket_nodes level wires.now.items) (bracket_links b wires.now.items)
            × (out.items ≡ past_brackets b wires.now.items)) }
        ensures too_many { IfErr result (λ e.
            OnlyAbove (next_number self.old + length (bracket_nodes level wires.now.items)) e) }
    {
        let mut out = Vec::new(self.alloc);
        for wire in wires {
            let number = self.add(Kind::Bracket, level)?;
            self.join(slot_of(number, 1), wire.1)?;
            out.push((wire.0, slot_of(number, 0)))?;
        }
        Ok(out)
    }

    /// The wires of an argument join those of its function.
    fn fans(
        &mut self,
        level: u32,
        wires: &mut Vec<Wire>,
        more: &Vec<Wire>,
    ) -> Result<(), TransFault>
        requires one_each { HaveOneEach wires.old.items }
        ensures adds { OnOk result (
            let F = fans level (next_number self.old) wires.old.items more.now.items in
            Adds self.old self.new F.nodes F.links × (wires.new.items ≡ F.wires)) }
        ensures too_many { IfErr result (λ e.
            let b = next_number self.old in
            OnlyAbove (b + length (fans level b wires.old.items more.now.items).nodes) e) }
    {
        self.index.fill(wires)?;
        for wire in more {
            self.fan(level, wires, *wire)?;
        }
        Ok(())
    }

    /// A fan for a variable that has a wire already, else its own wire, last.
    fn fan(&mut self, level: u32, wires: &mut Vec<Wire>, wire: Wire) -> Result<(), TransFault>
        requires index { IsIndex self.old.index.places.items wires.old.items }
        ensures index { OnOk result (IsIndex self.new.index.places.items wires.new.items) }
        ensures adds { OnOk result (
            let b = next_number self.old in
            let x = wire_of wire.0 wires.old.items in
            Adds self.old self.new (fan_nodes level x) (fan_links b x wire.1)
            × (wires.new.items ≡ merged b x wire wires.old.items)) }
        ensures too_many { IfErr result (λ e.
            let x = wire_of wire.0 wires.old.items in
            OnlyAbove (next_number self.old + length (fan_nodes level x)) e) }
    {
        match self.index.place_of(wires, wire.0) {
            None => {
                self.index.note(wire.0, wires.len())?;
                wires.push(wire)?;
            }
            Some(place) => {
                let number = self.add(Kind::Fan, level)?;
                let port = wires[place].1;
                self.join(slot_of(number, 1), port)?;
                self.join(slot_of(number, 2), wire.1)?;
                wires[place] = (wire.0, slot_of(number, 0));
            }
        }
        Ok(())
    }
}
