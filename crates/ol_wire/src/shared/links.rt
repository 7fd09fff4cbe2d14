//! The links that an interaction makes. Each link is made by exchanges with the words of wires and
//! of free ports, until an empty word has taken one of its ends or both ends are nodes.
ghost use Rattle.std.specs.Prelude.{◌≡◌, ◌≢◌, ℕ, suc, ◌+◌, ◌*◌, ◌^◌, ◌<◌, ◌≤◌, ◌⊎◌, [], Some, MatchOption, IfSome, slice_index};
ghost use Rattle.ol_wire.specs.References.{place_in, IsNodeRef, IsWireRef};
ghost use Rattle.ol_wire.specs.Layout.{table_size};
ghost use Rattle.ol_wire.specs.StepPlays.{IsRefOf, linked, moved, publishing};
ghost use Rattle.ol_wire.specs.Credit.{active_in};
ghost use Rattle.ol_wire.specs.LinkSteps.{spread};
ghost use Rattle.ol_wire.specs.Tokens.{IsTokenOf, IsSameSeat};
ghost use Rattle.ol_wire.specs.Links.{link_between, IsEndOf, IsNext, AreNext, IsLinked, AreOpenEnds, HasExchanged, AreRefsOf, LosesWire};
ghost use Rattle.ol_wire.specs.TurnParts.{IsBegun, AreLinked};

use crate::begun::Begun;
use crate::plays::{Links, Places, Publishes};
use crate::reference::{is_node, place_in};
use crate::rewrite::active_in;
use crate::seat::Token;
use crate::shared::Shared;

// Of two ends of which one is no node, the first such one, and then the other.
fn open_end(one: u64, two: u64) -> Option<(u64, u64)>
    ensures { MatchOption result (IsNodeRef one × IsNodeRef two) (AreOpenEnds one two) }
{
    if !is_node(one) {
        return Some((one, two));
    }
    if !is_node(two) {
        return Some((two, one));
    }
    None
}

// The bit of a join in the mask.
fn bit(join: u32) -> u8
    requires { join < 4 }
    ensures { result ≡ 2 ^ join }
{
    match join {
        0 => 1,
        1 => 2,
        2 => 4,
        _ => 8,
    }
}

impl Shared {
    // Makes the links of a rewrite, and takes from the live word what they didn't come to. Bit j of
    // the answer is set where the pair of join j was published.
    pub(crate) fn link_all(&self, token: &mut Token, begun: &Begun) -> u8
        requires token { IsTokenOf self.now token.old }
        requires begun { IsBegun self.now.plan.parts token.old.me.0 begun.now }
        ensures token { IsSameSeat token.old token.new }
        ensures view { AreLinked self.now.plan.parts token.old.me.0 begun.now result
            token.new.me.0 }
    {
        let copies = begun.copies(self.parts);
        let first_cell = self.parts.born_cell(begun.ticket, 0);
        let joins = begun.rewrite.joins();
        let mut mask: u8 = 0;
        let mut owed = joins + 1;
        for j in 0..joins {
            let (one, two) = begun.ends(&copies, j);
            let cell = first_cell + 2 * j;
            if let Some(active) = self.link(token, cell, one, two) {
                mask += bit(j);
                owed -= active;
            }
        }
        self.repay(token, owed);
        mask
    }

    // Makes the first pending link, and tells whether its pair was published, and then whether it
    // is active, as a number. `cell` is the left word of its cell.
    fn link(&self, token: &mut Token, cell: u32, one: u64, two: u64) -> Option<u32>
        requires token { IsTokenOf self.now token.old }
        requires next { IsNext token.old.me.0 cell one two }
        requires ends { IsEndOf self.now.plan.parts one × IsEndOf self.now.plan.parts two }
        requires cell { suc cell < table_size self.now.plan.parts }
        ensures token { IsSameSeat token.old token.new }
        ensures view { IsLinked token.old.me.0 cell result token.new.me.0 }
        ensures small { IfSome result (λ n. n ≤ 1) }
    {
        let mut a = one;
        let mut b = two;
        loop {
            let Some((wire, other)) = open_end(a, b) else {
                return Some(self.publish(token, cell, a, b));
            };
            let Some(found) = self.exchange(token, wire, other) else {
                return None;
            };
            a = other;
            b = found;
        }
    }

    // Puts `other` into the word of `wire`, where these are the ends of the first pending link, and
    // gives what stood there.
    fn exchange(&self, token: &mut Token, wire: u64, other: u64) -> Option<u64>
        requires token { IsTokenOf self.now token.old }
        requires next { AreNext token.old.me.0 wire other }
        requires wire { IsWireRef wire × (place_in wire < table_size self.now.plan.parts) }
        ensures token { IsSameSeat token.old token.new }
        ensures view { HasExchanged token.old.me.0 wire other result token.new.me.0 }
        ensures ends { IfSome result (AreRefsOf self.now.plan.parts other) }
        ensures falls { IfSome result (λ found. LosesWire self.now token.old.me.0 token.new.me.0) }
    {
        let place = self.parts.word_of(wire);
        let found = self
            .table
            .shared
            .swap::<Links>(token, place as usize, other);
        if found == 0 { None } else { Some(found) }
    }

    // Writes the two nodes of the first pending link into its cell, the right word first. Tells
    // whether they are an active pair, as a number.
    fn publish(&self, token: &mut Token, cell: u32, one: u64, two: u64) -> u32
        requires token { IsTokenOf self.now token.old }
        requires next { IsNext token.old.me.0 cell one two }
        requires nodes { IsNodeRef one × IsNodeRef two }
        requires cell { suc cell < table_size self.now.plan.parts }
        ensures token { IsSameSeat token.old token.new }
        ensures view { token.new.me.0 ≡ publishing token.old.me.0 cell }
        ensures active { result ≡ active_in one two }
        ensures small { result ≤ 1 }
    {
        self.table
            .shared
            .store::<Places>(token, cell as usize + 1, two);
        self.table
            .shared
            .store::<Publishes>(token, cell as usize, one);
        active_in(one, two)
    }
}
