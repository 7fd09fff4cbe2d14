//! A turn: a claim, and what happens to the claimed pair.
ghost use Rattle.std.specs.Prelude.{◌≡◌, ◌≢◌, ℕ, ◌+◌, ◌*◌, ◌<◌, ◌≤◌, [], ◌∷◌, ◌++◌, true, false, None, Some, MatchOption, IfSome, IfNone, IfOk, IfErr, ◌↔◌};
ghost use Rattle.ol_law_edges.specs.Edges.{IsIn};
ghost use Rattle.ol_net.specs.Parts.{arity};
ghost use Rattle.ol_wire.specs.References.{kind_in, place_in};
ghost use Rattle.ol_wire.specs.Events.{rule_between};
ghost use Rattle.ol_wire.specs.Layout.{block, left_word, cells_of, table_size};
ghost use Rattle.ol_wire.specs.Blocks.{block_words};
ghost use Rattle.ol_wire.specs.LinkLists.{to_write};
ghost use Rattle.ol_wire.specs.Copies.{fields_due, copies_due, AreDueFirst, written};
ghost use Rattle.ol_wire.specs.Plays.{event_in};
ghost use Rattle.ol_wire.specs.StepPlays.{IsNodeOf};
ghost use Rattle.ol_wire.specs.Rewrites.{event_for};
ghost use Rattle.ol_wire.specs.Stand.{IsSeatOf};
ghost use Rattle.ol_wire.specs.Tokens.{IsTokenOf, IsSameSeat};
ghost use Rattle.ol_wire.specs.Idle.{IsIdle};
ghost use Rattle.ol_wire.specs.Hands.{IsStuckLast, missed};
ghost use Rattle.ol_wire.specs.InHand.{in_hand, IsInHand, IsOfPair, fields_known, IsSure, AreFields, AreRefs, Rewrote, HasTaken, AreNodesOf, MayDraw, KeepsInHand, looked_at, KeepsSure};
ghost use Rattle.ol_wire.specs.Moments.{MomentEmpty, WasPending};
ghost use Rattle.ol_wire.specs.Turns.{HasLinked, IsMomentOf, FoundActive, IsRewrote, HasCause, Leaves, FoundStuck, FoundFuel, FoundNoFuel};
ghost use Rattle.ol_wire.specs.TurnParts.{TurnBegins, HasBegun, HasEnded, IsRewriteInHand, HasBegunOrLate, HasFieldsOf};

use crate::begun::Begun;
use crate::reference::kind_in;
use crate::rewrite::{Rewrite, rewrite_of};
use crate::seat::{Seat, Token};
use crate::shared::Shared;
use crate::turn::Turn;

impl Shared {
    /// Claims the pair of a cell and rewrites it, if it has a rule and the fuel isn't used up.
    pub fn turn(&self, seat: &mut Seat, cell: u32) -> Turn
        requires seat { IsSeatOf self.now seat.old }
        requires cell { cell < cells_of self.now.plan.parts }
        ensures seat { IsSeatOf self.now seat.new }
        ensures gone { (result ≡ Turn.Gone) ↔ (seat.new.view.last.0 ≡ 0) }
        ensures stuck { (result ≡ Turn.Stuck) ↔ FoundStuck seat.new.view }
        ensures spent { (result ≡ Turn.Spent) ↔ FoundNoFuel seat.new.view }
        ensures rewrote { IsRewrote result ↔ FoundFuel seat.new.view }
        ensures claimed { seat.new.view.claimed ≡ seat.old.view.claimed ++ cell ∷ [] }
        ensures others { seat.new.view.holds ≡ seat.old.view.holds }
        ensures view { Leaves self.now.plan.parts seat.old.view cell result seat.new.view }
        ensures moment { IsMomentOf self.now.plan cell result seat.new.view }
        ensures links { HasLinked self.now.plan seat.old.view result seat.new.view }
    {
        let begun = match self.begin(&mut seat.token, seat.over, cell) {
            Ok(begun) => begun,
            Err(ended) => {
                if let Turn::Spent = ended {
                    seat.over = true;
                }
                return ended;
            }
        };
        let mask = self.link_all(&mut seat.token, &begun);
        Turn::Rewrote {
            ticket: begun.ticket,
            rule: begun.rewrite.rule,
            first_cell: self.parts.cells + 4 * begun.ticket,
            mask,
        }
    }

    // A turn up to its links: it is over already, or a pair has become a ticket. `over` is the
    // seat's.
    fn begin(&self, token: &mut Token, over: bool, cell: u32) -> Result<Begun, Turn>
        requires token { IsTokenOf self.now token.old }
        requires cell { cell < cells_of self.now.plan.parts }
        requires idle { IsIdle token.old.me.0 }
        requires over { token.old.me.0.over ≡ over }
        ensures token { IsSameSeat token.old token.new }
        ensures begun { IfOk result (HasBegun self.now token.old.me.0 cell token.new.me.0) }
        ensures ended { IfErr result (HasEnded self.now token.old.me.0 cell token.new.me.0) }
        ensures drawn { IfOk result (λ _. WasPending self.now.plan token.new.me.0) }
        ensures links { IfErr result
            (λ turn. HasLinked self.now.plan token.old.me.0 turn token.new.me.0) }
        ensures moment { IfErr result
            (λ turn. IsMomentOf self.now.plan cell turn token.new.me.0) }
    {
        let word = self.parts.left_word(cell);
        let Some((left, right)) = self.take(token, cell, word) else {
            return Err(Turn::Gone);
        };
        let Some(rewrite) = rewrite_of(left, right) else {
            self.put_back(token, cell, word, left);
            return Err(Turn::Stuck);
        };
        if over {
            self.put_back(token, cell, word, left);
            return Err(Turn::Spent);
        }
        let Some(begun) = self.rewrite(token, rewrite) else {
            self.repay(token, rewrite.joins());
            self.put_back(token, cell, word, left);
            return Err(Turn::Spent);
        };
        Ok(begun)
    }

    // Claims a cell, and reads its right word if the left one wasn't empty. `word` is its left word.
    fn take(&self, token: &mut Token, cell: u32, word: u32) -> Option<(u64, u64)>
        requires token { IsTokenOf self.now token.old }
        requires word { word ≡ left_word self.now.plan.parts cell }
        requires cell { cell < cells_of self.now.plan.parts }
        requires idle { IsIdle token.old.me.0 }
        ensures token { IsSameSeat token.old token.new }
        ensures view { HasTaken self.now token.old.me.0 cell result token.new.me.0 }
        ensures nodes { IfSome result (AreNodesOf self.now.plan.parts) }
        ensures empty { IfNone result
            (MomentEmpty self.now.plan (left_word self.now.plan.parts cell) token.new.me.0) }
    {
        let left = self.claim(token, cell, word);
        if left == 0 {
            return None;
        }
        let right = self.read_right(token, cell, word);
        Some((left, right))
    }

    // Draws a ticket for the pair in hand and writes its words, or finds that the fuel is used up.
    // Its links are added to the live word before.
    fn rewrite(&self, token: &mut Token, rewrite: Rewrite) -> Option<Begun>
        requires token { IsTokenOf self.now token.old }
        requires pair { (w : ℕ) × IsInHand token.old.me.0 w }
        requires free { MayDraw token.old.me.0 }
        requires rule { IsRewriteInHand token.old.me.0 rewrite }
        ensures token { IsSameSeat token.old token.new }
        ensures view { HasBegunOrLate self.now token.old.me.0 rewrite result token.new.me.0 }
        ensures refs { IfSome result (HasFieldsOf self.now.plan.parts rewrite) }
        ensures drawn { IfSome result (λ _. WasPending self.now.plan token.new.me.0) }
        ensures hand { result ≡ None → KeepsInHand token.old.me.0 token.new.me.0 }
    {
        let of_f = self.look_at(token, rewrite.f);
        let of_g = self.look_at(token, rewrite.g);
        self.owe(token, rewrite.joins());
        let ticket = self.draw(token)?;
        self.write_block(token, ticket, rewrite);
        Some(Begun {
            rewrite,
            ticket,
            of_f,
            of_g,
        })
    }

    // Reads the fields of one of the two nodes in hand.
    fn look_at(&self, token: &mut Token, node: u64) -> [u64; 2]
        requires token { IsTokenOf self.now token.old }
        requires pair { (w : ℕ) × IsInHand token.old.me.0 w }
        requires node { IsOfPair token.old.me.0 node }
        ensures token { IsSameSeat token.old token.new }
        ensures view { token.new.me.0 ≡ looked_at token.old.me.0 node result }
        ensures found { AreFields token.new.me.0.known node result }
        ensures refs { AreRefs self.now.plan.parts node result }
        ensures keeps { KeepsSure token.old.me.0.known token.new.me.0.known }
    {
        let slots = kind_in(node).slots();
        if slots == 1 {
            return [0, 0];
        }
        let first = self.read_field(token, node, 0);
        if slots == 2 {
            return [first, 0];
        }
        let second = self.read_field(token, node, 1);
        [first, second]
    }

    // Writes those of the first words of a block that aren't empty: the two nodes, the fields of the
    // copies of f, and those of the copies of g.
    fn write_block(&self, token: &mut Token, ticket: u32, rewrite: Rewrite)
        requires token { IsTokenOf self.now token.old }
        requires ticket { ticket < self.now.plan.parts.fuel }
        requires nodes { IsNodeOf self.now.plan.parts rewrite.f × IsNodeOf self.now.plan.parts rewrite.g }
        requires due { token.old.me.0.due ≡ to_write (block self.now.plan.parts ticket)
            (block_words self.now.plan.parts (event_for rewrite) ticket) }
        ensures token { IsSameSeat token.old token.new }
        ensures view { token.new.me.0 ≡ record token.old.me.0 { due = [] } }
    {
        let first = self.parts.block(ticket);
        self.write(token, first, rewrite.earlier());
        self.write(token, first + 1, rewrite.later());
        let of_f = rewrite.copies_of_f();
        let of_g = rewrite.copies_of_g();
        if of_f == 0 || of_g == 0 {
            return;
        }
        let (one, two) = self.parts.born_wires(ticket);
        self.write_copies(token, first + 2, of_f, of_g, one, two);
        self.write_copies(
            token,
            first + 2 + 2 * of_f,
            of_g,
            of_f,
            (one.0, two.0),
            (one.1, two.1),
        );
    }

    // Writes the fields of so many copies of a node, each of which has so many: those of the first
    // copy, and then those of the second one.
    #[inline(always)]
    fn write_copies(
        &self,
        token: &mut Token,
        at: u32,
        copies: u32,
        fields: u32,
        one: (u64, u64),
        two: (u64, u64),
    )
        requires token { IsTokenOf self.now token.old }
        requires within { at + 4 ≤ table_size self.now.plan.parts }
        requires small { at + 4 ≤ 4294967295 }
        requires due { AreDueFirst (copies_due at copies fields one two) token.old.me.0 }
        ensures token { IsSameSeat token.old token.new }
        ensures view { token.new.me.0
            ≡ written (copies_due at copies fields one two) token.old.me.0 }
    {
        match copies {
            0 => {}
            1 => self.write_fields(token, at, fields, one),
            _ => {
                self.write_fields(token, at, fields, one);
                self.write_fields(token, at + 2, fields, two);
            }
        }
    }

    // Writes the fields of a copy that has so many.
    #[inline(always)]
    fn write_fields(&self, token: &mut Token, at: u32, fields: u32, wires: (u64, u64))
        requires token { IsTokenOf self.now token.old }
        requires within { at + 2 ≤ table_size self.now.plan.parts }
        requires small { at + 2 ≤ 4294967295 }
        requires due { AreDueFirst (fields_due at fields wires) token.old.me.0 }
        ensures token { IsSameSeat token.old token.new }
        ensures view { token.new.me.0 ≡ written (fields_due at fields wires) token.old.me.0 }
    {
        match fields {
            0 => {}
            1 => self.write(token, at, wires.0),
            _ => {
                self.write(token, at, wires.0);
                self.write(token, at + 1, wires.1);
            }
        }
    }
}
