//! The single steps of a seat: each step changes at most one word, and returns what it read.
ghost use Rattle.std.specs.Prelude.{◌≡◌, ◌≢◌, ℕ, suc, ◌+◌, ◌<◌, ◌≤◌, [], ◌∷◌, MatchOption, IfSome};
ghost use Rattle.ol_law_edges.specs.Edges.{IsIn};
ghost use Rattle.ol_net.specs.Parts.{arity};
ghost use Rattle.ol_wire.specs.References.{kind_in, place_in};
ghost use Rattle.ol_wire.specs.Layout.{table_size, left_word, cells_of};
ghost use Rattle.ol_wire.specs.StepPlays.{IsNodeOf, IsRefOf, IsLookedUp, paired, knowing, owing, repaid, ticketed, late, wrote, returned, rest};
ghost use Rattle.ol_wire.specs.Tokens.{IsTokenOf, IsSameSeat};
ghost use Rattle.ol_wire.specs.Idle.{IsIdle};
ghost use Rattle.ol_wire.specs.Moments.{Moment, MomentEmpty, MomentHolding};
ghost use Rattle.ol_wire.specs.Hands.{IsActiveLast, claiming, missed};
ghost use Rattle.ol_wire.specs.InHand.{IsInHand, IsOfPair, HasClaimed, HoldsLeft, HasPaired, HasDrawn};

use crate::plays::{Claims, Draws, Owes, ReadsField, ReadsRight, Repays, Returns, Writes};
use crate::seat::Token;
use crate::shared::Shared;

impl Shared {
    // Exchanges 0 into the left word of a cell, which is `word`, and gives what it read.
    pub(crate) fn claim(&self, token: &mut Token, cell: u32, word: u32) -> u64
        requires token { IsTokenOf self.now token.old }
        requires word { word ≡ left_word self.now.plan.parts cell }
        requires cell { cell < cells_of self.now.plan.parts }
        requires idle { IsIdle token.old.me.0 }
        ensures token { IsSameSeat token.old token.new }
        ensures gone { result ≡ 0 → token.new.me.0 ≡ missed token.old.me.0 cell }
        ensures empty { result ≡ 0
            → MomentEmpty self.now.plan (left_word self.now.plan.parts cell) token.new.me.0 }
        ensures taken { result ≢ 0 → HasClaimed self.now token.old.me.0 cell result token.new.me.0 }
        ensures node { result ≢ 0 → IsNodeOf self.now.plan.parts result }
    {
        self.table.shared.swap::<Claims>(token, word as usize, 0)
    }

    // Reads the right word of the cell that was claimed last. `word` is its left word.
    pub(crate) fn read_right(&self, token: &mut Token, cell: u32, word: u32) -> u64
        requires token { IsTokenOf self.now token.old }
        requires word { word ≡ left_word self.now.plan.parts cell }
        requires cell { cell < cells_of self.now.plan.parts }
        requires taken { HoldsLeft token.old.me.0 (left_word self.now.plan.parts cell) }
        ensures token { IsSameSeat token.old token.new }
        ensures view { HasPaired self.now token.old.me.0 cell result token.new.me.0 }
        ensures node { IsNodeOf self.now.plan.parts result }
    {
        self.table
            .shared
            .load::<ReadsRight>(token, word as usize + 1)
    }

    // Reads the field of an auxiliary slot of one of the two nodes in hand. The slots are counted
    // from 0.
    pub(crate) fn read_field(&self, token: &mut Token, node: u64, slot: u32) -> u64
        requires token { IsTokenOf self.now token.old }
        requires pair { (w : ℕ) × IsInHand token.old.me.0 w }
        requires node { IsOfPair token.old.me.0 node }
        requires slot { slot < arity (kind_in node) }
        ensures token { IsSameSeat token.old token.new }
        ensures view { token.new.me.0 ≡ knowing token.old.me.0 (place_in node + slot) result }
        ensures same { (y : ℕ) → IsIn (place_in node + slot, y) token.old.me.0.known → y ≡ result }
        ensures found { IsRefOf self.now.plan.parts result }
    {
        let word = self.parts.field(node, slot);
        self.table.shared.load::<ReadsField>(token, word as usize)
    }

    // Adds to the live word what the links of the pair in hand may come to.
    pub(crate) fn owe(&self, token: &mut Token, links: u32)
        requires token { IsTokenOf self.now token.old }
        requires pair { (w : ℕ) × IsInHand token.old.me.0 w }
        requires active { IsActiveLast token.old.me.0 }
        requires links { links ≤ 4 }
        requires nothing { (token.old.me.0.owed ≡ 0) × (token.old.me.0.pending ≡ []) }
        ensures token { IsSameSeat token.old token.new }
        ensures view { token.new.me.0 ≡ owing token.old.me.0 links }
    {
        self.table.shared.fetch_add::<Owes>(token, 1, links as u64);
    }

    // Takes from the live word what the seat owes, once it has no link to make.
    pub(crate) fn repay(&self, token: &mut Token, owed: u32)
        requires token { IsTokenOf self.now token.old }
        requires linked { token.old.me.0.pending ≡ [] }
        requires owed { token.old.me.0.owed ≡ owed }
        ensures token { IsSameSeat token.old token.new }
        ensures view { token.new.me.0 ≡ repaid token.old.me.0 owed }
    {
        self.table.shared.fetch_sub::<Repays>(token, 1, owed as u64);
    }

    // Draws a ticket for the pair in hand, or finds that the fuel is used up.
    pub(crate) fn draw(&self, token: &mut Token) -> Option<u32>
        requires token { IsTokenOf self.now token.old }
        requires pair { (w : ℕ) × IsLookedUp token.old.me.0 w }
        ensures token { IsSameSeat token.old token.new }
        ensures view { HasDrawn self.now token.old.me.0 result token.new.me.0 }
        ensures moment { IfSome result (λ _. Moment self.now.plan token.new.me.0) }
    {
        let ticket = self.table.shared.fetch_add::<Draws>(token, 0, 1);
        if ticket < self.parts.fuel as u64 {
            Some(ticket as u32)
        } else {
            None
        }
    }

    // Writes the word that is due first.
    pub(crate) fn write(&self, token: &mut Token, at: u32, word: u64)
        requires token { IsTokenOf self.now token.old }
        requires due { token.old.me.0.due ≡ (at, word) ∷ rest token.old.me.0.due }
        requires within { at < table_size self.now.plan.parts }
        ensures token { IsSameSeat token.old token.new }
        ensures view { token.new.me.0 ≡ wrote token.old.me.0 }
    {
        self.table.shared.store::<Writes>(token, at as usize, word);
    }

    // Puts the pair in hand back into its cell, once nothing is owed. `word` is the cell's left word.
    pub(crate) fn put_back(&self, token: &mut Token, cell: u32, word: u32, left: u64)
        requires token { IsTokenOf self.now token.old }
        requires word { word ≡ left_word self.now.plan.parts cell }
        requires cell { cell < cells_of self.now.plan.parts }
        requires pair { IsInHand token.old.me.0 (left_word self.now.plan.parts cell) }
        requires left { left ≡ token.old.me.0.last.0 }
        requires nothing { token.old.me.0.owed ≡ 0 }
        ensures token { IsSameSeat token.old token.new }
        ensures view { token.new.me.0 ≡ returned token.old.me.0 }
        ensures moment { MomentHolding self.now.plan (left_word self.now.plan.parts cell)
            token.new.me.0 }
    {
        self.table
            .shared
            .store::<Returns>(token, word as usize, left);
    }
}
