//! How many lets stand at the front of a text.

ghost use Rattle.std.specs.Prelude.{◌≡◌, ◌+◌, ◌≤◌, ◌<◌, ◌^◌, if◌then◌else◌, length};
ghost use Rattle.ol_limits.specs.Limits.{most_term_bytes};
ghost use Rattle.ol_places.specs.Tokens.{kind_token};
ghost use Rattle.ol_steps.specs.Fronts.{BeginsWithLets};
ghost use Rattle.ol_steps.specs.Scanned.{begins_let, open_in, spot_after};

use ol_places::{Kind, first_token};

/// Where a scan of tokens is: at the front, where a let may begin; in the value of a let that
/// stands there, within so many lets of it; or behind the front.
#[derive(Clone, Copy)]
pub enum Spot {
    Front,
    Value(u32),
    Behind,
}

// Where one is behind a token.
fn spot_after(spot: Spot, kind: Kind, token: &[u8]) -> Spot
    requires few { open_in spot + 1 < 2 ^ 32 }
    ensures { result ≡ spot_after spot (kind_token kind token.now) }
{
    match spot {
        Spot::Front => match kind {
            Kind::Let => Spot::Value(0),
            Kind::Name | Kind::In | Kind::Sign(_) => Spot::Behind,
        },
        Spot::Value(open) => match kind {
            Kind::Let => Spot::Value(open + 1),
            Kind::In => if open == 0 {
                Spot::Front
            } else {
                Spot::Value(open - 1)
            },
            Kind::Name | Kind::Sign(_) => Spot::Value(open),
        },
        Spot::Behind => Spot::Behind,
    }
}

// How many lets at the front a token begins.
fn lets_begun(spot: Spot, kind: Kind, token: &[u8]) -> u32
    ensures count { result ≡ (if begins_let spot (kind_token kind token.now) then 1 else 0) }
    ensures few { result ≤ 1 }
{
    match (spot, kind) {
        (Spot::Front, Kind::Let) => 1,
        _ => 0,
    }
}

/// How many lets stand at the front of a text: the first token begins the first one, and each
/// other begins behind the `in` of the one before. If the bytes are no text, the number says
/// nothing. They are at most 1,048,576.
pub fn front_lets(bytes: &[u8]) -> u32
    requires short { length bytes.now ≤ most_term_bytes }
    ensures { BeginsWithLets bytes.now result }
{
    let mut lets = 0u32;
    let mut spot = Spot::Front;
    let mut rest = bytes;
    while let Some(first) = first_token(rest) {
        let (_, behind) = rest.split_at(first.gap);
        let (token, left) = behind.split_at(first.length);
        lets += lets_begun(spot, first.kind, token);
        spot = spot_after(spot, first.kind, token);
        rest = left;
    }
    lets
}
