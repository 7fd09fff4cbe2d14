//! The names of the binders round a place.

ghost use Rattle.std.specs.Prelude.{◌≡◌, slice_index_or, []};
ghost use Rattle.ol_steps.specs.Rounds.{names_round};

/// The names of the binders round a place: none outside of all, or that of the innermost one and
/// those round it.
#[derive(Clone, Copy)]
pub enum Round<'a> {
    Outside,
    Inside(&'a [u8], &'a Round<'a>),
}

/// The name of a binder, counted from the innermost as 0. Empty where there is none.
pub fn name_of<'a>(round: &Round<'a>, k: u32) -> &'a [u8]
    ensures { result.now ≡ slice_index_or (names_round round.now) k [] }
{
    match round {
        Round::Outside => b"",
        Round::Inside(name, outer) => {
            if k == 0 {
                return name;
            }
            name_of(outer, k - 1)
        }
    }
}
