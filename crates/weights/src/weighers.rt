//! The weighers: by a table of literals, and by standing.
ghost use Rattle.std.specs.Prelude.{◌≡◌, slice_index_or};
ghost use Rattle.weights.specs.Weighing.{table_entry, table_weight, standing_weight};

use crate::order::Scale;
use crate::scales::Plain;
use crate::weigher::{Member, Standing, Weigher};

/// Weighs a literal by its entry in a list of weights of any scale:
/// entry 2(v − 1) for v, entry 2(v − 1) + 1 for −v, and zero past the list's end and for 0.
#[derive(Drop)]
pub struct Table<'a, W> {
    weights: &'a [W],
}

impl<'a, W> Table<'a, W> {
    /// The table with these entries.
    pub fn new(weights: &'a [W]) -> Table<'a, W>
        ensures { result.weights.now ≡ weights.now }
    {
        Table { weights }
    }
}

impl<W: Scale> Table<'_, W> {
    /// The weight at an entry, zero past the end.
    fn weight_at(&self, entry: usize) -> W
        ensures { result ≡ slice_index_or self.now.weights.now entry W.Scale.zero }
    {
        self.weights.get(entry).copied().unwrap_or(W::zero())
    }
}

impl<W: Scale> Weigher for Table<'_, W> {
    type Weight = W;

    ghost weight = { λ table member. table_weight W.Scale.zero table.weights.now member.literal };

    fn weigh(&self, member: Member) -> W {
        // A match: of `map_or` with a closure over the table the proof was tried and didn't close.
        match entry_of(member.literal) {
            Some(entry) => self.weight_at(entry),
            None => W::zero(),
        }
    }
}

/// The entry of a literal in a table; 0 has none.
fn entry_of(literal: i32) -> Option<usize>
    ensures { result ≡ table_entry literal }
{
    let first = 2 * (literal.unsigned_abs().checked_sub(1)? as usize);
    Some(first + usize::from(literal < 0))
}

/// Weighs an implied member 8 and any other 1.
#[derive(Clone, Copy)]
pub struct ByStanding;

impl Weigher for ByStanding {
    type Weight = Plain;

    ghost weight = { λ _ member. standing_weight member.standing };

    fn weigh(&self, member: Member) -> Plain {
        match member.standing {
            Standing::Implied => Plain(8),
            Standing::Assumed | Standing::Decided => Plain(1),
        }
    }
}
