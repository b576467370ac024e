//! What guides a search.

/// A source of rules, the literals that are preferred, and what weighs the members of a chunk.
// That the source has as many variables as the memory is asked of the two together: a struct of both would have each function that
// changes the memory promise that the guide, which a shared reference leaves as it is, stays.
#[derive_where(Clone, Copy)]
pub(crate) struct Guide<'g, S, W> {
    pub source: &'g S,
    pub preferences: &'g [i32],
    pub weigher: &'g W,
}
