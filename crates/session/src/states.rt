//! The states of a session. Each holds the session's words, and a call that leads on takes the one state and gives the other.
ghost use Rattle.std.specs.Prelude.{◌≡◌, ◌*◌, ◌≤◌, true, length};
ghost use Rattle.std.specs.List.{list_all};
ghost use Rattle.rules.specs.Literals.{in_range};
ghost use Rattle.session.specs.Words.{size};
ghost use Rattle.session.specs.Decode.{assumptions_of};

use crate::layout::Layout;
use crate::progress::Progress;

/// A session between searches, over lent words. It ends only by `close`.
// Words with a number of how many are in use, as in `Memory`: nothing is allocated.
pub struct Idle<'a> {
    pub(crate) words: &'a mut [i32],
    pub(crate) layout: Layout,
    pub(crate) assumptions: usize,
    ghost room: { size layout.variables layout.slots ≤ length words.now },
    ghost few: { assumptions ≤ 2 * layout.variables },
    ghost ranged: { list_all (in_range layout.variables) (assumptions_of assumptions words.now) ≡ true },
}

/// A search. Its values cannot be read before it is settled.
pub struct Search<'a> {
    pub(crate) progress: Progress<'a>,
}

/// A search at rest.
pub struct Settled<'a> {
    pub(crate) progress: Progress<'a>,
}
