//! How far a search has come.
ghost use Rattle.std.specs.Prelude.{◌<◌};
ghost use Rattle.std.specs.Option.{ForSome};

use crate::memory::Memory;
use crate::report::Verdict;

/// How far a search has come: its words, its verdict and, where an assumption was found false, the number of that, from 0.
pub(crate) struct Progress<'a> {
    pub memory: Memory<'a>,
    pub verdict: Verdict,
    pub failed: Option<usize>,
    ghost denied: { ForSome failed (λ number. number < memory.extent.assumptions) },
}
