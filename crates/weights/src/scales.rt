//! The scales of whole numbers: plain and ranked.
ghost use Rattle.weights.specs.Scales.{plain, plain_at_most, plain_plus, ranked_zero, ranked_at_most, ranked_plus};
ghost use Rattle.std.proofs.Common.{rules};

use crate::order::{Order, Scale};

/// A 32-bit whole number; adding stops at 2^32 − 1.
#[derive(Clone, Copy, PartialEq, Eq, PartialOrd, Ord, Debug)]
pub struct Plain(pub u32);

impl Order for Plain {
    ghost at_most = { plain_at_most };

    ghost total = { Prim.search rules };

    ghost chain = { Prim.search rules };

    fn at_most(&self, other: &Plain) -> bool {
        self <= other
    }
}

impl Scale for Plain {
    ghost zero = { plain 0 };

    ghost plus = { plain_plus };

    fn zero() -> Plain {
        Plain(0)
    }

    fn plus(self, other: Plain) -> Plain {
        Plain(self.0.saturating_add(other.0))
    }
}

/// A pair of plain numbers, added by part and ordered by the first, then the second.
#[derive(Clone, Copy, PartialEq, Eq, PartialOrd, Ord, Debug)]
pub struct Ranked {
    pub first: Plain,
    pub second: Plain,
}

impl Order for Ranked {
    ghost at_most = { ranked_at_most };

    ghost total = { Prim.search rules };

    ghost chain = { Prim.search rules };

    fn at_most(&self, other: &Ranked) -> bool {
        self <= other
    }
}

impl Scale for Ranked {
    ghost zero = { ranked_zero };

    ghost plus = { ranked_plus };

    fn zero() -> Ranked {
        Ranked {
            first: Plain::zero(),
            second: Plain::zero(),
        }
    }

    fn plus(self, other: Ranked) -> Ranked {
        Ranked {
            first: self.first.plus(other.first),
            second: self.second.plus(other.second),
        }
    }
}
