//! A weigher of one's own: by the place on the trail.
ghost use Rattle.std.specs.Prelude.{◌-◌};
ghost use Rattle.weights.specs.Scales.{plain};

use weights::scales::Plain;
use weights::weigher::{Member, Weigher};

/// Weighs a member by its place on the trail: the first one `first`, and each later one less by one, down to 0.
#[derive(Clone, Copy)]
pub struct ByPlace {
    pub first: u32,
}

impl Weigher for ByPlace {
    type Weight = Plain;

    ghost weight = { λ by member. plain (by.first - member.place) };

    fn weigh(&self, member: Member) -> Plain {
        Plain((self.first as usize).saturating_sub(member.place) as u32)
    }
}
