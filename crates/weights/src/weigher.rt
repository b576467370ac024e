//! What a weigher is: it gives each member of a chunk a weight in its scale.
ghost use Rattle.std.specs.Prelude.{◌≡◌};
ghost use Rattle.weights.specs.declared.weigher.Member.{Member};

use crate::order::Scale;

/// How a literal came to stand on the trail.
#[derive(Clone, Copy, PartialEq, Eq, Debug)]
pub enum Standing {
    Assumed,
    Decided,
    Implied,
}

/// A member of a chunk: its literal, how it came to stand on the trail, and its place there, from 0.
#[derive(Clone, Copy, PartialEq, Eq, Debug)]
pub struct Member {
    pub literal: i32,
    pub standing: Standing,
    pub place: usize,
}

/// Gives each member of a chunk a weight.
pub trait Weigher {
    type Weight: Scale;

    ghost weight: { Self → Member → Self.Weight };

    /// What the member weighs.
    fn weigh(&self, member: Member) -> Self::Weight
        ensures { result ≡ weight self.now member };
}
