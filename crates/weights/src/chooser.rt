//! Choosing the first least of candidates that are offered one by one, by any order of weights.
ghost use Rattle.std.specs.Prelude.{◌≡◌, List, [], ◌∷◌, ◌++◌, None, Option};
ghost use Rattle.weights.specs.Choosing.{by_weight, offered, Choice};

use crate::order::Order;

/// A chunk that may be chosen: the place of its decision on the trail, and its weight.
#[derive(Clone, Copy, PartialEq, Eq, Debug)]
pub struct Candidate<W> {
    pub place: usize,
    pub weight: W,
}

/// Keeps the first least, by weight, of the candidates offered so far.
#[derive(Drop)]
pub struct Chooser<W> {
    kept: Option<Candidate<W>>,
}

impl<W: Order> Chooser<W> {
    /// A chooser that was offered nothing.
    pub fn new() -> Chooser<W>
        ensures { result.kept ≡ None }
    {
        Chooser { kept: None }
    }

    /// Offers one more candidate: it is kept from now on, unless the one kept so far is at most it.
    pub fn offer(&mut self, candidate: Candidate<W>)
        ensures step { self.new.kept ≡ offered (by_weight W.at_most) self.old.kept candidate }
        ensures choice { (row : List (Candidate W)) → Choice (by_weight W.at_most) row self.old.kept → Choice (by_weight W.at_most) (row ++ (candidate ∷ [])) self.new.kept }
    {
        // By names of their own, and set as a whole: the checker does not cover a match that binds what lies behind `&mut self`.
        let earlier = self.kept;
        let kept = match earlier {
            Some(kept) if kept.weight.at_most(&candidate.weight) => Some(kept),
            _ => Some(candidate),
        };
        *self = Chooser { kept };
    }

    /// The first least of the candidates offered so far, or nothing where none was.
    pub fn chosen(&self) -> Option<Candidate<W>>
        ensures value { result ≡ self.now.kept }
        ensures only { (row : List (Candidate W)) (other : Option (Candidate W)) → Choice (by_weight W.at_most) row self.now.kept → Choice (by_weight W.at_most) row other → other ≡ result }
    {
        self.kept
    }
}
