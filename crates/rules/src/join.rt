//! Two sources as one.
ghost use Rattle.rules.specs.Sources.{joined};
ghost use Rattle.rules.specs.SourceLaws.{join_lawful};

use crate::source::Source;

/// The join of two sources. Where they have equally many variables, it admits what both admit, and tells what the first
/// tells, or else the second. Otherwise it has no variable, admits everything and is silent.
#[derive(Drop)]
pub struct Join<'a, A, B> {
    pub first: &'a A,
    pub second: &'a B,
}

impl<A: Source, B: Source> Source for Join<'_, A, B> {
    ghost meaning = { λ join. joined (A.Source.meaning join.first.now) (B.Source.meaning join.second.now) };

    ghost lawful = { λ join. join_lawful (A.Source.meaning join.first.now) (B.Source.meaning join.second.now)
        (A.Source.lawful join.first.now) (B.Source.lawful join.second.now) };

    fn variables(&self) -> u32 {
        let count = self.first.variables();
        if count == self.second.variables() {
            count
        } else {
            0
        }
    }

    fn question(&self, page: &mut [i32]) -> Option<usize> {
        if self.first.variables() != self.second.variables() {
            return None;
        }
        // No `or_else`: the proof does not follow a page that a closure changes.
        match self.first.question(page) {
            None => self.second.question(page),
            told => told,
        }
    }
}
