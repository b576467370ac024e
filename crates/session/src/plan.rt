//! What a look leads to: a step that is due, or the end of the search.
ghost use Rattle.std.specs.Prelude.{◌≡◌, Some, None};
ghost use Rattle.theory.specs.Look.{Look};
ghost use Rattle.session.specs.Finding.{FoundWhole};
ghost use Rattle.session.specs.Guides.{guided};
ghost use Rattle.session.specs.Memories.{trail_in, position_in, clause_in, Keeps};
ghost use Rattle.session.specs.Plans.{Planned};

use crate::guide::Guide;
use crate::look::{Assertion, Found};
use crate::memory::Memory;
use rules::literal::Value;
use rules::source::Source;
use std::ops::ControlFlow;
use weights::weigher::Weigher;

/// A step that is due.
#[derive(Clone, Copy)]
pub(crate) enum Step {
    /// The assumption of this number, from 0, is placed.
    Assume(usize),
    /// This literal is placed as decided.
    Decide(i32),
    /// Of the unit clause of `count` words in hand, the unassigned literal, of this number, is placed.
    Imply { count: usize, at: usize },
    /// The falsified clause of `count` words in hand is repaired by undoing the chunk of the decision at the place `root`.
    Repair { count: usize, root: usize },
}

/// How a search ends.
#[derive(Clone, Copy)]
pub(crate) enum End {
    /// Every variable has a value, and nothing is said against it.
    Complete,
    /// The falsified clause of so many words in hand touches no decided literal's chunk.
    Contradicted(usize),
    /// The assumption of this number, from 0, is false.
    Denied(usize),
}

impl Memory<'_> {
    /// Looks, and says what that leads to: the end of the search, or a step with which it goes on. The position stays.
    pub(crate) fn next_plan<S: Source, W: Weigher>(
        &mut self,
        guide: &Guide<S, W>,
    ) -> ControlFlow<End, Step>
        requires count { (S.meaning guide.now.source.now).count ≡ self.old.layout.variables }
        ensures planned { Planned (guided (S.meaning guide.now.source.now) guide.now.preferences.now W.Weight.at_most W.Weight.zero W.Weight.plus (W.weight guide.now.weigher.now)) self.new result }
        ensures position { position_in self.new ≡ position_in self.old }
        ensures keeps { Keeps self.old self.new }
    {
        match self.look(guide.source) {
            Some(found) => self.plan_for(guide, found),
            None => self.plan_without(guide),
        }
    }

    /// What a found clause leads to, which is in hand.
    fn plan_for<S: Source, W: Weigher>(
        &mut self,
        guide: &Guide<S, W>,
        found: Found,
    ) -> ControlFlow<End, Step>
        requires found { FoundWhole self.old.layout.variables (trail_in self.old) self.old.words.now found }
        requires look { Look self.old.layout.variables (S.meaning guide.now.source.now) (position_in self.old) (Some (clause_in self.old found.count)) }
        ensures planned { Planned (guided (S.meaning guide.now.source.now) guide.now.preferences.now W.Weight.at_most W.Weight.zero W.Weight.plus (W.weight guide.now.weigher.now)) self.new result }
        ensures position { position_in self.new ≡ position_in self.old }
        ensures keeps { Keeps self.old self.new }
    {
        let count = found.count;
        match found.assertion {
            Assertion::Unit(at) => ControlFlow::Continue(Step::Imply { count, at }),
            Assertion::Falsified => {
                match self.choose(guide.weigher, count) {
                    Some(root) => ControlFlow::Continue(Step::Repair { count, root }),
                    None => ControlFlow::Break(End::Contradicted(count)),
                }
            }
        }
    }

    /// What follows where no clause was found: an assumption that is not true yet, or else a decision.
    fn plan_without<S: Source, W: Weigher>(&self, guide: &Guide<S, W>) -> ControlFlow<End, Step>
        requires { Look self.now.layout.variables (S.meaning guide.now.source.now) (position_in self.now) None }
        ensures { Planned (guided (S.meaning guide.now.source.now) guide.now.preferences.now W.Weight.at_most W.Weight.zero W.Weight.plus (W.weight guide.now.weigher.now)) self.now result }
    {
        match self.first_missing() {
            Some(number) => {
                match self.assumption_value(number) {
                    Value::False => ControlFlow::Break(End::Denied(number)),
                    _ => ControlFlow::Continue(Step::Assume(number)),
                }
            }
            None => {
                match self.next_decision(guide.preferences) {
                    Some(literal) => ControlFlow::Continue(Step::Decide(literal)),
                    None => ControlFlow::Break(End::Complete),
                }
            }
        }
    }
}
