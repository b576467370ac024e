//! An idle session: it takes assumptions, begins a search, or ends.
ghost use Rattle.std.specs.Prelude.{◌≡◌, ◌≤◌, [], ◌∷◌, ◌++◌, length, take, replicate, ◌-◌, ◌*◌, pos, is_ok, slice_set, OnErr, if◌then◌else◌};
ghost use Rattle.theory.specs.Calls.{Call.assume as assuming, Call.clear as clearing, Call.begin as beginning, Call.close as closing, Reply.done, State.idle, State.closed, begun};
ghost use Rattle.session.specs.Words.{size};
ghost use Rattle.session.specs.Reports.{granted_as};
ghost use Rattle.session.specs.Searches.{search_in};
ghost use Rattle.session.specs.Sessions.{standing, idle_state, search_state, Lived, Promised, fitting, fit_answer, assume_answer};

use crate::layout::{Extent, Layout};
use crate::memory::Memory;
use crate::progress::Progress;
use crate::report::{Refusal, Verdict};
use crate::states::{Idle, Search};
use rules::literal::is_in_range;

/// Whether a session of so many variables and slots fits into so many words: it needs 6n + (n + L)(n + 1) of them, and
/// takes at most 1,000 variables and 1,000 slots.
pub fn fits(variables: u32, slots: u32, words: usize) -> Result<(), Refusal>
    ensures { result ≡ fit_answer variables slots words }
{
    if is_fitting(variables, slots, words) {
        Ok(())
    } else {
        Err(Refusal::Unfit)
    }
}

/// Whether so many variables and slots are allowed and so many words suffice for them.
fn is_fitting(variables: u32, slots: u32, words: usize) -> bool
    ensures { result ≡ fitting variables slots words }
{
    variables <= 1000 && slots <= 1000 && words_needed(variables as usize, slots as usize) <= words
}

/// How many words a session needs.
fn words_needed(variables: usize, slots: usize) -> usize
    requires { (variables ≤ 1000) × (slots ≤ 1000) }
    ensures { result ≡ size variables slots }
{
    6 * variables + (variables + slots) * (variables + 1)
}

/// The layout of so many variables and slots, or of none where they do not fit into so many words.
// No Option: `open` refuses nothing, so a session that does not fit is one of no variables and no slots.
fn fitted(variables: u32, slots: u32, words: usize) -> Layout
    ensures variables { result.variables ≡ (if fitting variables slots words then variables else 0) }
    ensures slots { result.slots ≡ (if fitting variables slots words then slots else 0) }
    ensures room { size result.variables result.slots ≤ words }
{
    if is_fitting(variables, slots, words) {
        Layout {
            variables: variables as usize,
            slots: slots as usize,
        }
    } else {
        Layout {
            variables: 0,
            slots: 0,
        }
    }
}

impl<'a> Idle<'a> {
    /// Opens a session with no assumptions over all the words. Where it does not fit, it has no variables and no slots.
    pub fn open(words: &'a mut [i32], variables: u32, slots: u32) -> Idle<'a>
        ensures variables { result.layout.variables ≡ (if fitting variables slots (length words.old) then variables else 0) }
        ensures slots { result.layout.slots ≡ (if fitting variables slots (length words.old) then slots else 0) }
        ensures assumptions { standing result ≡ [] }
        ensures opens { Lived result.layout.variables result.layout.slots [] (idle_state result) }
        ensures words { result.words.now ≡ words.old }
    {
        let layout = fitted(variables, slots, words.len());
        Idle {
            words,
            layout,
            assumptions: 0,
        }
    }

    /// A literal joins the assumptions. A refused call leaves the session as it was.
    pub fn assume(&mut self, literal: i32) -> Result<(), Refusal>
        ensures answer { result ≡ assume_answer self.old.layout.variables (length (standing self.old)) literal }
        ensures assumptions { standing self.new ≡ (if is_ok result then standing self.old ++ (literal ∷ []) else standing self.old) }
        ensures promised { Promised self.old.layout.variables self.old.layout.slots (idle_state self.old) (assuming literal) (granted_as result) (idle_state self.new) }
        ensures words { self.new.words.now ≡ (if is_ok result then slice_set self.old.words.now self.old.assumptions literal else self.old.words.now) }
        ensures unchanged { OnErr result (self.new ≡ self.old) }
        ensures layout { self.new.layout ≡ self.old.layout }
    {
        if !is_in_range(literal, self.layout.variables as u32) {
            return Err(Refusal::NoVariable);
        }
        if self.assumptions >= 2 * self.layout.variables {
            return Err(Refusal::Full);
        }
        self.words[self.assumptions] = literal;
        self.assumptions += 1;
        Ok(())
    }

    /// No assumptions are left.
    pub fn clear(&mut self)
        ensures assumptions { standing self.new ≡ [] }
        ensures promised { Promised self.old.layout.variables self.old.layout.slots (idle_state self.old) clearing done (idle_state self.new) }
        ensures layout { self.new.layout ≡ self.old.layout }
        ensures words { self.new.words.now ≡ self.old.words.now }
    {
        self.assumptions = 0;
    }

    /// Begins a search under the assumptions that stand, with an empty trail and empty slots.
    pub fn begin(self) -> Search<'a>
        ensures search { search_in result.progress ≡ begun (standing self.entry) }
        ensures promised { Promised self.entry.layout.variables self.entry.layout.slots (idle_state self.entry) beginning done (search_state result) }
        ensures layout { result.progress.memory.layout ≡ self.entry.layout }
        ensures words { result.progress.memory.words.now ≡ take (2 * self.entry.layout.variables) self.entry.words.now ++ replicate (length self.entry.words.now - 2 * self.entry.layout.variables) (pos 0) }
    {
        let Idle {
            words,
            layout,
            assumptions,
        } = self;
        words[2 * layout.variables..].fill(0);
        let extent = Extent {
            assumptions,
            trail: 0,
            slots: 0,
        };
        let memory = Memory {
            words,
            layout,
            extent,
        };
        Search {
            progress: Progress {
                memory,
                verdict: Verdict::Open,
                failed: None,
            },
        }
    }

    /// Ends the session, and gives all its words back as 0.
    pub fn close(self) -> &'a mut [i32]
        ensures words { result.now ≡ replicate (length self.entry.words.now) (pos 0) }
        ensures promised { Promised self.entry.layout.variables self.entry.layout.slots (idle_state self.entry) closing done closed }
    {
        let Idle {
            words,
            layout: _,
            assumptions: _,
        } = self;
        words.fill(0);
        words
    }
}
