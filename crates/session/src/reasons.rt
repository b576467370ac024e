//! Implied literals: the unassigned literal of a clause is placed with that clause as its reason.
ghost use Rattle.std.specs.Prelude.{◌≡◌, ◌+◌, ◌<◌, ◌≤◌, ◌++◌, length, drop};
ghost use Rattle.theory.specs.Trail.{Entry.implied, Placeable};
ghost use Rattle.theory.specs.Conflict.{others_of};
ghost use Rattle.theory.specs.Search.{placed};
ghost use Rattle.session.specs.Words.{word_at, index_of, clause_at, row_at};
ghost use Rattle.session.specs.Decode.{reason_count, reason_of};
ghost use Rattle.session.specs.Memories.{trail_in, position_in, clause_in, Keeps, Framed};

use crate::memory::Memory;
use weights::weigher::Standing;

impl Memory<'_> {
    /// Places the literal of the number `at`, from 0, of the clause of `k` words in hand as implied by that clause, which stays in hand.
    pub(crate) fn imply(&mut self, k: usize, at: usize)
        requires few { k ≤ self.old.layout.variables }
        requires among { at < k }
        requires placeable { let literal = word_at self.old.words.now (clause_at self.old.layout.variables at) in
            Placeable self.old.layout.variables (trail_in self.old) (implied literal (others_of literal (clause_in self.old k))) }
        ensures placed { let literal = word_at self.old.words.now (clause_at self.old.layout.variables at) in
            position_in self.new ≡ placed (position_in self.old) (implied literal (others_of literal (clause_in self.old k))) }
        ensures clause { clause_in self.new k ≡ clause_in self.old k }
        ensures keeps { Keeps self.old self.new }
    {
        let literal = self.words[self.layout.clause(at)];
        self.set_reason(self.layout.index_of(literal), k, at);
        self.place(literal, Standing::Implied);
    }

    /// Makes the clause of `k` words in hand, but for its literal of the number `at`, the reason of that literal's variable `x`,
    /// which is unassigned.
    fn set_reason(&mut self, x: usize, k: usize, at: usize)
        requires few { k ≤ self.old.layout.variables }
        requires among { at < k }
        requires is { x ≡ index_of (word_at self.old.words.now (clause_at self.old.layout.variables at)) }
        requires placeable { let literal = word_at self.old.words.now (clause_at self.old.layout.variables at) in
            Placeable self.old.layout.variables (trail_in self.old) (implied literal (others_of literal (clause_in self.old k))) }
        ensures reason { reason_of self.old.layout.variables self.new.words.now x ≡ others_of (word_at self.old.words.now (clause_at self.old.layout.variables at)) (clause_in self.old k) }
        ensures position { position_in self.new ≡ position_in self.old }
        ensures frame { Framed (row_at self.old.layout.variables x 1) self.old.layout.variables self.old self.new }
    {
        let layout = self.layout;
        let words = &mut *self.words;
        let (front, room) = words.split_at_mut(layout.reason(x));
        let start = layout.clause(0);
        let clause = &front[start..start + k];
        let count = copy_others(clause, clause[at], room);
        words[layout.row(x, 1)] = count as i32;
    }

    /// The other literals of a variable's reason.
    pub(crate) fn reason(&self, x: usize) -> &[i32]
        requires { x < self.now.layout.variables }
        ensures { result.now ≡ reason_of self.now.layout.variables self.now.words.now x }
    {
        let start = self.layout.reason(x);
        &self.words[start..start + self.reason_count(x)]
    }

    /// How many other literals the reason of a variable has.
    pub(crate) fn reason_count(&self, x: usize) -> usize
        requires { x < self.now.layout.variables }
        ensures { result ≡ reason_count self.now.layout.variables self.now.words.now x }
    {
        self.words[self.layout.row(x, 1)].unsigned_abs() as usize
    }
}

/// Copies the literals of a clause other than the one given to the front of the room, in their order, and says how many these are.
fn copy_others(clause: &[i32], literal: i32, room: &mut [i32]) -> usize
    requires { length (others_of literal clause.now) ≤ length room.old }
    ensures count { result ≡ length (others_of literal clause.now) }
    ensures copied { room.new ≡ others_of literal clause.now ++ drop result room.old }
{
    // A loop that counts: the number of those copied is needed besides, and a chain would be gone over twice.
    let mut count: usize = 0;
    for other in clause {
        if *other != literal {
            room[count] = *other;
            count += 1;
        }
    }
    count
}
