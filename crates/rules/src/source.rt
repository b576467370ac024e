//! What a source of rules is.
ghost use Rattle.std.specs.Prelude.{◌≡◌, length, take};
ghost use Rattle.rules.specs.Sources.{Meaning, Lawful, Answer.tells, page_after};
ghost use Rattle.rules.specs.Telling.{told_of};

/// A source of rules over the variables 1 to n.
///
/// Its meaning is how many variables it has, which assignments of them it admits, and for each valuation one answer.
/// The laws of a source are asked of that meaning: a told clause is falsified or unit, names no variable twice and only
/// variables 1 to n, and is satisfied by every admitted assignment; where all variables have a value, the source is
/// silent exactly when it admits that assignment.
pub trait Source {
    ghost meaning: { Self → Meaning };

    /// How many variables there are.
    fn variables(&self) -> u32
        ensures { result ≡ (meaning self.now).count };

    /// The answer under a valuation: how many literals the told clause has, or nothing where the source is silent.
    /// The page's first n words are the valuation, entry v − 1 the literal of variable v that is true, or 0; a shorter
    /// page leaves the last variables unassigned. What follows is room for the told clause: its front as far as it
    /// fits, and then what was there. The valuation stays, and silence leaves all of the page.
    fn question(&self, page: &mut [i32]) -> Option<usize>
        ensures told { result ≡ told_of ((meaning self.now).answer (take (meaning self.now).count page.old)) }
        ensures page { page.new ≡ page_after (meaning self.now).count ((meaning self.now).answer (take (meaning self.now).count page.old)) page.old };

    ghost lawful: { (source : Self) → Lawful (meaning source) };
}

/// The valuation of so many variables on a page.
pub fn valuation(page: &[i32], variables: u32) -> &[i32]
    ensures { result.now ≡ take variables page.now }
{
    &page[0..(variables as usize).min(page.len())]
}

/// Tells the clause: lays it on the page behind the valuation of so many variables, and answers how many literals it has.
pub fn tell(page: &mut [i32], variables: u32, clause: &[i32]) -> usize
    ensures count { result ≡ length clause.now }
    ensures page { page.new ≡ page_after variables (tells clause.now) page.old }
{
    let start = valuation(page, variables).len();
    let fits = clause.len().min(page.len() - start);
    page[start..start + fits].copy_from_slice(&clause[0..fits]);
    clause.len()
}
