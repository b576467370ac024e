//! Literals: v says that variable v is true, −v that it is false.
ghost use Rattle.std.specs.Prelude.{◌≡◌};
ghost use Rattle.rules.specs.Literals.{in_range};
ghost use Rattle.rules.specs.Drafts.{book_count};
ghost use Rattle.rules.specs.Sources.{true_in};
ghost use Rattle.rules.specs.Values.{value_in};

/// Whether the literal's variable is one of 1 to `variables`.
pub fn is_in_range(literal: i32, variables: u32) -> bool
    ensures { result ≡ in_range variables literal }
{
    (1..=variables).contains(&literal.unsigned_abs())
}

/// How many variables a book has that is asked for so many: more than 1,000 count as none.
pub fn book_count(variables: u32) -> u32
    ensures { result ≡ book_count variables }
{
    if variables > 1000 { 0 } else { variables }
}

/// What a literal is under a valuation.
#[derive(Clone, Copy, PartialEq, Eq, Debug)]
pub enum Value {
    True,
    False,
    Unassigned,
}

/// What the literal is under a valuation, whose entry v − 1 is the literal of variable v that is true;
/// any other entry, or none, leaves v unassigned.
pub fn value_of(literal: i32, valuation: &[i32]) -> Value
    ensures { result ≡ value_in (true_in valuation.now) literal }
{
    // By index: a chain of `checked_sub`, `and_then` and `get` with a match that has two guards is no plainer than one test and the three cases below.
    let variable = literal.unsigned_abs() as usize;
    if variable == 0 || variable > valuation.len() {
        return Value::Unassigned;
    }
    let held = valuation[variable - 1];
    if held == literal {
        Value::True
    } else if held == literal.wrapping_neg() {
        Value::False
    } else {
        Value::Unassigned
    }
}
