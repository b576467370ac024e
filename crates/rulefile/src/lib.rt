//! Rule files: clauses and at-most groups as text, read into two books.
//!
//! The form is DIMACS CNF with one addition, groups. A file is words, parted by spaces, tabs, carriage returns and line
//! feeds; a line whose first byte is `c` is skipped. It begins `p cnf n m`: n variables, at most 1,000, and m clauses, at
//! most 65,535. Then come m clauses, each literals and the word 0. Before any clause and after the last may stand groups,
//! each `a`, a limit, literals and 0: at most so many of its literals are true.
//!
//! A word that begins with a digit or a minus is meant as a number: 0, or at most nine digits, the first not 0, with or
//! without a minus before them.
//!
//! Three layers read a file, each with faults of its own: words, form, books. The first word to cause a fault decides; a
//! book refuses a rule at its closing 0, and the fault then stands at the rule's first word.
#![tactic(auto)]

pub mod books;
pub mod bytes;
pub mod faults;
pub mod form;
#[cfg(test)]
mod tests;
pub mod words;
