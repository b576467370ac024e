//! A small worker pool as rules, and what follows from them.
//!
//! A worker checks a queue and, finding it empty, goes to sleep. A producer pushes a job and then wakes the worker.
//! The wakeup is lost where the worker checks before the push and falls asleep only after the wakeup. Four steps are
//! taken in all, two by each. The rules say which schedules there are and that the wakeup is lost; the program asks
//! them about some beginnings of a schedule.
//!
//! Variable t, from 1 to 4, says that the worker takes step t; otherwise the producer does. Variable 5 says that the
//! worker found the queue empty, variable 6 that the wakeup came before the sleep.
#![tactic(auto)]

use anyhow::anyhow;
use rules::clauses::ClauseBook;
use rules::groups::GroupBook;
use rules::join::Join;
use rules::literal::{Value, is_in_range, value_of};
use rules::refusal::Refusal;
use rules::source::Source;
use std::io;

/// How many variables there are: the four steps, and the two facts.
const VARIABLES: u32 = 6;

/// The same, for places on a page.
const COUNT: usize = VARIABLES as usize;

/// What the program asks, with the literals that are known then.
const QUESTIONS: [(&str, &[i32]); 6] = [
    ("Nothing is known yet.", &[]),
    (
        "The worker finds the queue empty, and the wakeup comes before the sleep.",
        &[5, 6],
    ),
    ("The same, but the producer takes step 1.", &[5, 6, -1]),
    (
        "The same, but the worker takes steps 1 and 4.",
        &[5, 6, 1, 4],
    ),
    (
        "The same, but the worker takes steps 1, 2 and 4.",
        &[5, 6, 1, 2, 4],
    ),
    (
        "The same, but the worker takes steps 1 and 4, and the producer 2 and 3.",
        &[5, 6, 1, 4, -2, -3],
    ),
];

fn main(rt: HostRuntime) -> anyhow::Result<()> {
    run(&rt)
}

fn run(rt: &HostRuntime) -> anyhow::Result<()> {
    let mut clause_words = [0; 24];
    let mut clauses = ClauseBook::open(&mut clause_words, VARIABLES);
    fill_clauses(&mut clauses).map_err(|_| anyhow!("the clauses do not fit their words"))?;
    let mut group_words = [0; 12];
    let mut groups = GroupBook::open(&mut group_words, VARIABLES);
    fill_groups(&mut groups).map_err(|_| anyhow!("the groups do not fit their words"))?;
    let clauses = clauses.seal();
    let groups = groups.seal();
    let rules = Join {
        first: &clauses,
        second: &groups,
    };
    println!(rt;
        "A worker checks a queue, then sleeps. A producer pushes a job, then wakes the worker."
    )?;
    println!(rt; "Which schedules of these four steps lose the wakeup?")?;
    for (question, known) in QUESTIONS {
        ask(rt, &rules, question, known)?;
    }
    Ok(())
}

/// The wakeup is lost; the queue was empty exactly if the worker moved first; the wakeup came before the sleep
/// exactly if the worker moved last.
// A program stands by itself, with the rules of its pool: a crate for two such functions is no plainer.
fn fill_clauses(book: &mut ClauseBook) -> Result<(), Refusal> {
    book.add(&[5])?;
    book.add(&[6])?;
    book.add(&[-5, 1])?;
    book.add(&[-1, 5])?;
    book.add(&[-6, 4])?;
    book.add(&[-4, 6])
}

/// Each of the two takes at most two of the four steps.
fn fill_groups(book: &mut GroupBook) -> Result<(), Refusal> {
    book.add(2, &[1, 2, 3, 4])?;
    book.add(2, &[-1, -2, -3, -4])
}

/// Asks the rules about what is known, and prints what they say.
fn ask<S: Source>(rt: &HostRuntime, rules: &S, question: &str, known: &[i32]) -> io::Result<()> {
    println!(rt)?;
    println!(rt; "{question}")?;
    let mut page = [0; 2 * COUNT];
    for literal in known {
        if is_in_range(*literal, VARIABLES) {
            page[literal.unsigned_abs() as usize - 1] = *literal;
        }
    }
    match rules.question(&mut page) {
        None => println!(rt; "  No rule is broken and none says more: the wakeup is lost."),
        Some(len) => print_clause(rt, &page[COUNT..COUNT + len.min(COUNT)], &page[0..COUNT]),
    }
}

/// Prints a clause that was told under the valuation: what follows from the rest, or that the rest cannot all be.
fn print_clause(rt: &HostRuntime, clause: &[i32], valuation: &[i32]) -> io::Result<()> {
    let open = clause.iter().find(|literal| value_of(**literal, valuation) == Value::Unassigned);
    if let Some(literal) = open {
        let fact = in_words(*literal);
        return println!(rt; "  It follows that {fact}.");
    }
    println!(rt; "  These cannot all be:")?;
    for literal in clause {
        let fact = in_words(literal.wrapping_neg());
        println!(rt; "  - {fact}")?;
    }
    Ok(())
}

/// What a literal says.
fn in_words(literal: i32) -> &'static str {
    match literal {
        1 => "the worker takes step 1",
        -1 => "the producer takes step 1",
        2 => "the worker takes step 2",
        -2 => "the producer takes step 2",
        3 => "the worker takes step 3",
        -3 => "the producer takes step 3",
        4 => "the worker takes step 4",
        -4 => "the producer takes step 4",
        5 => "the worker finds the queue empty",
        -5 => "the worker finds the job",
        6 => "the wakeup comes before the sleep",
        _ => "the wakeup comes after the sleep",
    }
}
