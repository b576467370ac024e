//! Who keeps watch: a source of rules and a weigher of one's own, beside a clause book, in a session. It is there to be copied.
//!
//! Variable v, from 1 to 5, says that person v keeps watch. A clause book has the rules, and one literal is pinned besides. With
//! Eva pinned the search finds a watch; its one conflict may undo Ann's chunk or Ben's, and undoes Ben's, which stands later on the
//! trail and is the lighter one. With Ben pinned it refutes that there is a watch.
#![tactic(auto)]

mod source;
mod weigher;

use crate::source::Pinned;
use crate::weigher::ByPlace;
use anyhow::anyhow;
use rules::clauses::ClauseBook;
use rules::join::Join;
use rules::refusal::Refusal;
use rules::source::Source;
use session::report::{self, Report, Verdict};
use session::{Idle, Settled};
use std::io;

/// How many variables there are.
const VARIABLES: u32 = 5;

/// The same, for places in a row.
const COUNT: usize = VARIABLES as usize;

/// How many words the rules take: for each clause one for each of its literals, and one more.
const BOOK_WORDS: usize = 13;

/// How many learned clauses the search can store.
const SLOTS: u32 = 1;

/// How many words the session takes: 6n + (n + L)(n + 1).
const SESSION_WORDS: usize = 66;

/// A limit with which a run ends the search: (L + 1) × (n + 1)^(n + 1).
const LIMIT: u32 = 93_312;

/// Who they are, the first at index 0.
const NAMES: [&str; COUNT] = ["Ann", "Ben", "Cleo", "Dan", "Eva"];

/// Who is asked first, and then in this order.
const ORDER: [i32; 3] = [1, 4, 2];

/// What a search came to.
#[derive(Clone, Copy)]
enum Outcome {
    /// A model: for each variable whether it is true.
    Watch([bool; COUNT]),
    /// There is no model.
    Refutation,
    /// Neither is known.
    Unknown,
}

/// What was found, and the report of the run.
#[derive(Clone, Copy)]
struct Finding {
    outcome: Outcome,
    report: Report,
}

fn main(rt: HostRuntime) -> anyhow::Result<()> {
    run(&rt)
}

fn run(rt: &HostRuntime) -> anyhow::Result<()> {
    let mut words = [0; BOOK_WORDS];
    let mut book = ClauseBook::open(&mut words, VARIABLES);
    fill(&mut book).map_err(|_| anyhow!("the rules do not fit their words"))?;
    let book = book.seal();
    println!(rt; "Eva is to keep watch:")?;
    print_finding(rt, &find(&book, 5)?)?;
    println!(rt)?;
    println!(rt; "Ben is to keep watch:")?;
    print_finding(rt, &find(&book, 2)?)?;
    Ok(())
}

/// Ben comes only with Cleo; Ann, Ben and Cleo do not all come; Cleo comes only with Ann; and Dan or Eva comes.
fn fill(book: &mut ClauseBook) -> Result<(), Refusal> {
    book.add(&[-2, 3])?;
    book.add(&[-1, -2, -3])?;
    book.add(&[-3, 1])?;
    book.add(&[4, 5])
}

/// Searches the rules with a literal pinned besides.
fn find<S: Source>(rules: &S, literal: i32) -> anyhow::Result<Finding> {
    let pinned = Pinned::new(VARIABLES, literal).ok_or_else(|| anyhow!("nobody has that number"))?;
    let both = Join {
        first: rules,
        second: &pinned,
    };
    search(&both).map_err(|_| anyhow!("the run is refused"))
}

/// Searches the rules in a session, to the end.
fn search<S: Source>(rules: &S) -> Result<Finding, report::Refusal> {
    let mut words = [0; SESSION_WORDS];
    let mut scratch = [0; COUNT];
    let weigher = ByPlace { first: VARIABLES };
    let mut search = Idle::open(&mut words, VARIABLES, SLOTS).begin();
    // A session is closed before anything returns: its states are not let go.
    let answer = search.run(LIMIT, rules, &ORDER, &weigher, &mut scratch);
    let settled = search.settle();
    let outcome = outcome_of(&settled);
    settled.reopen().close();
    Ok(Finding {
        outcome,
        report: answer?,
    })
}

/// What the settled search came to.
fn outcome_of(settled: &Settled) -> Outcome {
    match settled.verdict() {
        Verdict::Model => Outcome::Watch(std::array::from_fn(|place| {
            settled.value(place as u32 + 1).unwrap_or(false)
        })),
        Verdict::Refuted => Outcome::Refutation,
        Verdict::Open | Verdict::Paused => Outcome::Unknown,
    }
}

fn print_finding(rt: &HostRuntime, finding: &Finding) -> io::Result<()> {
    match &finding.outcome {
        Outcome::Watch(values) => print_watch(rt, values)?,
        Outcome::Refutation => println!(rt; "  no watch obeys the rules")?,
        Outcome::Unknown => println!(rt; "  it is not known")?,
    }
    let Report {
        verdict: _,
        steps,
        assumed,
        decided,
        implied,
        conflicts,
        undone,
    } = finding.report;
    println!(rt;
        "  steps {steps} assumed {assumed} decided {decided} implied {implied} conflicts {conflicts} undone {undone}"
    )
}

/// Prints who keeps watch in a model, and who does not.
fn print_watch(rt: &HostRuntime, values: &[bool; COUNT]) -> io::Result<()> {
    for (name, is_true) in NAMES.iter().zip(values) {
        let what = if *is_true { "keeps watch" } else { "does not" };
        println!(rt; "  {name} {what}")?;
    }
    Ok(())
}
