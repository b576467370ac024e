//! A small worker pool as rules, and which of its schedules lose a wakeup.
//!
//! A worker checks a queue and, finding it empty, goes to sleep. A producer pushes a job and then wakes the worker.
//! The wakeup is lost where the worker checks before the push and falls asleep only after the wakeup. Four steps are
//! taken in all, two by each. The rules say which schedules there are; that the wakeup is lost is assumed. Without a lock
//! the search finds a schedule that loses it. With a lock held around check and sleep it refutes that there is one.
//!
//! Variable t, from 1 to 4, says that the worker takes step t; otherwise the producer does. Variable 5 says that the
//! worker found the queue empty, 6 that the wakeup came before the sleep, 7 that the worker holds a lock from its check to
//! its sleep, and 8 that a second worker is idle, of which no rule speaks.
#![tactic(auto)]

use anyhow::anyhow;
use rules::clauses::ClauseBook;
use rules::groups::GroupBook;
use rules::join::Join;
use rules::refusal::Refusal;
use rules::source::Source;
use session::report::{self, Verdict};
use session::{Idle, Search, Settled};
use std::io;
use weights::weighers::ByStanding;

/// How many variables there are.
const VARIABLES: u32 = 8;

/// The same, for places in a row.
const COUNT: usize = VARIABLES as usize;

/// How many learned clauses a search can store.
const SLOTS: u32 = 2;

/// How many words the session takes: 6n + (n + L)(n + 1).
const WORDS: usize = 138;

/// How many steps a piece of a search may take, and how many pieces there may be.
const LIMIT: u32 = 3;

const PIECES: usize = 100;

/// What each variable says where it is true, the first at index 0.
const FACTS: [&str; COUNT] = [
    "the worker takes step 1",
    "the worker takes step 2",
    "the worker takes step 3",
    "the worker takes step 4",
    "the worker finds the queue empty",
    "the wakeup comes before the sleep",
    "the worker holds the lock from its check to its sleep",
    "a second worker is idle",
];

/// How many pieces and steps a search took.
#[derive(Clone, Copy)]
struct Effort {
    pieces: u32,
    steps: u32,
}

/// What a search came to.
#[derive(Clone, Copy)]
enum Outcome {
    /// A model: for each variable whether it is true.
    Schedule([bool; COUNT]),
    /// A refutation: for each variable whether it is named as an assumption.
    Refutation([bool; COUNT]),
    /// Neither yet.
    Unknown,
}

/// What was found, and with how much effort.
#[derive(Clone, Copy)]
struct Finding {
    effort: Effort,
    outcome: Outcome,
}

/// A session that has searched, and what it found.
struct Investigation<'a> {
    session: Idle<'a>,
    finding: Finding,
}

fn main(rt: HostRuntime) -> anyhow::Result<()> {
    run(&rt)
}

fn run(rt: &HostRuntime) -> anyhow::Result<()> {
    let mut clause_words = [0; 32];
    let mut clauses = ClauseBook::open(&mut clause_words, VARIABLES);
    fill_clauses(&mut clauses).map_err(|_| anyhow!("the clauses do not fit their words"))?;
    let mut group_words = [0; 12];
    let mut groups = GroupBook::open(&mut group_words, VARIABLES);
    fill_groups(&mut groups).map_err(|_| anyhow!("the groups do not fit their words"))?;
    let clauses = clauses.seal();
    let groups = groups.seal();
    let rules = Join {
        first: &clauses,
        second: &groups,
    };
    let mut words = [0; WORDS];
    let session = Idle::open(&mut words, VARIABLES, SLOTS);
    let Investigation {
        session,
        finding: without,
    } = investigate(session, &rules, &[5, 6, 8]);
    let Investigation {
        session,
        finding: with,
    } = investigate(session, &rules, &[5, 6, 7, 8]);
    session.close();
    println!(rt;
        "A worker checks a queue, then sleeps. A producer pushes a job, then wakes the worker."
    )?;
    print_finding(rt, "Without a lock", &without)?;
    print_finding(rt, "With a lock from the check to the sleep", &with)?;
    Ok(())
}

/// The queue was empty exactly if the worker moved first; the wakeup came before the sleep exactly if the worker moved last;
/// and with the lock the worker's two steps follow one another.
// A program stands by itself, with the rules of its pool: a crate for two such functions is no plainer.
fn fill_clauses(book: &mut ClauseBook) -> Result<(), Refusal> {
    book.add(&[-5, 1])?;
    book.add(&[-1, 5])?;
    book.add(&[-6, 4])?;
    book.add(&[-4, 6])?;
    book.add(&[-7, -1, 2])?;
    book.add(&[-7, -4, 3])
}

/// Each of the two takes at most two of the four steps.
fn fill_groups(book: &mut GroupBook) -> Result<(), Refusal> {
    book.add(2, &[1, 2, 3, 4])?;
    book.add(2, &[-1, -2, -3, -4])
}

/// Searches under these assumptions, and says what was found.
fn investigate<'a, S: Source>(
    mut session: Idle<'a>,
    rules: &S,
    assumptions: &[i32],
) -> Investigation<'a> {
    session.clear();
    for literal in assumptions {
        let _ = session.assume(*literal);
    }
    let mut search = session.begin();
    let effort = run_in_pieces(&mut search, rules);
    let settled = search.settle();
    let finding = Finding {
        effort,
        outcome: outcome_of(&settled),
    };
    Investigation {
        session: settled.reopen(),
        finding,
    }
}

/// Runs the search piece by piece until it has ended.
fn run_in_pieces<S: Source>(search: &mut Search, rules: &S) -> Effort {
    let mut scratch = [0; COUNT];
    let mut effort = Effort {
        pieces: 0,
        steps: 0,
    };
    for _ in 0..PIECES {
        let Ok(report) = search.run(LIMIT, rules, &[], &ByStanding, &mut scratch) else {
            break;
        };
        effort.pieces = effort.pieces.saturating_add(1);
        effort.steps = effort.steps.saturating_add(report.steps);
        if report.verdict.has_ended() {
            break;
        }
    }
    effort
}

/// What the settled search came to.
fn outcome_of(settled: &Settled) -> Outcome {
    match settled.verdict() {
        Verdict::Model => {
            Outcome::Schedule(each_variable(|variable| settled.value(variable.unsigned_abs())))
        }
        Verdict::Refuted => Outcome::Refutation(each_variable(|variable| settled.named(variable))),
        Verdict::Open | Verdict::Paused => Outcome::Unknown,
    }
}

/// For each variable what is told of it; false where that is refused.
fn each_variable<F: Fn(i32) -> Result<bool, report::Refusal>>(tell: F) -> [bool; COUNT]
    requires { F.IsAlwaysCallable tell }
{
    std::array::from_fn(|place| tell(place as i32 + 1).unwrap_or(false))
}

fn print_finding(rt: &HostRuntime, title: &str, finding: &Finding) -> io::Result<()> {
    println!(rt)?;
    let Effort { pieces, steps } = finding.effort;
    println!(rt; "{title}, after {steps} steps in {pieces} pieces:")?;
    match &finding.outcome {
        Outcome::Schedule(values) => print_schedule(rt, values),
        Outcome::Refutation(named) => print_named(rt, named),
        Outcome::Unknown => println!(rt; "  it is not known yet."),
    }
}

/// Prints the schedule of a model: who takes each of the four steps.
fn print_schedule(rt: &HostRuntime, values: &[bool; COUNT]) -> io::Result<()> {
    println!(rt; "  this schedule loses the wakeup:")?;
    for (step, is_worker) in (1..=4).zip(values) {
        let who = if *is_worker { "worker" } else { "producer" };
        println!(rt; "  {step}. the {who}")?;
    }
    Ok(())
}

/// Prints the assumptions that cannot all be.
fn print_named(rt: &HostRuntime, named: &[bool; COUNT]) -> io::Result<()> {
    println!(rt; "  no schedule loses the wakeup. These cannot all be:")?;
    for (fact, is_named) in FACTS.iter().zip(named) {
        if *is_named {
            println!(rt; "  - {fact}")?;
        }
    }
    Ok(())
}
