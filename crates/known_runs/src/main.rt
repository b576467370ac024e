//! Plays searches whose course is known from the rules of the search, and prints what each comes to.
//!
//! What it has to print was worked out by hand, step by step, and stands in `stdout` beside `src`. Each search is made in a
//! session of its own, over words of its own, with an empty preference list.
#![tactic(auto)]

use anyhow::anyhow;
use rulefile::books;
use rulefile::faults::Fault;
use rules::clauses::ClauseBook;
use rules::groups::GroupBook;
use rules::join::Join;
use rules::refusal::Refusal;
use rules::source::Source;
use session::report::{Report, Verdict};
use session::{Idle, Search, Settled};
use std::io;
use weights::scales::Plain;
use weights::weigher::Weigher;
use weights::weighers::{ByStanding, Table};

/// The most variables of a search.
const VARIABLES: usize = 5;

/// How many words the largest session takes: 6n + (n + L)(n + 1), with 5 variables and 16 slots.
const WORDS: usize = 156;

/// How many words a book of clauses is lent, and how many a book of groups.
const CLAUSE_WORDS: usize = 16;

const GROUP_WORDS: usize = 8;

/// More steps than any search here can take.
const AMPLE: u32 = 1_000_000;

/// Every literal weighs 1.
const EQUAL: [Plain; 2 * VARIABLES] = [Plain(1); 2 * VARIABLES];

/// Literal 3 weighs 9, and every other 1.
const HEAVY_3: [Plain; 2 * VARIABLES] = [
    Plain(1),
    Plain(1),
    Plain(1),
    Plain(1),
    Plain(9),
    Plain(1),
    Plain(1),
    Plain(1),
    Plain(1),
    Plain(1),
];

/// A conflict of two decisions, 1 and 3, whose clauses are told one after another.
const TWO_DECISIONS: [&[i32]; 4] = [&[-1, 2], &[-3, 4], &[-2, -4, 5], &[-2, -4, -5]];

/// The clauses that two variables cannot satisfy.
const ALL_FOUR: [&[i32]; 4] = [&[1, 2], &[1, -2], &[-1, 2], &[-1, -2]];

/// A file that ends before the 0 of its clause.
const CUT_OFF: &[u8] = b"p cnf 1 1\n1";

/// The conflict of two decisions, as a file.
const FILE: &[u8] = b"p cnf 5 4\n-1 2 0\n-3 4 0\n-2 -4 5 0\n-2 -4 -5 0\n";

/// How much is told of a run.
#[derive(Clone, Copy)]
enum Detail {
    /// Its verdict, its steps, and how many literals it undid.
    Brief,
    /// Its steps of each kind besides.
    ByKind,
}

/// What a search is asked, beside its rules and weights: its slots, its assumptions, the limit of each of its runs, and how much
/// is told of them.
#[derive(Clone, Copy)]
struct Setting<'a> {
    slots: u32,
    assumptions: &'a [i32],
    limits: &'a [u32],
    detail: Detail,
}

/// One run with an ample limit, no slot and no assumption.
const USUAL: Setting<'static> = Setting {
    slots: 0,
    assumptions: &[],
    limits: &[AMPLE],
    detail: Detail::Brief,
};

/// A search of a clause book, with a table of weights.
#[derive(Clone, Copy)]
struct ClauseSearch<'a> {
    title: &'a str,
    variables: u32,
    clauses: &'a [&'a [i32]],
    weights: &'a [Plain],
    setting: Setting<'a>,
}

const CLAUSE_SEARCHES: [ClauseSearch<'static>; 7] = [
    ClauseSearch {
        title: "No variable and no clause",
        variables: 0,
        clauses: &[],
        weights: &EQUAL,
        setting: USUAL,
    },
    ClauseSearch {
        title: "No variable, and the clause with no literals",
        variables: 0,
        clauses: &[&[]],
        weights: &EQUAL,
        setting: USUAL,
    },
    ClauseSearch {
        title: "Clauses 1 2, 1 -2, -1 2, -1 -2",
        variables: 2,
        clauses: &ALL_FOUR,
        weights: &EQUAL,
        setting: USUAL,
    },
    ClauseSearch {
        title: "The same, in a run of at most 3 steps and one of at most 1",
        variables: 2,
        clauses: &ALL_FOUR,
        weights: &EQUAL,
        setting: Setting {
            limits: &[3, 1],
            ..USUAL
        },
    },
    ClauseSearch {
        title: "Clauses -1 2, -3 4, -2 -4 5, -2 -4 -5, where 3 weighs 9 and other literals 1, with a slot",
        variables: 5,
        clauses: &TWO_DECISIONS,
        weights: &HEAVY_3,
        setting: Setting { slots: 1, ..USUAL },
    },
    ClauseSearch {
        title: "The same without a slot, so that only the latest decision can be undone",
        variables: 5,
        clauses: &TWO_DECISIONS,
        weights: &HEAVY_3,
        setting: USUAL,
    },
    ClauseSearch {
        title: "Clauses -1 2, -2 -3 over four variables, under the assumptions 4, 1, 3",
        variables: 4,
        clauses: &[&[-1, 2], &[-2, -3]],
        weights: &EQUAL,
        setting: Setting {
            assumptions: &[4, 1, 3],
            ..USUAL
        },
    },
];

fn main(rt: HostRuntime) -> anyhow::Result<()> {
    run(&rt)
}

fn run(rt: &HostRuntime) -> anyhow::Result<()> {
    println!(rt;
        "Searches whose course is known. Each decision takes the lowest unassigned variable and makes it true."
    )?;
    for search in &CLAUSE_SEARCHES {
        search_clauses(rt, search)?;
    }
    search_group(rt)?;
    read_cut_off(rt)?;
    search_file(rt)
}

/// Searches clauses, with a table of weights.
fn search_clauses(rt: &HostRuntime, search: &ClauseSearch) -> anyhow::Result<()> {
    print_title(rt, search.title)?;
    let mut words = [0; CLAUSE_WORDS];
    let mut book = ClauseBook::open(&mut words, search.variables);
    fill(&mut book, search.clauses).map_err(|_| anyhow!("the clauses do not fit their words"))?;
    play(
        rt,
        &search.setting,
        &book.seal(),
        &Table::new(search.weights),
    )
}

/// Adds each clause to the book.
fn fill(book: &mut ClauseBook, clauses: &[&[i32]]) -> Result<(), Refusal> {
    for clause in clauses {
        book.add(clause)?;
    }
    Ok(())
}

/// Searches a group, of which one literal is assumed.
fn search_group(rt: &HostRuntime) -> anyhow::Result<()> {
    print_title(rt, "At most 1 of 1 2 3, under the assumption 2")?;
    let mut words = [0; GROUP_WORDS];
    let mut book = GroupBook::open(&mut words, 3);
    book.add(1, &[1, 2, 3])
        .map_err(|_| anyhow!("the group does not fit its words"))?;
    let setting = Setting {
        assumptions: &[2],
        ..USUAL
    };
    play(rt, &setting, &book.seal(), &Table::new(&EQUAL))
}

/// Reads the file that ends too early.
fn read_cut_off(rt: &HostRuntime) -> anyhow::Result<()> {
    print_title(rt, "A rule file that ends within its only clause")?;
    let mut clause_words = [0; CLAUSE_WORDS];
    let mut clauses = ClauseBook::open(&mut clause_words, 0);
    let mut group_words = [0; GROUP_WORDS];
    let mut groups = GroupBook::open(&mut group_words, 0);
    match books::read(CUT_OFF, &mut clauses, &mut groups) {
        Ok(()) => println!(rt; "  Accepted")?,
        Err(fault) => {
            let fault = Fault::from(fault);
            println!(rt; "  Refused with number, layer, line, place: {fault}")?;
        }
    }
    Ok(())
}

/// Reads a file and searches the join of its books.
fn search_file(rt: &HostRuntime) -> anyhow::Result<()> {
    print_title(
        rt,
        "A rule file with the clauses -1 2, -3 4, -2 -4 5, -2 -4 -5, where implied literals weigh 8 and others 1",
    )?;
    let mut clause_words = [0; CLAUSE_WORDS];
    let mut clauses = ClauseBook::open(&mut clause_words, 0);
    let mut group_words = [0; GROUP_WORDS];
    let mut groups = GroupBook::open(&mut group_words, 0);
    books::read(FILE, &mut clauses, &mut groups).map_err(|_| anyhow!("the file is refused"))?;
    let clauses = clauses.seal();
    let groups = groups.seal();
    let rules = Join {
        first: &clauses,
        second: &groups,
    };
    let setting = Setting {
        slots: 16,
        detail: Detail::ByKind,
        ..USUAL
    };
    play(rt, &setting, &rules, &ByStanding)
}

/// Searches in a session of its own, and prints what each run came to and how the search ended.
fn play<S: Source, W: Weigher>(
    rt: &HostRuntime,
    setting: &Setting,
    source: &S,
    weigher: &W,
) -> anyhow::Result<()> {
    let mut words = [0; WORDS];
    let mut session = Idle::open(&mut words, source.variables(), setting.slots);
    for literal in setting.assumptions {
        let _ = session.assume(*literal);
    }
    let mut search = session.begin();
    let played = play_runs(rt, &mut search, setting, source, weigher);
    let settled = search.settle();
    let printed = print_ending(rt, &settled);
    // A session is let go by `close` alone, so what went wrong is answered only behind it.
    settled.reopen().close();
    played?;
    printed?;
    Ok(())
}

/// Runs the search once for each limit, and prints what each run came to.
fn play_runs<S: Source, W: Weigher>(
    rt: &HostRuntime,
    search: &mut Search,
    setting: &Setting,
    source: &S,
    weigher: &W,
) -> anyhow::Result<()> {
    let mut scratch = [0; VARIABLES];
    for limit in setting.limits {
        let report = search
            .run(*limit, source, &[], weigher, &mut scratch)
            .map_err(|_| anyhow!("a run is refused"))?;
        print_report(rt, &report, setting.detail)?;
    }
    Ok(())
}

fn print_title(rt: &HostRuntime, title: &str) -> io::Result<()> {
    println!(rt)?;
    println!(rt; "{title}")
}

fn print_report(rt: &HostRuntime, report: &Report, detail: Detail) -> io::Result<()> {
    println!(rt;
        "  {:?}, steps {}, undone {}",
        report.verdict, report.steps, report.undone
    )?;
    match detail {
        Detail::Brief => Ok(()),
        Detail::ByKind => println!(rt;
            "  assumed {}, decided {}, implied {}, conflicts {}",
            report.assumed, report.decided, report.implied, report.conflicts
        ),
    }
}

/// Prints the values of a model, or the assumptions that a refutation names.
fn print_ending(rt: &HostRuntime, settled: &Settled) -> io::Result<()> {
    match settled.verdict() {
        Verdict::Model => print_literals(rt, "values", |literal| {
            settled.value(literal.unsigned_abs()) == Ok(literal > 0)
        }),
        Verdict::Refuted => {
            print_literals(rt, "named", |literal| settled.named(literal) == Ok(true))
        }
        Verdict::Open | Verdict::Paused => println!(rt; "  not known yet"),
    }
}

/// Prints the literals that pass the test, by rising variable.
// The variables go up to the most of any search: of those that it does not have a session refuses to tell, so they pass no test.
fn print_literals<F: Fn(i32) -> bool>(rt: &HostRuntime, label: &str, is_listed: F) -> io::Result<()>
    requires { F.IsAlwaysCallable is_listed }
{
    print!(rt; "  {label}:")?;
    let mut is_empty = true;
    for variable in 1..=VARIABLES as i32 {
        for literal in [variable, variable.wrapping_neg()] {
            if is_listed(literal) {
                print!(rt; " {literal}")?;
                is_empty = false;
            }
        }
    }
    if is_empty {
        print!(rt; " none")?;
    }
    println!(rt)
}
