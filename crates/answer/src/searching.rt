//! The search of a file's rules.
ghost use Rattle.std.specs.Prelude.{◌≡◌, ◌≤◌, ◌<◌, true, take};
ghost use Rattle.session.specs.Sessions.{is_model};
ghost use Rattle.answer.specs.Lines.{true_literal as literal_by, true_literals as literals_by};
ghost use Rattle.answer.specs.Searching.{Searched, variables_of, values_of};
ghost use Rattle.answer.specs.Answers.{answer_text};

use crate::answers::{Answer, Counts};
use crate::model::{MOST_VALUES, Model};
use rules::source::Source;
use session::report::Verdict;
use session::{Idle, Settled};
use weights::weighers::ByStanding;

/// How many learned clauses the search can store.
const SLOTS: u32 = 16;

/// How many words the session takes: 6n + (n + L)(n + 1), with the most variables.
const SESSION_WORDS: usize = 5_584;

/// The most steps of the search.
const MOST_STEPS: u32 = 1_000_000;

/// Searches rules of at most 64 variables.
pub(crate) fn search<S: Source>(rules: &S) -> Answer
    requires { (S.Source.meaning rules.now).count ≤ 64 }
    ensures { Searched (S.Source.meaning rules.now) (answer_text result) }
{
    let mut words = [0; SESSION_WORDS];
    let mut scratch = [0; MOST_VALUES];
    let mut search = Idle::open(&mut words, rules.variables(), SLOTS).begin();
    let report = search
        .run(MOST_STEPS, rules, &[], &ByStanding, &mut scratch)
        .unwrap();
    let counts = Counts(report);
    let settled = search.settle();
    let answer = match settled.verdict() {
        Verdict::Model => Answer::Satisfiable {
            model: model_of(&settled, rules.variables() as usize),
            counts,
        },
        Verdict::Refuted => Answer::Unsatisfiable { counts },
        Verdict::Open | Verdict::Paused => Answer::Unknown { counts },
    };
    settled.reopen().close();
    answer
}

/// The model of a search, which has so many variables.
fn model_of(settled: &Settled<'_>, count: usize) -> Model
    requires model { is_model settled.now.progress.verdict ≡ true }
    requires few { count ≤ 64 }
    requires all { count ≤ variables_of settled.now }
    ensures { take result.count result.literals ≡ literals_by count (values_of settled.now) }
{
    let mut literals = [0; MOST_VALUES];
    for place in 0..count {
        literals[place] = true_literal(settled, place as u32 + 1);
    }
    Model { literals, count }
}

/// The literal of a variable that the model makes true.
fn true_literal(settled: &Settled<'_>, variable: u32) -> i32
    requires model { is_model settled.now.progress.verdict ≡ true }
    requires few { variable ≤ 64 }
    requires named { 0 < variable }
    requires all { variable ≤ variables_of settled.now }
    ensures { result ≡ literal_by (values_of settled.now) variable }
{
    if settled.value(variable).unwrap() {
        variable as i32
    } else {
        -(variable as i32)
    }
}
