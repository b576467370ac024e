//! What a search is and what is promised of every session, as theorems about the definitions in `specs/`.
//! Each function here stands for a theorem: its contract is the statement, and it does nothing.
#![tactic(auto)]

ghost use Rattle.theory.specs.Determined.{ChunkDecided, LookDetermined, ChoiceDetermined, AnalysisDetermined, EndDetermined, StepDetermined, EndOrStep, EndOrStepThere, RunDetermined, AnswersDetermined, CallsAnswered};
ghost use Rattle.theory.specs.KnownRuns.{KnownRuns};
ghost use Rattle.theory.specs.Laws.{RunsJoin, PausedAtLimit, LongRunsEnd, VerdictsAgree, RunsCounted, StepsPlaced};
ghost use Rattle.theory.specs.Promise.{PromiseKept, PromiseKeptBefore};

/// For every list of calls from an opening on, with any number of variables and slots: a search that has ended gave Refuted exactly
/// when no admitted assignment makes all its assumptions true, and then none makes all the named ones true, and otherwise Model with
/// such an assignment, provided that its runs questioned one unchanged lawful source. With lawful sources alone its runs reported
/// fewer than (L + 1) × (n + 1)^(n + 1) steps in all; and each conflict step undid just one allowed chunk, at most as heavy as
/// every other allowed one, while every other step only placed a literal, and the trail stayed well formed.
pub fn promise_kept()
    ensures { PromiseKept }
{}

/// The same held at every earlier moment, and so of every search of the session.
pub fn promise_kept_before()
    ensures { PromiseKeptBefore }
{}

/// A run's steps are those of its four kinds and at most its limit; and a search's trail with what its runs undid is as many
/// literals as they reported steps.
pub fn steps_counted()
    ensures { RunsCounted × StepsPlaced }
{}

/// A run of limit a and then one of limit b, with all else alike, come to one run of limit a + b with the reports added.
pub fn runs_join()
    ensures { RunsJoin }
{}

/// A run that gives Paused took just as many steps as its limit allows.
pub fn pause_uses_limit()
    ensures { PausedAtLimit }
{}

/// A granted run whose limit is (L + 1) × (n + 1)^(n + 1) or more ends the search, where the sources were lawful.
pub fn long_runs_end()
    ensures { LongRunsEnd }
{}

/// Searches of one lawful source under the same assumptions give the same verdict once they have ended, whatever their slots,
/// weighers, preference lists, limits and earlier calls.
pub fn verdicts_agree()
    ensures { VerdictsAgree }
{}

/// The test for membership decides the chunk as it is defined.
pub fn chunk_decided()
    ensures { ChunkDecided }
{}

/// A look finds one clause or none, one chunk is chosen, the analysis leaves one set, a position ends in one way or leads to one
/// step and never both, and a run has one report and leads to one search.
pub fn rules_determine()
    ensures { LookDetermined × ChoiceDetermined × AnalysisDetermined × EndDetermined × StepDetermined × EndOrStep × RunDetermined }
{}

/// At every position with a well-formed trail there is an end or a step, where the source is lawful and the weighing compares as an
/// order does.
pub fn search_goes_on()
    ensures { EndOrStepThere }
{}

/// The calls alone determine what was answered and the state that they led to.
pub fn answers_determined()
    ensures { AnswersDetermined }
{}

/// Every call that a state takes has an answer, where runs are given lawful sources and weighings that compare as an order does.
pub fn calls_answered()
    ensures { CallsAnswered }
{}

/// The known runs go as they should by the rules, and their books are lawful sources.
pub fn known_runs_hold()
    ensures { KnownRuns }
{}
