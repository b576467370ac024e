//! The states that a script goes through.
use crate::answer::Answer;
use crate::player::{MOST_LINES, Player};
use crate::script::{Call, Choice, Lending, Mistake};
use rules::clauses::{ClauseBook, SealedClauses};
use rules::groups::{GroupBook, SealedGroups};
use rules::join::Join;
use rules::source::Source;
use session::{Idle, Search, Settled};

/// The sealed books, as far as they were opened, and which of them are chosen first.
#[derive(Clone, Copy)]
struct Shelf<'a> {
    clauses: Option<SealedClauses<'a>>,
    groups: Option<SealedGroups<'a>>,
    first: Choice,
}

/// Plays the script to its end.
pub(crate) fn play(rt: &HostRuntime) -> anyhow::Result<()> {
    let mut player = Player::new(rt)?;
    for _ in 0..MOST_LINES {
        let mut clause_words = Vec::new(rt.alloc());
        let mut group_words = Vec::new(rt.alloc());
        if let Some(shelf) = fill(&mut player, &mut clause_words, &mut group_words) {
            play_sealed(&mut player, &shelf);
        }
        if !player.begins_anew() {
            break;
        }
    }
    player.finish()
}

/// Opens books over fresh words and fills them, until a source is chosen of them.
fn fill<'a>(
    player: &mut Player,
    clause_words: &'a mut Vec<i32>,
    group_words: &'a mut Vec<i32>,
) -> Option<Shelf<'a>> {
    // Its room is taken when a book is opened, and is gone from then on.
    let mut clause_room = Some(clause_words);
    let mut group_room = Some(group_words);
    let mut clauses = None;
    let mut groups = None;
    for _ in 0..MOST_LINES {
        match player.next_call()? {
            Call::ClauseBook { lending } => match clause_room.take() {
                Some(room) => {
                    *room = player.lend(lending)?;
                    clauses = Some(ClauseBook::open(room, lending.variables));
                }
                None => player.reject(Mistake::SecondClauseBook),
            },
            Call::GroupBook { lending } => match group_room.take() {
                Some(room) => {
                    *room = player.lend(lending)?;
                    groups = Some(GroupBook::open(room, lending.variables));
                }
                None => player.reject(Mistake::SecondGroupBook),
            },
            Call::Source { choice } => match choice.check(clauses.is_some(), groups.is_some()) {
                Ok(()) => return Some(Shelf {
                    clauses: clauses.map(ClauseBook::seal),
                    groups: groups.map(GroupBook::seal),
                    first: choice,
                }),
                Err(mistake) => player.reject(mistake),
            },
            call => add(player, &mut clauses, &mut groups, call),
        }
    }
    None
}

/// Adds a rule to a book that stands.
fn add(
    player: &mut Player,
    clauses: &mut Option<ClauseBook>,
    groups: &mut Option<GroupBook>,
    call: Call,
) {
    match call {
        Call::Clause { literals } => match clauses {
            Some(book) => player.answer(book.add(&literals)),
            None => player.reject(Mistake::NoClauseBook),
        },
        Call::Group { limit, literals } => match groups {
            Some(book) => player.answer(book.add(limit, &literals)),
            None => player.reject(Mistake::NoGroupBook),
        },
        _ => player.reject(Mistake::NoSource),
    }
}

/// Plays on with the books sealed: those are questioned that are chosen, until all begins anew.
fn play_sealed(player: &mut Player, shelf: &Shelf) {
    let mut choice = shelf.first;
    for _ in 0..MOST_LINES {
        player.answer(());
        let next = match (choice, &shelf.clauses, &shelf.groups) {
            (Choice::Clauses, Some(clauses), _) => play_source(player, shelf, clauses),
            (Choice::Groups, _, Some(groups)) => play_source(player, shelf, groups),
            (Choice::ClausesFirst, Some(first), Some(second)) => {
                play_source(player, shelf, &Join { first, second })
            }
            (Choice::GroupsFirst, Some(second), Some(first)) => {
                play_source(player, shelf, &Join { first, second })
            }
            // A choice of books that do not stand was rejected.
            _ => None,
        };
        match next {
            Some(other) => choice = other,
            None => break,
        }
    }
}

/// Plays sessions whose runs question the source, until another is chosen or all begins anew.
fn play_source<S: Source>(player: &mut Player, shelf: &Shelf, source: &S) -> Option<Choice> {
    for _ in 0..MOST_LINES {
        match player.next_call()? {
            Call::Open { lending, slots } => play_session(player, source, lending, slots),
            Call::Source { choice } => {
                match choice.check(shelf.clauses.is_some(), shelf.groups.is_some()) {
                    Ok(()) => return Some(choice),
                    Err(mistake) => player.reject(mistake),
                }
            }
            call @ (Call::ClauseBook { .. } | Call::GroupBook { .. }) => {
                player.begin_anew(call);
                return None;
            }
            Call::Clause { .. } | Call::Group { .. } => player.reject(Mistake::SealedBooks),
            _ => player.reject(Mistake::NoSession),
        }
    }
    None
}

/// Plays a session until it is closed.
fn play_session<S: Source>(player: &mut Player, source: &S, lending: Lending, slots: u32) {
    let Some(mut words) = player.lend(lending) else {
        return;
    };
    let mut session = Idle::open(&mut words, lending.variables, slots);
    for _ in 0..MOST_LINES {
        if !play_idle(player, &mut session) {
            break;
        }
        session = play_search(player, source, session.begin());
    }
    session.close();
}

/// Plays an idle session until a search begins, or else the session is to be closed.
fn play_idle(player: &mut Player, session: &mut Idle) -> bool {
    for _ in 0..MOST_LINES {
        let Some(call) = player.next_call() else {
            break;
        };
        match call {
            Call::Assume { literal } => player.answer(session.assume(literal)),
            Call::Clear => {
                session.clear();
                player.answer(());
            }
            Call::Begin => {
                player.answer(());
                return true;
            }
            Call::Close => {
                player.answer(());
                break;
            }
            Call::Run { .. }
            | Call::Settle
            | Call::Value { .. }
            | Call::Named { .. }
            | Call::Reopen => {
                player.reject(Mistake::NoSearch);
            }
            _ => player.reject(Mistake::OpenSession),
        }
    }
    false
}

/// Plays a search until its session is idle again.
fn play_search<'a, S: Source>(player: &mut Player, source: &S, mut search: Search<'a>) -> Idle<'a> {
    for _ in 0..MOST_LINES {
        let Some(call) = player.next_call() else {
            break;
        };
        match call {
            Call::Run { limit, scratch } => play_run(player, source, &mut search, limit, scratch),
            Call::Settle => return play_settled(player, search.settle()),
            _ => player.reject(Mistake::Unsettled),
        }
    }
    search.settle().reopen()
}

/// Plays a run, with fresh scratch.
fn play_run<S: Source>(
    player: &mut Player,
    source: &S,
    search: &mut Search,
    limit: u32,
    scratch: usize,
) {
    if let Some(mut scratch) = player.fresh(scratch) {
        let report = player.guides.run(search, limit, source, &mut scratch);
        player.answer(report);
    }
}

/// Plays a settled session until it is idle again.
fn play_settled<'a>(player: &mut Player, settled: Settled<'a>) -> Idle<'a> {
    player.answer(Answer::Settled(settled.verdict()));
    for _ in 0..MOST_LINES {
        let Some(call) = player.next_call() else {
            break;
        };
        match call {
            Call::Value { variable } => player.answer(settled.value(variable)),
            Call::Named { literal } => player.answer(settled.named(literal)),
            Call::Reopen => {
                player.answer(());
                break;
            }
            _ => player.reject(Mistake::Settled),
        }
    }
    settled.reopen()
}
