//! Small cases of each scale, weigher and choice.
use crate::chooser::{Candidate, Chooser};
use crate::order::{Order, Scale};
use crate::scales::{Plain, Ranked};
use crate::weigher::{Member, Standing, Weigher};
use crate::weighers::{ByStanding, Table};

fn ranked(first: u32, second: u32) -> Ranked {
    Ranked {
        first: Plain(first),
        second: Plain(second),
    }
}

fn member(literal: i32, standing: Standing) -> Member {
    Member {
        literal,
        standing,
        place: 0,
    }
}

#[test]
fn plain_adding_stops_at_the_largest(rt: HostRuntime) {
    assert_eq!(rt; Plain(u32::MAX - 1).plus(Plain(1)), Plain(u32::MAX));
    assert_eq!(rt; Plain(u32::MAX).plus(Plain(2)), Plain(u32::MAX));
}

#[test]
fn ranked_compares_by_first_then_second(rt: HostRuntime) {
    assert!(rt; ranked(1, 9).at_most(&ranked(2, 0)));
    assert!(rt; !ranked(2, 0).at_most(&ranked(1, 9)));
    assert!(rt; ranked(2, 3).at_most(&ranked(2, 3)));
    assert!(rt; !ranked(2, 4).at_most(&ranked(2, 3)));
    assert_eq!(rt; ranked(1, u32::MAX).plus(ranked(2, 1)), ranked(3, u32::MAX));
}

#[test]
fn table_weighs_by_its_entries(rt: HostRuntime) {
    let weights = [Plain(10), Plain(11), Plain(12)];
    let table = Table::new(&weights);
    assert_eq!(rt; table.weigh(member(1, Standing::Implied)), Plain(10));
    assert_eq!(rt; table.weigh(member(-1, Standing::Implied)), Plain(11));
    assert_eq!(rt; table.weigh(member(2, Standing::Assumed)), Plain(12));
    assert_eq!(rt; table.weigh(member(-2, Standing::Assumed)), Plain(0));
    assert_eq!(rt; table.weigh(member(0, Standing::Decided)), Plain(0));
    assert_eq!(rt; table.weigh(member(i32::MIN, Standing::Decided)), Plain(0));
}

#[test]
fn an_implied_member_weighs_eight(rt: HostRuntime) {
    assert_eq!(rt; ByStanding.weigh(member(1, Standing::Implied)), Plain(8));
    assert_eq!(rt; ByStanding.weigh(member(1, Standing::Assumed)), Plain(1));
    assert_eq!(rt; ByStanding.weigh(member(1, Standing::Decided)), Plain(1));
}

#[test]
fn a_tie_keeps_the_first(rt: HostRuntime) {
    let mut chooser = Chooser::new();
    assert_eq!(rt; chooser.chosen(), None);
    chooser.offer(Candidate {
        place: 7,
        weight: Plain(5),
    });
    chooser.offer(Candidate {
        place: 4,
        weight: Plain(3),
    });
    chooser.offer(Candidate {
        place: 2,
        weight: Plain(3),
    });
    assert_eq!(rt;
        chooser.chosen(),
        Some(Candidate {
            place: 4,
            weight: Plain(3),
        })
    );
}
