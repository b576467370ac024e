//! The books on examples.
use crate::book::Book;
use crate::clauses::ClauseBook;
use crate::groups::GroupBook;
use crate::join::Join;
use crate::refusal::Refusal;
use crate::source::Source;
use std::test::Fail;

#[test]
fn a_repeat_takes_no_word(rt: HostRuntime) -> Result<(), Fail> {
    let mut words = [7; 5];
    let mut book = ClauseBook::open(&mut words, 3);
    book.add(&[1, -2, 1, -2])?;
    assert_eq!(rt; book.words(), [1, -2, 0, 0, 0].as_slice());
    Ok(())
}

#[test]
fn a_clause_fits_to_the_word(rt: HostRuntime) {
    let mut words = [7; 3];
    let mut book = ClauseBook::open(&mut words, 3);
    assert_eq!(rt; book.add(&[1, 2, 3]), Err(Refusal::NoRoom));
    assert_eq!(rt; book.add(&[1, 2, 4]), Err(Refusal::NoVariable));
    assert_eq!(rt; book.words(), [0, 0, 0].as_slice());
    assert_eq!(rt; book.add(&[1, 2]), Ok(()));
    assert_eq!(rt; book.add(&[]), Err(Refusal::NoRoom));
    assert_eq!(rt; book.words(), [1, 2, 0].as_slice());
}

#[test]
fn too_many_variables_count_as_none(rt: HostRuntime) {
    let mut words = [7; 2];
    let mut book = ClauseBook::open(&mut words, 1001);
    assert_eq!(rt; book.add(&[1]), Err(Refusal::NoVariable));
    assert_eq!(rt; book.add(&[]), Ok(()));
}

#[test]
fn a_clause_literal_by_literal(rt: HostRuntime) {
    let mut words = [7; 4];
    let mut book = ClauseBook::open(&mut words, 2);
    book.push(2);
    book.push(2);
    book.push(-1);
    assert_eq!(rt; book.end(), Ok(()));
    book.push(3);
    book.push(1);
    assert_eq!(rt; book.end(), Err(Refusal::NoVariable));
    assert_eq!(rt; book.words(), [2, -1, 0, 0].as_slice());
}

#[test]
fn a_group_fits_to_the_word(rt: HostRuntime) {
    let mut words = [7; 4];
    let mut book = GroupBook::open(&mut words, 3);
    assert_eq!(rt; book.add(1, &[2, 1, 3, 4]), Err(Refusal::NoVariable));
    assert_eq!(rt; book.add(1, &[1, 2, -2, 3]), Err(Refusal::NotRising));
    assert_eq!(rt; book.add(1, &[1, 2, 3]), Err(Refusal::NoRoom));
    assert_eq!(rt; book.words(), [0, 0, 0, 0].as_slice());
    assert_eq!(rt; book.add(1, &[-1, 3]), Ok(()));
    assert_eq!(rt; book.words(), [-1, 3, 2, 0].as_slice());
}

#[test]
fn a_group_literal_by_literal(rt: HostRuntime) {
    let mut words = [7; 5];
    let mut book = GroupBook::open(&mut words, 2);
    book.push(2);
    book.push(1);
    assert_eq!(rt; book.end(0), Err(Refusal::NotRising));
    book.push(1);
    book.push(-2);
    assert_eq!(rt; book.end(0), Ok(()));
    assert_eq!(rt; book.words(), [1, -2, 1, 0, 0].as_slice());
}

#[test]
fn the_largest_limit(rt: HostRuntime) -> Result<(), Fail> {
    let mut words = [7; 2];
    let mut book = GroupBook::open(&mut words, 0);
    book.add(u32::MAX, &[])?;
    assert_eq!(rt; book.words(), [1_000_000_000, 0].as_slice());
    Ok(())
}

#[test]
fn the_numbers_of_refusals(rt: HostRuntime) {
    assert_eq!(rt; u8::from(Refusal::NoVariable), 2);
    assert_eq!(rt; u8::from(Refusal::NoRoom), 8);
    assert_eq!(rt; u8::from(Refusal::NotRising), 9);
}

#[test]
fn the_first_falsified_clause_is_told(rt: HostRuntime) -> Result<(), Fail> {
    let mut words = [0; 20];
    let mut book = ClauseBook::open(&mut words, 3);
    book.add(&[1, -1])?;
    book.add(&[-1, 3])?;
    book.add(&[-1, -2])?;
    book.add(&[-2])?;
    let book = book.seal();
    let mut page = [1, 2, 0, 7, 7, 7];
    assert_eq!(rt; book.question(&mut page), Some(2));
    assert_eq!(rt; &page, &[1, 2, 0, -1, -2, 7]);
    let mut page = [1, 0, 0, 7, 7];
    assert_eq!(rt; book.question(&mut page), Some(2));
    assert_eq!(rt; &page, &[1, 0, 0, -1, 3]);
    let mut page = [-1, -2, 0, 7];
    assert_eq!(rt; book.question(&mut page), None);
    assert_eq!(rt; &page, &[-1, -2, 0, 7]);
    Ok(())
}

#[test]
fn what_does_not_fit_the_page_is_cut_off(rt: HostRuntime) -> Result<(), Fail> {
    let mut words = [0; 5];
    let mut book = ClauseBook::open(&mut words, 2);
    book.add(&[-1, 2])?;
    let book = book.seal();
    let mut page = [1, 0, 7];
    assert_eq!(rt; book.question(&mut page), Some(2));
    assert_eq!(rt; &page, &[1, 0, -1]);
    let mut page = [1];
    assert_eq!(rt; book.question(&mut page), Some(2));
    assert_eq!(rt; &page, &[1]);
    Ok(())
}

#[test]
fn the_empty_clause_is_always_told(rt: HostRuntime) -> Result<(), Fail> {
    let mut words = [0; 3];
    let mut book = ClauseBook::open(&mut words, 1);
    book.add(&[1])?;
    book.add(&[])?;
    let book = book.seal();
    let mut page = [0, 7];
    assert_eq!(rt; book.question(&mut page), Some(0));
    assert_eq!(rt; &page, &[0, 7]);
    Ok(())
}

#[test]
fn a_group_tells_the_negations_of_the_true_ones(rt: HostRuntime) -> Result<(), Fail> {
    let mut words = [0; 10];
    let mut book = GroupBook::open(&mut words, 4);
    book.add(1, &[1, 2, -3, 4])?;
    let book = book.seal();
    let mut page = [1, 0, -3, 4, 7, 7];
    assert_eq!(rt; book.question(&mut page), Some(2));
    assert_eq!(rt; &page, &[1, 0, -3, 4, -1, 3]);
    let mut page = [0, -2, -3, 0, 7, 7];
    assert_eq!(rt; book.question(&mut page), Some(2));
    assert_eq!(rt; &page, &[0, -2, -3, 0, 3, -1]);
    let mut page = [-1, -2, 3, 0, 7, 7];
    assert_eq!(rt; book.question(&mut page), None);
    Ok(())
}

#[test]
fn a_join_asks_the_first_and_then_the_second(rt: HostRuntime) -> Result<(), Fail> {
    let mut clause_words = [0; 3];
    let mut group_words = [0; 4];
    let mut clauses = ClauseBook::open(&mut clause_words, 2);
    clauses.add(&[1, 2])?;
    let clauses = clauses.seal();
    let mut groups = GroupBook::open(&mut group_words, 2);
    groups.add(1, &[1, 2])?;
    let groups = groups.seal();
    let both = Join {
        first: &clauses,
        second: &groups,
    };
    assert_eq!(rt; both.variables(), 2);
    let mut page = [-1, -2, 7, 7];
    assert_eq!(rt; both.question(&mut page), Some(2));
    assert_eq!(rt; &page, &[-1, -2, 1, 2]);
    let mut page = [1, 2, 7, 7];
    assert_eq!(rt; both.question(&mut page), Some(2));
    assert_eq!(rt; &page, &[1, 2, -1, -2]);
    Ok(())
}

#[test]
fn a_join_of_unequal_counts_is_silent(rt: HostRuntime) -> Result<(), Fail> {
    let mut clause_words = [0; 1];
    let mut group_words = [0; 0];
    let mut clauses = ClauseBook::open(&mut clause_words, 2);
    clauses.add(&[])?;
    let clauses = clauses.seal();
    let groups = GroupBook::open(&mut group_words, 1).seal();
    let both = Join {
        first: &clauses,
        second: &groups,
    };
    assert_eq!(rt; both.variables(), 0);
    let mut page = [7, 7];
    assert_eq!(rt; both.question(&mut page), None);
    assert_eq!(rt; &page, &[7, 7]);
    Ok(())
}
