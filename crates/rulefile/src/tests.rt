//! Rule files on examples.
use crate::books::read;
use crate::faults::{Fault, Layer};
use crate::words::Position;
use rules::clauses::ClauseBook;
use rules::groups::GroupBook;
use std::test::Fail;

/// The number, layer, line and place of the fault that a text has in books of six words; zeros for none.
fn fault(text: &[u8]) -> [usize; 4] {
    let mut clause_words = [7; 6];
    let mut group_words = [7; 6];
    let mut clauses = ClauseBook::open(&mut clause_words, 0);
    let mut groups = GroupBook::open(&mut group_words, 0);
    match read(text, &mut clauses, &mut groups) {
        Ok(()) => [0; 4],
        Err(fault) => {
            let Fault { number, layer, at } = fault.into();
            [number as usize, layer as usize, at.line, at.place]
        }
    }
}

#[test]
fn a_fault_in_print(rt: HostRuntime) -> Result<(), Fail> {
    let fault = Fault {
        number: 13,
        layer: Layer::Form,
        at: Position {
            line: 2,
            place: 1_234_567,
        },
    };
    assert_eq!(rt; fault.to_string(rt.alloc())?.as_str(), "13 2 2 1234567");
    Ok(())
}

#[test]
fn faults_of_words(rt: HostRuntime) {
    assert_eq!(rt; fault(b"p cnf 1 1\n1 -0 0\n"), [10, 1, 2, 12]);
    assert_eq!(rt; fault(b"p cnf 1 1 1234567890x"), [10, 1, 1, 10]);
    assert_eq!(rt; fault(b"p cnf 1 1\r\n-1234567890"), [11, 1, 2, 11]);
    assert_eq!(rt; fault(b"01"), [10, 1, 1, 0]);
}

#[test]
fn faults_of_the_form(rt: HostRuntime) {
    assert_eq!(rt; fault(b""), [13, 2, 1, 0]);
    assert_eq!(rt; fault(b"p cnf 1 1\n1"), [13, 2, 2, 11]);
    assert_eq!(rt; fault(b"p\ncnf 1 0"), [13, 2, 2, 9]);
    assert_eq!(rt; fault(b"\xef\xbb\xbfp cnf 0 0"), [10, 2, 1, 0]);
    assert_eq!(rt; fault(b"p cnf -5 0"), [10, 2, 1, 6]);
    assert_eq!(rt; fault(b"p cnf 1001 x"), [11, 2, 1, 6]);
    assert_eq!(rt; fault(b"p cnf 1 0\na 1 0\n0"), [12, 2, 3, 16]);
    assert_eq!(rt; fault(b"p cnf 1 1\n"), [12, 2, 2, 10]);
}

#[test]
fn faults_of_the_books(rt: HostRuntime) {
    assert_eq!(rt; fault(b"p cnf 1 1 1 2 0"), [2, 3, 1, 10]);
    assert_eq!(rt; fault(b"p cnf 3 0 a 1 1 -1 0"), [9, 3, 1, 10]);
    assert_eq!(rt; fault(b"p cnf 9 1 1 2 3 4 5 6 0"), [8, 3, 1, 10]);
    assert_eq!(rt; fault(b"p cnf 9 1 1 2 3 4 5 6 x"), [10, 2, 1, 22]);
}

#[test]
fn a_file_that_is_read(rt: HostRuntime) -> Result<(), Fail> {
    let mut clause_words = [7; 6];
    let mut group_words = [7; 6];
    let mut clauses = ClauseBook::open(&mut clause_words, 0);
    let mut groups = GroupBook::open(&mut group_words, 0);
    let text = b"c a comment\np cnf 3 2\n1 -2 1 1\nc within a clause\n1 0 a 1 -1\n3 0 0\n";
    read(text, &mut clauses, &mut groups)?;
    assert_eq!(rt; clauses.words(), [1, -2, 0, 0, 0, 0].as_slice());
    assert_eq!(rt; groups.words(), [-1, 3, 2, 0, 0, 0].as_slice());
    Ok(())
}
