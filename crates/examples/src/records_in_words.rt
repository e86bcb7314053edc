// Records in words: a line for each, and none behind what cannot be read.
use books::{Book, ProtestBook, RuleBook};
use explaining::{Explainer, Sorted};
use rulings::Ruling;
use std::alloc::{AllocError, Global};
use std::process::Abort;
use std::test::Fail;

// The lines that records are to be told in, and no others.
fn assert_lines<B: Book + Sorted + Drop>(
    rt: &(impl Abort + AllocGlobal),
    mut explainer: Explainer<B>,
    expected: &[&str],
) -> Result<(), Fail> {
    for told in expected {
        let Some(line) = explainer.next_line(rt.alloc())? else {
            return Err(Fail::new("no line is left"));
        };
        let line = format!(in rt.alloc(); "{line}")?;
        assert_eq!(rt; line.as_str(), *told);
    }
    assert!(rt; explainer.next_line(rt.alloc())?.is_none());
    Ok(())
}

// Opens a book of two points, enters that 0 stands unless 1 does, lists, reads, and then has an unknown kind.
fn records(heap: Global) -> Result<Vec<u8>, AllocError> {
    let mut input = Vec::new(heap);
    input.extend_from_slice(&[1, 2, 2, 0])?;
    input.extend_from_slice(&Ruling::empty().bytes())?;
    input.extend_from_slice(&Ruling::from_points(&[1]).bytes())?;
    input.extend_from_slice(&[8, 7, 10, 7])?;
    Ok(input)
}

#[test]
fn records_for_a_rule_book(rt: HostRuntime) -> Result<(), Fail> {
    let input = records(rt.alloc())?;
    assert_lines(
        &rt,
        Explainer::new(RuleBook::new(), &input),
        &[
            "open 2: done",
            "enter 0 if not 1: done",
            "list: 1 ruling, effort 4: {0}",
            "read: sure {0}, possible {0}",
            "record at byte 38: denied by the reader: unknown record (refusal 14)",
        ],
    )
}

#[test]
fn records_for_a_protest_book(rt: HostRuntime) -> Result<(), Fail> {
    let input = records(rt.alloc())?;
    assert_lines(
        &rt,
        Explainer::new(ProtestBook::new(), &input),
        &[
            "open 2: done",
            "lodge 0, protested by {1}: done",
            "list: 1 ruling, effort 4: {0}",
            "read: sure {0}, possible {0}",
            "record at byte 38: denied by the reader: unknown record (refusal 14)",
        ],
    )
}

#[test]
fn an_input_that_is_too_long_is_one_line(rt: HostRuntime) -> Result<(), Fail> {
    let input = vec![in rt.alloc(); 7u8; 32_769]?;
    assert_lines(
        &rt,
        Explainer::new(RuleBook::new(), &input),
        &["denied by the reader: input too long (refusal 12)"],
    )
}
