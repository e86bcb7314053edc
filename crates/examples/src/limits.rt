// Calls at the limits of what the book takes.
use crate::support::opened_book;
use answers::{Fault, Layer, Refusal};
use books::{Book, RuleBook};
use rulings::Ruling;
use std::test::Fail;

fn denied(refusal: Refusal) -> Result<(), Fault> {
    Err(Fault::new(Layer::Book, refusal))
}

#[test]
fn sizes_from_1_to_128(rt: HostRuntime) {
    let mut book = RuleBook::new();
    assert_eq!(rt; book.size(), 1);
    assert_eq!(rt; book.open(0), denied(Refusal::BadSize));
    assert_eq!(rt; book.open(129), denied(Refusal::BadSize));
    assert_eq!(rt; book.size(), 1, "a refused opening alters nothing");
    assert_eq!(rt; book.open(128), Ok(()));
    assert_eq!(rt; book.size(), 128);
    assert_eq!(rt; book.open(1), Ok(()));
}

#[test]
fn points_127_and_128(rt: HostRuntime) -> Result<(), Fail> {
    let mut book = opened_book(128)?;
    let none = Ruling::empty();
    assert_eq!(rt; book.enter(127, none, none), Ok(()));
    assert!(rt; book.derives(127, none, none));
    assert_eq!(rt;
        book.enter(128, none, none),
        denied(Refusal::NoSuchPoint(128))
    );
    assert_eq!(rt; book.withdraw(128), denied(Refusal::NoSuchPoint(128)));
    assert_eq!(rt; book.withdraw(126), denied(Refusal::NothingEntered(126)));
    assert_eq!(rt; book.withdraw(127), Ok(()));
    assert_eq!(rt; book.withdraw(127), denied(Refusal::NothingEntered(127)));
    Ok(())
}

#[test]
fn stray_marks_of_both_rulings(rt: HostRuntime) -> Result<(), Fail> {
    let mut book = opened_book(4)?;
    let low = Ruling::from_points(&[0, 5]);
    let high = Ruling::from_points(&[3, 90]);
    assert_eq!(rt; book.enter(0, low, high), denied(Refusal::StrayMark(5)));
    assert_eq!(rt; book.enter(0, high, low), denied(Refusal::StrayMark(5)));
    assert_eq!(rt; book.enter(0, high, high), denied(Refusal::StrayMark(90)));
    assert_eq!(rt;
        book.enter(4, high, low),
        denied(Refusal::NoSuchPoint(4)),
        "the smaller number goes first"
    );
    assert!(rt; !book.reads(0, 0));
    Ok(())
}

#[test]
fn entries_256_and_257(rt: HostRuntime) -> Result<(), Fail> {
    let mut book = opened_book(2)?;
    let none = Ruling::empty();
    book.enter(1, none, none)?;
    for _ in 0..255 {
        book.enter(0, none, none)?;
    }
    assert_eq!(rt; book.enter(0, none, none), denied(Refusal::BookFull));
    assert_eq!(rt; book.enter(2, none, none), denied(Refusal::NoSuchPoint(2)));
    book.withdraw(0)?;
    assert_eq!(rt;
        book.enter(0, none, none),
        Ok(()),
        "the places are used again"
    );
    assert!(rt; book.derives(1, none, none), "the other entry stayed");
    Ok(())
}

#[test]
fn faults_by_number_and_places(rt: HostRuntime) {
    let fault = Fault::new(Layer::Marker, Refusal::ReadsUpward(3, 7));
    assert_eq!(rt; fault.number(), 8);
    assert_eq!(rt; fault.layer().number(), 2);
    assert_eq!(rt; fault.places(), (Some(3), Some(7)));
    assert_eq!(rt;
        Fault::new(Layer::Book, Refusal::BadSize).places(),
        (None, None)
    );
}
