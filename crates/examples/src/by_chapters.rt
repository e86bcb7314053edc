// Judging by chapter.
use crate::support::{enter, example_marker, opened, row_of_protests};
use answers::{ChapterVerdict, Fault, Layer, Refusal, Verdict};
use books::{Book, ProtestBook};
use marker::Marker;
use rulings::Ruling;
use std::process::Abort;
use std::test::Fail;

fn by_chapter<B: Book>(
    rt: &impl Abort,
    marker: &Marker<B>,
    points: &[u8],
    verdict: Verdict,
    chapter: Option<u8>,
) -> Result<(), Fail> {
    let judged = marker.judge_by_chapter(Ruling::from_points(points))?;
    assert_eq!(rt; judged, ChapterVerdict::new(verdict, chapter));
    assert_eq!(rt; judged.verdict(), verdict);
    assert_eq!(rt; judged.chapter(), chapter);
    Ok(())
}

// 0 if not 1; 1 if not 0; 2 if 0; 3 if 2 and not 1, with chapters 0, 0, 1, 2
#[test]
fn example_by_chapter(rt: HostRuntime) -> Result<(), Fail> {
    let mut marker = example_marker()?;
    marker.place(2, 1)?;
    marker.place(3, 2)?;
    by_chapter(&rt, &marker, &[1], Verdict::Stable, None)?;
    by_chapter(&rt, &marker, &[0, 2, 3], Verdict::Stable, None)?;
    by_chapter(&rt, &marker, &[0, 2], Verdict::Missing(3), Some(2))?;
    by_chapter(&rt, &marker, &[0, 1], Verdict::Unfounded(0), Some(0))
}

// 0 if 1: the lowest point of the book and the lowest chapter may disagree on which point is named
#[test]
fn chapters_decide_which_point_is_named(rt: HostRuntime) -> Result<(), Fail> {
    let mut marker = opened(2)?;
    enter(&mut marker, 0, &[1], &[])?;
    marker.place(0, 1)?;
    let both = Ruling::from_points(&[0, 1]);
    assert_eq!(rt; marker.judge(both)?, Verdict::Unfounded(0));
    by_chapter(&rt, &marker, &[0, 1], Verdict::Unfounded(1), Some(0))?;
    marker.place(0, 0)?;
    marker.place(1, 1)?;
    assert_eq!(rt;
        marker.judge_by_chapter(both),
        Err(Fault::new(Layer::Marker, Refusal::ReadsUpward(0, 1)))
    );
    Ok(())
}

#[test]
fn placing_at_its_limits(rt: HostRuntime) -> Result<(), Fail> {
    let mut marker = opened(3)?;
    assert_eq!(rt; marker.place(2, 15), Ok(()));
    assert_eq!(rt;
        marker.place(2, 16),
        Err(Fault::new(Layer::Marker, Refusal::NoSuchChapter(2)))
    );
    assert_eq!(rt;
        marker.place(3, 16),
        Err(Fault::new(Layer::Marker, Refusal::NoSuchPoint(3))),
        "the smaller number goes first"
    );
    Ok(())
}

#[test]
fn protests_in_a_row(rt: HostRuntime) -> Result<(), Fail> {
    let marker = row_of_protests()?;
    by_chapter(&rt, &marker, &[0, 2], Verdict::Stable, None)?;
    by_chapter(&rt, &marker, &[0], Verdict::Missing(2), Some(0))
}

#[test]
fn a_lodged_self_protester_has_no_stable_ruling(rt: HostRuntime) -> Result<(), Fail> {
    let mut marker = Marker::new(ProtestBook::new());
    enter(&mut marker, 0, &[], &[0])?;
    by_chapter(&rt, &marker, &[], Verdict::Missing(0), Some(0))?;
    by_chapter(&rt, &marker, &[0], Verdict::Unfounded(0), Some(0))
}

#[test]
fn protest_books_refuse_supporters(rt: HostRuntime) -> Result<(), Fail> {
    let mut book = ProtestBook::new();
    book.open(4)?;
    let p = Ruling::from_points(&[2, 3]);
    let q = Ruling::from_points(&[9]);
    let none = Ruling::empty();
    assert_eq!(rt;
        book.enter(1, p, none),
        Err(Fault::new(Layer::Book, Refusal::NoSupportersHere(2)))
    );
    assert_eq!(rt;
        book.enter(1, p, q),
        Err(Fault::new(Layer::Book, Refusal::StrayMark(9)))
    );
    assert_eq!(rt;
        book.withdraw(1),
        Err(Fault::new(Layer::Book, Refusal::NothingEntered(1)))
    );
    assert_eq!(rt; book.enter(1, none, none), Ok(()));
    assert_eq!(rt; book.withdraw(1), Ok(()));
    Ok(())
}
