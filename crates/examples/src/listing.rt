// Listings: worked examples, the limits of width and rows, and the ceiling of effort.
use crate::support::{each_pair, enter, example_marker, opened};
use answers::{Fault, Layer, Listing, Refusal};
use books::{Book, ProtestBook, RuleBook};
use marker::Marker;
use rulings::Ruling;
use std::test::Fail;

fn counts(rows: usize, effort: u32) -> Result<Listing, Fault> {
    Ok(Listing { rows, effort })
}

fn denied(refusal: Refusal) -> Result<Listing, Fault> {
    Err(Fault::new(Layer::Marker, refusal))
}

// As many pairs "a if not b, b if not a", from a point on, each pair in a chapter of its own from a chapter on.
fn add_pairs(marker: &mut Marker<RuleBook>, pairs: u8, from: u8, chapter: u8) -> Result<(), Fault> {
    each_pair(pairs, from, chapter, |a, b, chapter| {
        enter(marker, a, &[], &[b])?;
        enter(marker, b, &[], &[a])?;
        marker.place(a, chapter)?;
        marker.place(b, chapter)
    })
}

// 0 if not 1; 1 if not 0; 2 if 0; 3 if 2 and not 1
#[test]
fn example_in_three_chapters_and_in_one(rt: HostRuntime) -> Result<(), Fail> {
    let mut marker = example_marker()?;
    let found = Ruling::from_points(&[99]);
    let listed = [
        Ruling::from_points(&[1]),
        Ruling::from_points(&[0, 2, 3]),
        found,
    ];
    let mut rows = [found; 3];
    assert_eq!(rt; marker.list(&mut rows), counts(2, 16));
    assert_eq!(rt; rows, listed);
    marker.place(2, 1)?;
    marker.place(3, 2)?;
    assert_eq!(rt; marker.list(&mut rows), counts(2, 12));
    assert_eq!(rt; rows, listed, "later rows stay as found");
    Ok(())
}

#[test]
fn chapters_that_do_not_fit_leave_the_rows(rt: HostRuntime) -> Result<(), Fail> {
    let mut marker = opened(2)?;
    enter(&mut marker, 0, &[1], &[])?;
    marker.place(1, 1)?;
    let found = Ruling::from_points(&[99]);
    let mut rows = [found; 2];
    assert_eq!(rt; marker.list(&mut rows), denied(Refusal::ReadsUpward(0, 1)));
    assert_eq!(rt; rows, [found; 2]);
    Ok(())
}

#[test]
fn new_markers_list_the_empty_ruling(rt: HostRuntime) {
    let mut rows = [Ruling::from_points(&[99]); 1];
    assert_eq!(rt; Marker::new(RuleBook::new()).list(&mut rows), counts(1, 2));
    assert_eq!(rt; rows[0], Ruling::empty());
    rows[0] = Ruling::from_points(&[99]);
    assert_eq!(rt;
        Marker::new(ProtestBook::new()).list(&mut rows),
        counts(1, 2)
    );
    assert_eq!(rt; rows[0], Ruling::empty());
}

// Two points that support only each other do not stand.
#[test]
fn no_ruling_supports_itself(rt: HostRuntime) -> Result<(), Fail> {
    let mut marker = opened(2)?;
    enter(&mut marker, 0, &[1], &[])?;
    enter(&mut marker, 1, &[0], &[])?;
    let mut rows = [Ruling::from_points(&[99]); 2];
    assert_eq!(rt; marker.list(&mut rows), counts(1, 4));
    assert_eq!(rt; rows[0], Ruling::empty());
    Ok(())
}

// 0 if not 0: nothing to list, and no row is needed for that
#[test]
fn no_stable_ruling_into_no_rows(rt: HostRuntime) -> Result<(), Fail> {
    let mut marker = opened(1)?;
    enter(&mut marker, 0, &[], &[0])?;
    assert_eq!(rt; marker.list(&mut []), counts(0, 2));
    Ok(())
}

#[test]
fn six_pairs_fill_64_rows(rt: HostRuntime) -> Result<(), Fail> {
    let mut marker = opened(12)?;
    add_pairs(&mut marker, 6, 0, 0)?;
    let mut rows = [Ruling::empty(); 64];
    assert_eq!(rt; marker.list(&mut rows), counts(64, 252));
    assert_eq!(rt; rows[0], Ruling::from_points(&[0, 2, 4, 6, 8, 10]));
    assert_eq!(rt;
        rows[1],
        Ruling::from_points(&[0, 2, 4, 6, 9, 10]),
        "the first byte decides, then the second"
    );
    assert_eq!(rt; rows[63], Ruling::from_points(&[1, 3, 5, 7, 9, 11]));
    Ok(())
}

#[test]
fn seven_pairs_are_too_many_for_64_rows(rt: HostRuntime) -> Result<(), Fail> {
    let mut marker = opened(14)?;
    add_pairs(&mut marker, 7, 0, 0)?;
    let mut rows = [Ruling::from_points(&[99]); 64];
    assert_eq!(rt; marker.list(&mut rows), denied(Refusal::ListTooShort));
    assert_eq!(rt; rows[0], Ruling::empty(), "every row is zero");
    assert_eq!(rt; rows[63], Ruling::empty());
    Ok(())
}

// Two chapters of one point without entries below fourteen pairs: the effort is 65,536, just what is allowed.
#[test]
fn effort_at_the_ceiling_and_past_it(rt: HostRuntime) -> Result<(), Fail> {
    let mut marker = opened(30)?;
    marker.place(1, 1)?;
    add_pairs(&mut marker, 14, 2, 2)?;
    let mut rows = [Ruling::from_points(&[99]); 64];
    assert_eq!(rt; marker.list(&mut rows), denied(Refusal::ListTooShort));
    let mut marker = opened(31)?;
    marker.place(1, 1)?;
    add_pairs(&mut marker, 14, 2, 2)?;
    assert_eq!(rt;
        marker.list(&mut rows),
        denied(Refusal::TooMuchToTry),
        "one more point in chapter 0: the effort is 65,538, and that goes before too few rows"
    );
    assert_eq!(rt; rows[63], Ruling::empty());
    Ok(())
}

#[test]
fn twelve_points_in_a_chapter_and_thirteen(rt: HostRuntime) -> Result<(), Fail> {
    let mut rows = [Ruling::from_points(&[99]); 1];
    let marker = opened(12)?;
    assert_eq!(rt; marker.list(&mut rows), counts(1, 4096));
    let mut marker = opened(14)?;
    marker.place(13, 3)?;
    rows[0] = Ruling::from_points(&[99]);
    assert_eq!(rt; marker.list(&mut rows), denied(Refusal::ChapterTooWide(0)));
    assert_eq!(rt; rows[0], Ruling::from_points(&[99]), "nothing was tried");
    Ok(())
}
