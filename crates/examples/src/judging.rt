// Worked rule books.
use crate::support::{enter, example_marker, opened};
use answers::{Fault, Layer, Refusal, Verdict};
use books::RuleBook;
use marker::Marker;
use rulings::Ruling;
use std::process::Abort;
use std::test::Fail;

fn judged(
    rt: &impl Abort,
    marker: &Marker<RuleBook>,
    points: &[u8],
    verdict: Verdict,
) -> Result<(), Fail> {
    assert_eq!(rt; marker.judge(Ruling::from_points(points))?, verdict);
    Ok(())
}

#[test]
fn example_has_two_stable_rulings(rt: HostRuntime) -> Result<(), Fail> {
    let marker = example_marker()?;
    judged(&rt, &marker, &[1], Verdict::Stable)?;
    judged(&rt, &marker, &[0, 2, 3], Verdict::Stable)?;
    judged(&rt, &marker, &[0, 2], Verdict::Missing(3))?;
    judged(&rt, &marker, &[0, 1], Verdict::Unfounded(0))?;
    judged(&rt, &marker, &[], Verdict::Missing(0))
}

// 0 if 1; 1 if 0: a ruling that only supports itself is not stable
#[test]
fn self_support_is_unfounded(rt: HostRuntime) -> Result<(), Fail> {
    let mut marker = opened(2)?;
    enter(&mut marker, 0, &[1], &[])?;
    enter(&mut marker, 1, &[0], &[])?;
    judged(&rt, &marker, &[0, 1], Verdict::Unfounded(0))?;
    judged(&rt, &marker, &[], Verdict::Stable)
}

// 0 if not 0: neither ruling of its one point is stable
#[test]
fn self_strike_has_no_stable_ruling(rt: HostRuntime) -> Result<(), Fail> {
    let mut marker = opened(1)?;
    enter(&mut marker, 0, &[], &[0])?;
    judged(&rt, &marker, &[], Verdict::Missing(0))?;
    judged(&rt, &marker, &[0], Verdict::Unfounded(0))
}

#[test]
fn withdrawing_takes_every_entry_of_the_point(rt: HostRuntime) -> Result<(), Fail> {
    let mut marker = example_marker()?;
    enter(&mut marker, 1, &[], &[])?;
    marker.withdraw(1)?;
    judged(&rt, &marker, &[0, 2, 3], Verdict::Stable)?;
    assert_eq!(rt;
        marker.judge(Ruling::from_points(&[1]))?,
        Verdict::Unfounded(1),
        "0 stands, and nothing is entered for 1"
    );
    Ok(())
}

#[test]
fn stray_marks_are_denied_by_the_marker(rt: HostRuntime) -> Result<(), Fail> {
    let marker = example_marker()?;
    let fault = Fault::new(Layer::Marker, Refusal::StrayMark(4));
    assert_eq!(rt; marker.judge(Ruling::from_points(&[1, 127, 4])), Err(fault));
    Ok(())
}

#[test]
fn opening_empties_the_book(rt: HostRuntime) -> Result<(), Fail> {
    let mut marker = example_marker()?;
    marker.open(3)?;
    judged(&rt, &marker, &[], Verdict::Stable)
}
