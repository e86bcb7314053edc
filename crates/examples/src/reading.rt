// Reading and auditing.
use crate::support::{enter, example_marker, opened, row_of_protests};
use answers::{Fault, Layer, Refusal, UpwardReading};
use books::{Book, RuleBook};
use marker::Marker;
use rulings::Ruling;
use std::process::Abort;
use std::test::Fail;

fn reads<B: Book>(
    rt: &impl Abort,
    marker: &Marker<B>,
    sure: &[u8],
    possible: &[u8],
) -> Result<(), Fail> {
    let mut for_sure = Ruling::from_points(&[99]);
    let mut maybe = Ruling::from_points(&[98]);
    marker.read(&mut for_sure, &mut maybe)?;
    let (sure, possible) = (Ruling::from_points(sure), Ruling::from_points(possible));
    assert_eq!(rt; for_sure, sure);
    assert_eq!(rt; maybe, possible);
    assert_eq!(rt; for_sure.first_difference(sure), None);
    assert_eq!(rt; maybe.first_difference(possible), None);
    Ok(())
}

#[test]
fn example_reads_nothing_sure(rt: HostRuntime) -> Result<(), Fail> {
    let mut marker = example_marker()?;
    reads(&rt, &marker, &[], &[0, 1, 2, 3])?;
    marker.place(2, 1)?;
    marker.place(3, 2)?;
    reads(&rt, &marker, &[], &[0, 1, 2, 3])
}

#[test]
fn self_strike_is_possible(rt: HostRuntime) -> Result<(), Fail> {
    let mut marker = Marker::new(RuleBook::new());
    enter(&mut marker, 0, &[], &[0])?;
    reads(&rt, &marker, &[], &[0])
}

// 0 if not 1; 1 if not 0; 2 if 0 and 1: read through one simplified chapter, point 2 would be lost
#[test]
fn undecided_lower_points_stay_undecided(rt: HostRuntime) -> Result<(), Fail> {
    let mut marker = opened(3)?;
    enter(&mut marker, 0, &[], &[1])?;
    enter(&mut marker, 1, &[], &[0])?;
    enter(&mut marker, 2, &[0, 1], &[])?;
    marker.place(2, 1)?;
    reads(&rt, &marker, &[], &[0, 1, 2])
}

#[test]
fn protests_in_a_row_are_decided(rt: HostRuntime) -> Result<(), Fail> {
    reads(&rt, &row_of_protests()?, &[0, 2], &[0, 2])
}

fn upward(drop: u8, reader: u8, read: u8) -> UpwardReading {
    UpwardReading { drop, reader, read }
}

#[test]
fn audit_names_the_upward_reading(rt: HostRuntime) -> Result<(), Fail> {
    let mut marker = opened(2)?;
    enter(&mut marker, 0, &[1], &[])?;
    marker.place(1, 1)?;
    let mut rows = [upward(9, 9, 9); 2];
    assert_eq!(rt; marker.audit(&mut rows)?, 1);
    assert_eq!(rt;
        rows,
        [upward(1, 0, 1), upward(9, 9, 9)],
        "later rows stay as found"
    );
    Ok(())
}

// Larger drops first, then smaller readers, then smaller points read; one row too few leaves all rows zero.
#[test]
fn audit_in_order_or_not_at_all(rt: HostRuntime) -> Result<(), Fail> {
    let mut marker = opened(4)?;
    enter(&mut marker, 0, &[2, 3], &[1])?;
    enter(&mut marker, 1, &[], &[2, 3])?;
    marker.place(2, 3)?;
    marker.place(3, 1)?;
    let mut rows = [upward(9, 9, 9); 4];
    assert_eq!(rt; marker.audit(&mut rows)?, 4);
    assert_eq!(rt;
        rows,
        [
            upward(3, 0, 2),
            upward(3, 1, 2),
            upward(1, 0, 3),
            upward(1, 1, 3),
        ]
    );
    let mut few = [upward(9, 9, 9); 3];
    assert_eq!(rt;
        marker.audit(&mut few),
        Err(Fault::new(Layer::Marker, Refusal::ListTooShort))
    );
    assert_eq!(rt; few, [upward(0, 0, 0); 3]);
    Ok(())
}
