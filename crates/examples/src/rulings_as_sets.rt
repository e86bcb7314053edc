// Rulings as sets of points, and their order.
use rulings::Ruling;
use std::test::Fail;

#[test]
fn points_by_bit(rt: HostRuntime) {
    let ruling = Ruling::from_points(&[0, 9, 127, 128, 255]);
    let bytes = ruling.bytes();
    assert_eq!(rt; bytes[0], 0x01);
    assert_eq!(rt; bytes[1], 0x02);
    assert_eq!(rt; bytes[15], 0x80);
    assert!(rt; ruling.has(127));
    assert!(rt; !ruling.has(128));
    assert_eq!(rt; ruling.first_from(10), Some(127));
    assert_eq!(rt; ruling.first_from(128), None);
}

#[test]
fn set_operations(rt: HostRuntime) {
    let low = Ruling::from_points(&[0, 1, 64]);
    let high = Ruling::from_points(&[1, 64, 65]);
    assert_eq!(rt; low.first_difference(high), Some(0));
    assert_eq!(rt; low.first_difference(low), None);
    assert_eq!(rt;
        low.difference(high)
            .first_difference(Ruling::from_points(&[0])),
        None
    );
    assert_eq!(rt;
        low.union(high)
            .first_difference(Ruling::from_points(&[0, 1, 64, 65])),
        None
    );
    assert_eq!(rt; low.difference(high), Ruling::from_points(&[0]));
    assert_eq!(rt; low.union(high), Ruling::from_points(&[0, 1, 64, 65]));
    assert!(rt; !low.is_part_of(high));
    assert!(rt; low.is_part_of(low.union(high)));
    assert!(rt; !low.is_disjoint_from(high));
    assert!(rt; low.difference(high).is_disjoint_from(high));
}

// The smaller byte at the first byte that differs comes first, whatever the later bytes are.
#[test]
fn row_order(rt: HostRuntime) {
    let one = Ruling::from_points(&[1]);
    let three = Ruling::from_points(&[0, 2, 3]);
    assert!(rt; one.precedes(three));
    assert!(rt; !three.precedes(one));
    assert!(rt; !one.precedes(one));
    assert!(rt; Ruling::from_points(&[127]).precedes(Ruling::from_points(&[0])));
}

#[test]
fn rulings_are_shown_alike_in_every_form(rt: HostRuntime) -> Result<(), Fail> {
    let ruling = Ruling::from_points(&[0, 2, 127]);
    let plain = format!(in rt.alloc(); "{ruling}")?;
    let alternate = format!(in rt.alloc(); "{ruling:#}")?;
    let wide = format!(in rt.alloc(); "{ruling:5}")?;
    assert_eq!(rt; plain.as_str(), "{0, 2, 127}");
    assert_eq!(rt; alternate.as_str(), "{0, 2, 127}");
    assert_eq!(rt; wide.as_str(), "{0, 2, 127}");
    Ok(())
}
