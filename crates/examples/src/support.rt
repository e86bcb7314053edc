// What the tests share: markers to begin with, and entries written as lists of points.
use answers::Fault;
use books::{Book, Entry, ProtestBook, RuleBook};
use marker::Marker;
use telling::open_example;

// A rule book of so many points.
pub(crate) fn opened_book(size: u8) -> Result<RuleBook, Fault> {
    let mut book = RuleBook::new();
    book.open(size)?;
    Ok(book)
}

// A marker over such a rule book.
pub(crate) fn opened(size: u8) -> Result<Marker<RuleBook>, Fault> {
    opened_book(size).map(Marker::new)
}

// 0 if not 1; 1 if not 0; 2 if 0; 3 if 2 and not 1
pub(crate) fn example_marker() -> Result<Marker<RuleBook>, Fault> {
    let mut marker = Marker::new(RuleBook::new());
    open_example(&mut marker)?;
    Ok(marker)
}

// 0, 1 and 2 are lodged; 0 protests 1, 1 protests 2
pub(crate) fn row_of_protests() -> Result<Marker<ProtestBook>, Fault> {
    let mut marker = Marker::new(ProtestBook::new());
    marker.open(3)?;
    enter(&mut marker, 0, &[], &[])?;
    enter(&mut marker, 1, &[], &[0])?;
    enter(&mut marker, 2, &[], &[1])?;
    Ok(marker)
}

// Enters that the point stands if all supporters do and no striker does.
pub(crate) fn enter<B: Book>(
    marker: &mut Marker<B>,
    point: u8,
    supporters: &[u8],
    strikers: &[u8],
) -> Result<(), Fault> {
    telling::enter(marker, Entry::new(point, supporters, strikers))
}

// Gives pairs of points to `add`, from a point on, each with a chapter of its own from a chapter on.
pub(crate) fn each_pair<E, F: FnMut(u8, u8, u8) -> Result<(), E>>(
    pairs: u8,
    from: u8,
    chapter: u8,
    mut add: F,
) -> Result<(), E>
    requires { F.IsAlwaysCallable add }
{
    for pair in 0..pairs {
        let a = from.wrapping_add(pair.wrapping_mul(2));
        add(a, a.wrapping_add(1), chapter.wrapping_add(pair))?;
    }
    Ok(())
}
