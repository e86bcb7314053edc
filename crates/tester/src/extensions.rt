// Extensions of a protest book from its attacks alone: a lodged point attacks the lodged points that it protests.
use crate::definitions::least;
use crate::masks::Mask;
use crate::protest_books::SmallProtestBook;
use crate::small_book::SmallBook;

// Lodged points only, none of which attacks another or itself, that attack every lodged point outside.
pub(crate) fn is_stable_extension(book: &SmallProtestBook, set: Mask) -> bool {
    let lodged = book.lodged();
    let attacked = attacked_by(book, set);
    set.is_part_of(lodged) && !attacked.meets(set) && lodged.without(set).is_part_of(attacked)
}

// The smallest fixpoint of the characteristic function: the one that is part of every other.
pub(crate) fn grounded_extension(book: &SmallProtestBook) -> Option<Mask> {
    least(book.size(), |set| acceptable_to(book, set) == set)
}

// The lodged points each of whose attackers is attacked by the set.
fn acceptable_to(book: &SmallProtestBook, set: Mask) -> Mask {
    let attacked = attacked_by(book, set);
    book.lodged()
        .filter(|point| attackers(book, point).is_part_of(attacked))
}

fn attacked_by(book: &SmallProtestBook, set: Mask) -> Mask {
    book.lodged()
        .filter(|point| attackers(book, point).meets(set))
}

// An unlodged protester is no argument and attacks nothing.
fn attackers(book: &SmallProtestBook, point: u8) -> Mask {
    book.reads(point).within(book.lodged())
}
