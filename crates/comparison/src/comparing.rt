// Books compared by their listings.
use books::{ProtestBook, RuleBook};
use marker::Marker;
use rulings::Ruling;
use runs::{Answer, Call, compare};
use std::io;
use telling::{Rulings, Title};

pub(crate) fn compare_books(rt: &HostRuntime) -> io::Result<()> {
    rt.println(Title("Two books compared: 0 and 1 strike each other, as rules and as protests"))?;
    let mutual = [
        Call::Open { size: 2 },
        unless(0, &[1]),
        unless(1, &[0]),
        Call::List { rows: 4 },
    ];
    // written otherwise: 1 stands also if it stands and 0 does not, which adds no stable ruling and takes none away
    let wordy = [
        Call::Open { size: 2 },
        unless(0, &[1]),
        unless(1, &[0]),
        Call::Enter {
            point: 1,
            p: Ruling::from_points(&[1]),
            q: Ruling::from_points(&[0]),
        },
        Call::List { rows: 4 },
    ];
    let settled = [
        Call::Open { size: 2 },
        unless(0, &[]),
        unless(1, &[0]),
        Call::List { rows: 4 },
    ];
    say_compared(rt, &wordy, &mutual)?;
    rt.println(Title("And with a book in which 0 stands unopposed"))?;
    say_compared(rt, &wordy, &settled)?;
    println!(rt;
        "  Listings are proved equal exactly when the books, read whole, have the same stable rulings: that settles it."
    )
}

// Enters that a point stands unless one of the strikers does, which either sort of book takes.
fn unless(point: u8, strikers: &[u8]) -> Call {
    Call::Enter {
        point,
        p: Ruling::empty(),
        q: Ruling::from_points(strikers),
    }
}

// Makes the calls on a rule book and the others on a protest book, and compares their last answers, the listings.
fn say_compared(rt: &HostRuntime, calls: &[Call], others: &[Call]) -> io::Result<()> {
    let mut rules = Marker::new(RuleBook::new());
    let mut protests = Marker::new(ProtestBook::new());
    let compared = compare(&mut rules, calls, &mut protests, others, rt.alloc())?;
    match (compared.first.last(), compared.second.last()) {
        (
            Some(Ok(Answer::Listing { rows: listed, .. })),
            Some(Ok(Answer::Listing { rows: other, .. })),
        ) => {
            let (ruled, protested) = (Rulings(listed), Rulings(other));
            println!(rt; "  the rule book lists{ruled}")?;
            println!(rt; "  the protest book lists{protested}")?;
            if listed == other {
                println!(rt; "  equal: the two books have the same stable rulings")
            } else {
                println!(rt; "  not equal: one book has a stable ruling that the other has not")
            }
        }
        _ => println!(rt; "  no two listings to compare"),
    }
}
