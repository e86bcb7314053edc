// Runs of calls: what each answers, and two books compared by their listings.
use answers::{Fault, Layer, Refusal, Verdict};
use books::{ProtestBook, RuleBook};
use marker::Marker;
use rulings::Ruling;
use runs::{Answer, Call, compare, replay};
use std::test::Fail;

// 0 unless 1 stands, and 1 unless 0 does: the same calls fill a rule book and a protest book.
fn mutual() -> [Call; 4] {
    let zero = Ruling::from_points(&[0]);
    let one = Ruling::from_points(&[1]);
    let none = Ruling::empty();
    [
        Call::Open { size: 2 },
        Call::Enter {
            point: 0,
            p: none,
            q: one,
        },
        Call::Enter {
            point: 1,
            p: none,
            q: zero,
        },
        Call::List { rows: 3 },
    ]
}

fn listed(answers: &[Result<Answer, Fault>], at: usize) -> Result<&[Ruling], Fail> {
    match answers.get(at) {
        Some(Ok(Answer::Listing { rows, .. })) => Ok(rows),
        _ => Err(Fail::new("no listing there")),
    }
}

#[test]
fn every_call_is_answered_in_its_place(rt: HostRuntime) -> Result<(), Fail> {
    let mut marker = Marker::new(RuleBook::new());
    let calls = [
        Call::Open { size: 0 },
        Call::Enter {
            point: 0,
            p: Ruling::empty(),
            q: Ruling::empty(),
        },
        Call::Judge {
            ruling: Ruling::empty(),
        },
        Call::List { rows: 2 },
    ];
    let answers = replay(&mut marker, &calls, rt.alloc())?;
    assert_eq!(rt; answers.len(), 4);
    assert_eq!(rt;
        answers[0].as_ref().err(),
        Some(&Fault::new(Layer::Book, Refusal::BadSize))
    );
    assert!(rt; matches!(answers[2], Ok(Answer::Verdict(Verdict::Missing(0)))));
    let only = [Ruling::from_points(&[0])];
    assert_eq!(rt; listed(&answers, 3)?, only.as_slice());
    Ok(())
}

#[test]
fn two_sorts_of_book_with_the_same_stable_rulings(rt: HostRuntime) -> Result<(), Fail> {
    let mut rules = Marker::new(RuleBook::new());
    let mut protests = Marker::new(ProtestBook::new());
    let calls = mutual();
    let compared = compare(&mut rules, &calls, &mut protests, &calls, rt.alloc())?;
    let rows = listed(&compared.first, 3)?;
    let either = [Ruling::from_points(&[0]), Ruling::from_points(&[1])];
    assert_eq!(rt; rows, either.as_slice());
    assert_eq!(rt; rows, listed(&compared.second, 3)?);
    Ok(())
}
