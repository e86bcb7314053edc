// Records and replies: every refusal by its nine bytes, the limits of input and buffer, and records cut short.
use crate::support::each_pair;
use answers::{Fault, Layer, Refusal};
use books::{Book, ProtestBook, RuleBook};
use marker::Marker;
use reader::{Reader, serve, serve_both};
use rulings::Ruling;
use std::alloc::{AllocError, Global};
use std::process::Abort;
use std::test::Fail;

// The replies to some records for a new rule book.
fn replies(input: &[u8], heap: Global) -> Result<Vec<u8>, AllocError> {
    serve(&mut Marker::new(RuleBook::new()), input, heap)
}

// The nine bytes of a denial.
fn denial(number: u8, layer: u8, first: u8, second: u8, offset: u8) -> [u8; 9] {
    [0xFF, number, layer, first, second, offset, 0, 0, 0]
}

fn add_entry(input: &mut Vec<u8>, point: u8, p: Ruling, q: Ruling) -> Result<(), AllocError> {
    input.extend_from_slice(&[2, point])?;
    input.extend_from_slice(&p.bytes())?;
    input.extend_from_slice(&q.bytes())
}

// As many pairs "a if not b, b if not a", from a point on, each in a chapter of its own from a chapter on.
fn add_pairs(input: &mut Vec<u8>, pairs: u8, from: u8, chapter: u8) -> Result<(), AllocError> {
    each_pair(pairs, from, chapter, |a, b, chapter| {
        add_entry(input, a, Ruling::empty(), Ruling::from_points(&[b]))?;
        add_entry(input, b, Ruling::empty(), Ruling::from_points(&[a]))?;
        input.extend_from_slice(&[4, a, chapter, 4, b, chapter])
    })
}

// What records for a new rule book are to be replied.
fn assert_replies(
    rt: &(impl Abort + AllocGlobal),
    input: &[u8],
    expected: &[u8],
) -> Result<(), Fail> {
    let replies = replies(input, rt.alloc())?;
    assert_eq!(rt; replies.as_slice(), expected);
    Ok(())
}

// What the last reply to records for a new rule book is to be.
fn assert_last_reply(
    rt: &(impl Abort + AllocGlobal),
    input: &[u8],
    expected: [u8; 9],
) -> Result<(), Fail> {
    let replies = replies(input, rt.alloc())?;
    assert_eq!(rt; replies.last_chunk(), Some(&expected));
    Ok(())
}

#[test]
fn no_records_no_replies(rt: HostRuntime) -> Result<(), Fail> {
    assert_eq!(rt; replies(&[], rt.alloc())?.len(), 0);
    Ok(())
}

#[test]
fn denials_of_the_rule_book(rt: HostRuntime) -> Result<(), Fail> {
    assert_replies(&rt, &[1, 0], &denial(1, 1, 255, 255, 0))?;
    assert_replies(&rt, &[3, 9], &denial(2, 1, 9, 255, 0))?;
    assert_replies(&rt, &[3, 255], &denial(2, 1, 255, 255, 0))?;
    assert_replies(&rt, &[3, 0], &denial(6, 1, 0, 255, 0))
}

#[test]
fn denials_of_the_marker(rt: HostRuntime) -> Result<(), Fail> {
    assert_replies(&rt, &[4, 1, 0], &denial(2, 2, 1, 255, 0))?;
    assert_replies(&rt, &[4, 0, 16], &denial(7, 2, 0, 255, 0))?;
    let mut input = Vec::new(rt.alloc());
    input.push(5)?;
    input.extend_from_slice(&Ruling::from_points(&[0, 7]).bytes())?;
    assert_replies(&rt, &input, &denial(3, 2, 7, 255, 0))?;
    assert_last_reply(&rt, &[1, 13, 8], denial(9, 2, 0, 255, 2))
}

#[test]
fn chapters_that_do_not_fit(rt: HostRuntime) -> Result<(), Fail> {
    let mut input = Vec::new(rt.alloc());
    input.extend_from_slice(&[1, 2])?;
    add_entry(&mut input, 0, Ruling::from_points(&[1]), Ruling::empty())?;
    input.extend_from_slice(&[4, 1, 1, 7])?;
    assert_last_reply(&rt, &input, denial(8, 2, 0, 1, 39))
}

#[test]
fn supporters_in_a_protest_book(rt: HostRuntime) -> Result<(), Fail> {
    let mut input = Vec::new(rt.alloc());
    let zero = Ruling::from_points(&[0]);
    add_entry(&mut input, 0, zero, Ruling::empty())?;
    let mut marker = Marker::new(ProtestBook::new());
    let replied = serve(&mut marker, &input, rt.alloc())?;
    assert_eq!(rt; replied.as_slice(), denial(4, 1, 0, 255, 0).as_slice());
    Ok(())
}

#[test]
fn entry_257_finds_the_book_full(rt: HostRuntime) -> Result<(), Fail> {
    let mut input = Vec::new(rt.alloc());
    for _ in 0..257u16 {
        add_entry(&mut input, 0, Ruling::empty(), Ruling::empty())?;
    }
    let replied = replies(&input, rt.alloc())?;
    assert_eq!(rt; replied.len(), 265);
    // the last record stands at 256 times 34, which is 8,704
    assert_eq!(rt;
        replied.last_chunk(),
        Some(&[0xFF, 5, 1, 255, 255, 0, 34, 0, 0])
    );
    Ok(())
}

#[test]
fn too_much_to_try_and_too_few_rows(rt: HostRuntime) -> Result<(), Fail> {
    let mut input = Vec::new(rt.alloc());
    input.extend_from_slice(&[1, 14])?;
    add_pairs(&mut input, 7, 0, 0)?;
    input.push(8)?;
    // seven pairs take 74 bytes each, behind two bytes for the opening
    assert_last_reply(&rt, &input, [0xFF, 11, 2, 255, 255, 8, 2, 0, 0])?;
    let mut input = Vec::new(rt.alloc());
    input.extend_from_slice(&[1, 31, 4, 1, 1])?;
    add_pairs(&mut input, 14, 2, 2)?;
    input.push(8)?;
    assert_last_reply(&rt, &input, [0xFF, 10, 2, 255, 255, 17, 4, 0, 0])
}

#[test]
fn input_of_32768_bytes_and_one_more(rt: HostRuntime) -> Result<(), Fail> {
    let mut input = vec![in rt.alloc(); 1u8; 32_768]?;
    let replied = replies(&input, rt.alloc())?;
    assert_eq!(rt;
        replied.len(),
        16_384,
        "every second byte opens a book of one point"
    );
    input.push(1)?;
    assert_replies(&rt, &input, &denial(12, 3, 255, 255, 0))
}

#[test]
fn buffers_of_1094_and_1095_bytes(rt: HostRuntime) -> Result<(), Fail> {
    let mut marker = Marker::new(RuleBook::new());
    let mut reader = Reader::new(&[8]);
    let mut short = [7u8; 1_094];
    assert_eq!(rt;
        reader.turn(&mut marker, &mut short),
        Err(Fault::new(Layer::Reader, Refusal::ReplyTooShort))
    );
    assert_eq!(rt; short[0], 7, "nothing is written");
    let mut reply = [7u8; 1_095];
    assert_eq!(rt; reader.turn(&mut marker, &mut reply)?, Some(24));
    assert_eq!(rt; reply[0], 0x84);
    assert_eq!(rt; reply[24], 7, "behind the reply the buffer is as found");
    assert_eq!(rt; reader.turn(&mut marker, &mut reply)?, None);
    assert_eq!(rt; reply[0], 0x84);
    Ok(())
}

#[test]
fn too_long_goes_before_too_short(rt: HostRuntime) -> Result<(), Fail> {
    let mut input = vec![in rt.alloc(); 1u8; 32_769]?;
    // the first record would open a book of two points
    input[1] = 2;
    let mut marker = Marker::new(RuleBook::new());
    let mut reader = Reader::new(&input);
    for room in [1_095usize, 1_094, 0, 1_095] {
        let mut reply = vec![in rt.alloc(); 7u8; room]?;
        assert_eq!(rt;
            reader.turn(&mut marker, &mut reply),
            Err(Fault::new(Layer::Reader, Refusal::InputTooLong))
        );
        assert!(rt; reply.iter().all(|byte| *byte == 7), "nothing is written");
    }
    assert_eq!(rt;
        marker.withdraw(1),
        Err(Fault::new(Layer::Book, Refusal::NoSuchPoint(1))),
        "nothing is opened"
    );
    Ok(())
}

#[test]
fn two_inputs_on_two_sorts_of_book(rt: HostRuntime) -> Result<(), Fail> {
    let mut input = Vec::new(rt.alloc());
    input.extend_from_slice(&[1, 2])?;
    add_pairs(&mut input, 1, 0, 0)?;
    input.push(8)?;
    let mut other = Vec::new(rt.alloc());
    // an audit goes before
    other.push(9)?;
    other.extend_from_slice(&input)?;
    let mut rules = Marker::new(RuleBook::new());
    let mut protests = Marker::new(ProtestBook::new());
    let replied = serve_both(&mut rules, &input, &mut protests, &other, rt.alloc())?;
    let mut expected = Vec::new(rt.alloc());
    // the opening, two entries and two placings
    expected.extend_from_slice(&[0x81; 5])?;
    // two rows, at an effort of 4: either point stands alone
    expected.extend_from_slice(&[0x84, 2, 0, 4, 0, 0, 0])?;
    for point in [0u8, 1] {
        expected.push(0x85)?;
        expected.extend_from_slice(&Ruling::from_points(&[point]).bytes())?;
    }
    assert_eq!(rt; replied.first.as_slice(), expected.as_slice());
    let mut behind_an_audit = Vec::new(rt.alloc());
    behind_an_audit.extend_from_slice(&[0x86, 0, 0])?;
    behind_an_audit.extend_from_slice(&expected)?;
    assert_eq!(rt; replied.second.as_slice(), behind_an_audit.as_slice());
    Ok(())
}

#[test]
fn unknown_kinds_end_the_reading(rt: HostRuntime) -> Result<(), Fail> {
    assert_replies(&rt, &[0, 1, 1], &denial(14, 3, 255, 255, 0))?;
    assert_last_reply(&rt, &[1, 3, 10, 7], denial(14, 3, 255, 255, 2))?;
    assert_eq!(rt; replies(&[1, 3, 10, 7], rt.alloc())?.len(), 10);
    Ok(())
}

// A record of each kind, cut at every byte behind the kind.
#[test]
fn records_cut_at_every_byte(rt: HostRuntime) -> Result<(), Fail> {
    let cut = denial(15, 3, 255, 255, 0);
    for (kind, full) in [(1, 2), (2, 34), (3, 2), (4, 3), (5, 17), (6, 17)] {
        let mut record = Vec::new(rt.alloc());
        record.push(kind)?;
        for _ in 1..full {
            assert_replies(&rt, &record, &cut)?;
            record.push(0)?;
        }
        let replied = replies(&record, rt.alloc())?;
        assert_ne!(rt; replied.as_slice(), cut.as_slice(), "whole, it is taken");
    }
    assert_eq!(rt; replies(&[7], rt.alloc())?.len(), 33);
    assert_eq!(rt; replies(&[8], rt.alloc())?.len(), 24);
    assert_eq!(rt; replies(&[9], rt.alloc())?.len(), 3);
    Ok(())
}
