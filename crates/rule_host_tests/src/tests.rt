use super::counting::Counting;
use fixed::text::BoundedText;
use rule_host::again::compile_twice;
use rule_host::answer::{CompileError, Outcome};
use rule_host::answer_book::AnswerBook;
use rule_host::host::RuleHost;
use rule_host::maker::BookMaker;
use rule_host::row::Row;
use std::alloc::Global;
use std::process::Abort;
use std::test::*;

const LONG: usize = 1025;

// A text of few bytes.
fn text(rt: &impl Abort, bytes: &[u8]) -> BoundedText {
    BoundedText::from_bytes(bytes).expect(rt, "a text of few bytes")
}

fn ill(rt: &impl Abort, why: &[u8]) -> Result<usize, CompileError> {
    Err(CompileError::Ill(text(rt, why)))
}

fn row<'a>(
    expression: &'a [u8],
    marked: bool,
    image: &'a [u8],
    outcome: Outcome<&'a [u8]>,
) -> Row<&'a [u8]> {
    Row {
        expression,
        marked,
        image,
        outcome,
    }
}

fn small_book(heap: Global) -> Result<AnswerBook, Fail> {
    let long = [7; LONG];
    let mut maker = BookMaker::new(heap)?;
    maker.add(row(b"self.a", false, b"1", Outcome::True))?;
    maker.add(row(b"self == oldSelf", true, b"1", Outcome::Text(b"same")))?;
    maker.add(row(b"self.a", true, b"1", Outcome::False))?;
    maker.add(row(b"self.a", true, b"2", Outcome::Failure(b"no such key")))?;
    maker.add(row(b"long", true, b"1", Outcome::Text(&long)))?;
    maker.add(row(b"self.a", true, b"3", Outcome::Text(&long)))?;
    maker.add(row(b"self.a", true, b"3", Outcome::Text(&long[0..1024])))?;
    Ok(maker.finish())
}

#[test]
fn first_rows_decide(rt: HostRuntime) -> Result<(), Fail> {
    let mut book = small_book(rt.alloc())?;
    assert_eq!(rt; book.compile(b"self == oldSelf"), Ok(0));
    assert_eq!(rt; book.compile(b"self.a"), Ok(1));
    assert_eq!(rt; book.compile(b"self == oldSelf"), Ok(0));
    assert_eq!(rt; book.execute(1, b"1"), Some(Outcome::True));
    assert_eq!(rt;
        book.execute(1, b"2"),
        Some(Outcome::Failure(text(&rt, b"no such key")))
    );
    assert_eq!(rt;
        book.execute(0, b"2"),
        Some(Outcome::Failure(text(&rt, b"no row")))
    );
    assert_eq!(rt;
        book.execute(0, b"1"),
        Some(Outcome::Text(text(&rt, b"same")))
    );
    assert!(rt; book.execute(2, b"1").is_none());
    Ok(())
}

#[test]
fn marks_and_absent_rows(rt: HostRuntime) -> Result<(), Fail> {
    let mut book = small_book(rt.alloc())?;
    assert_eq!(rt; book.compile(b"long"), ill(&rt, b"not in book"));
    assert_eq!(rt; book.compile(b"self.a"), Ok(0));
    assert_eq!(rt; book.compile(b"self == oldSelf"), Ok(1));
    assert_eq!(rt; book.mentions(0, b"oldSelf"), Some(false));
    assert_eq!(rt; book.mentions(1, b"oldSelf"), Some(true));
    assert_eq!(rt; book.mentions(1, b"self"), Some(false));
    assert_eq!(rt; book.mentions(2, b"oldSelf"), None);
    assert_eq!(rt;
        book.execute(0, b"3"),
        Some(Outcome::Text(text(&rt, &[7; LONG][0..1024])))
    );
    Ok(())
}

#[test]
fn layers(rt: HostRuntime) -> Result<(), Fail> {
    let below = small_book(rt.alloc())?;
    let mut host = Counting {
        below,
        executions: 0,
    };
    let (first, second) = compile_twice(&mut host, b"self.a");
    assert!(rt; first == Ok(0) && second == Ok(0));
    assert_eq!(rt; host.execute(0, b"1"), Some(Outcome::True));
    assert_eq!(rt; host.executions, 1);
    Ok(())
}

const LENGTH: usize = 200;

// An expression of so many bytes; the first two tell it from the others.
fn numbered(high: u8, low: u8) -> [u8; LENGTH] {
    let mut bytes = [b' '; LENGTH];
    bytes[0] = high;
    bytes[1] = low;
    bytes
}

// A book of 768 expressions that have the first `len` bytes of those above.
fn many(heap: Global, rt: &impl Abort, len: usize) -> Result<AnswerBook, Fail> {
    let mut maker = BookMaker::new(heap)?;
    assert!(rt; len <= LENGTH);
    for high in 0..3u8 {
        for low in 0..=255u8 {
            let expression = numbered(high, low);
            maker.add(row(&expression[0..len], false, b"", Outcome::Text(b"x")))?;
        }
    }
    Ok(maker.finish())
}

// How many of them a book accepts.
fn accepts(rt: &impl Abort, book: &mut AnswerBook, len: usize) -> Result<usize, Fail> {
    assert!(rt; len <= LENGTH);
    let mut count: usize = 0;
    for high in 0..3u8 {
        for low in 0..=255u8 {
            if book.compile(&numbered(high, low)[0..len]) != Err(CompileError::Full) {
                count = count.saturating_add(1);
            }
        }
    }
    Ok(count)
}

#[test]
fn capacity_by_count(rt: HostRuntime) -> Result<(), Fail> {
    let mut book = many(rt.alloc(), &rt, 2)?;
    assert_eq!(rt; accepts(&rt, &mut book, 2)?, 512);
    assert_eq!(rt; book.compile(&[1, 255]), Ok(511));
    assert_eq!(rt; book.compile(&[2, 0]), Err(CompileError::Full));
    assert_eq!(rt; book.compile(&[3, 0]), ill(&rt, b"not in book"));
    Ok(())
}

// 327 expressions of 200 bytes have 65,400 bytes; one more would pass 65,535.
#[test]
fn capacity_by_bytes(rt: HostRuntime) -> Result<(), Fail> {
    let mut book = many(rt.alloc(), &rt, LENGTH)?;
    assert_eq!(rt; accepts(&rt, &mut book, LENGTH)?, 327);
    assert_eq!(rt; book.compile(&numbered(0, 9)), Ok(9));
    Ok(())
}
