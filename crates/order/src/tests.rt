// Examples of the byte order and of the sort.
ghost use Rattle.std.specs.Prelude.{◌≡◌, ◌/◌, drop};
ghost use Rattle.order.specs.Keyed.{by_bytes, by_bytes_total, by_number, by_number_total};

use super::*;
use std::array::from_fn;
use std::cmp::Ordering;
use std::process::Abort;
use std::test::Fail;

// Ranks numbers by their tens, so that ties can be seen.
struct Tens;

impl Ranking for Tens {
    ghost compares = { λ _. by_number (λ n. n / 10) };

    ghost laws = { λ _. by_number_total (λ n. n / 10) };

    fn compare(&self, a: usize, b: usize) -> Ordering {
        (a / 10).cmp(&(b / 10))
    }
}

// Ranks places of a text by what follows them there.
struct Suffixes<'a> {
    text: &'a [u8],
}

impl Suffixes<'_> {
    fn suffix(&self, place: usize) -> &[u8]
        ensures { result.now ≡ drop place self.now.text.now }
    {
        &self.text[place.min(self.text.len())..]
    }
}

impl Ranking for Suffixes<'_> {
    ghost compares = { λ s. by_bytes (λ place. drop place s.text.now) };

    ghost laws = { λ s. by_bytes_total (λ place. drop place s.text.now) };

    fn compare(&self, a: usize, b: usize) -> Ordering {
        compare_bytes(self.suffix(a), self.suffix(b))
    }
}

fn sorts_to(rt: &impl Abort, numbers: &mut [usize], expected: &[usize]) -> Result<(), Fail> {
    let mut scratch = [0; 40];
    sort_numbers(&Tens, numbers, &mut scratch)?;
    assert!(rt; &*numbers == expected);
    Ok(())
}

#[test]
fn byte_order(rt: HostRuntime) {
    let cases: [(&[u8], &[u8], Ordering); 8] = [
        (b"", b"", Ordering::Equal),
        (b"", b"a", Ordering::Less),
        (b"ab", b"a", Ordering::Greater),
        (b"abc", b"abc", Ordering::Equal),
        (b"axc", b"abd", Ordering::Greater),
        (b"a\x7f", b"a\x80", Ordering::Less),
        (b"\xff", b"\x80\xff", Ordering::Greater),
        (b"z", b"\xc3\xa9", Ordering::Less),
    ];
    for (a, b, expected) in cases {
        assert!(rt; compare_bytes(a, b) == expected);
    }
}

#[test]
fn small_sorts(rt: HostRuntime) -> Result<(), Fail> {
    sorts_to(&rt, &mut [], &[])?;
    sorts_to(&rt, &mut [7], &[7])?;
    sorts_to(&rt, &mut [10, 20], &[10, 20])?;
    sorts_to(&rt, &mut [20, 10], &[10, 20])?;
    sorts_to(&rt, &mut [21, 5, 23, 7, 20, 1], &[5, 7, 1, 21, 23, 20])
}

#[test]
fn long_sort(rt: HostRuntime) -> Result<(), Fail> {
    let mut numbers: [usize; 33] = from_fn(|i| 10 * (32 - i));
    let expected: [usize; 33] = from_fn(|i| 10 * i);
    sorts_to(&rt, &mut numbers, &expected)
}

#[test]
fn byte_keys(rt: HostRuntime) -> Result<(), Fail> {
    let mut places = [0, 1, 2, 3, 4, 5];
    let mut scratch = [0; 6];
    sort_numbers(&Suffixes { text: b"banana" }, &mut places, &mut scratch)?;
    assert!(rt; places == [5, 3, 1, 0, 4, 2]);
    Ok(())
}

#[test]
fn scratch_room(rt: HostRuntime) -> Result<(), Fail> {
    let mut numbers = [30, 20, 10];
    let mut short = [1, 2];
    assert!(rt; sort_numbers(&Tens, &mut numbers, &mut short) == Err(ScratchShort));
    assert!(rt; numbers == [30, 20, 10] && short == [1, 2]);
    let mut exact = [0; 3];
    sort_numbers(&Tens, &mut numbers, &mut exact)?;
    assert!(rt; numbers == [10, 20, 30]);
    Ok(())
}
