// Durations as Go writes them, such as `1h30m` or `-1.5s`. The readers take bytes apart by slice patterns, as the
// project's rule for this reader is: each gives what it read and the rest of the text.
ghost use Rattle.std.specs.Prelude.{◌≡◌, ◌+◌, ◌^◌, ◌<◌, ◌≤◌, length, IfSome};
ghost use Rattle.durations.specs.Duration.{duration, fraction, leading_amount, leading_figures, leading_numeral, leading_unit, magnitude, seen, sign, signed, sum_from, unit_nanoseconds, whole_nanoseconds};
ghost use Rattle.durations.specs.DurationGrammar.{DurationsRead};

use std::marker::Model;

// So many digits an amount may have: few enough that `u128` holds them times any unit.
const MAX_DIGITS: u32 = 15;

// No duration has so many nanoseconds, of either sign.
const LIMIT: u128 = 1 << 63;

// Which way a duration goes.
#[derive(Clone, Copy)]
enum Sign {
    Plus,
    Minus,
}

#[derive(Clone, Copy)]
enum Unit {
    Hour,
    Minute,
    Second,
    Millisecond,
    Microsecond,
    Nanosecond,
}

// Decimal digits: the number that they write, and how many they are.
#[derive(Drop)]
struct Figures {
    value: u64,
    count: u32,
}

impl Model for Figures {
    ghost use Rattle.std.specs.Prelude.{◌^◌, ◌<◌, ◌≤◌};
    ghost use Rattle.durations.specs.Numbers.{Written};

    ghost Value = { Written };

    ghost view = { λ a. record { value = a.value; count = a.count } };

    ghost invariant = { λ a. (a.count ≤ 15) × (a.value < 10 ^ a.count) };
}

// A decimal number: `digits` over ten to the power of `decimals`.
#[derive(Drop)]
struct Numeral {
    digits: u64,
    decimals: u32,
}

impl Model for Numeral {
    ghost use Rattle.std.specs.Prelude.{◌^◌, ◌<◌, ◌≤◌};
    ghost use Rattle.durations.specs.Numbers.{Decimal};

    ghost Value = { Decimal };

    ghost view = { λ a. record { digits = a.digits; decimals = a.decimals } };

    ghost invariant = { λ a. (a.digits < 10 ^ 15) × (a.decimals ≤ 15) };
}

impl Sign {
    fn signed(self, nanoseconds: u128) -> i64
        requires { nanoseconds < 2 ^ 63 }
        ensures { result ≡ signed self nanoseconds }
    {
        // it has room, as each caller shows
        let ahead = nanoseconds as i64;
        match self {
            Sign::Plus => ahead,
            Sign::Minus => -ahead,
        }
    }
}

impl Unit {
    fn nanoseconds(self) -> u64
        ensures { result ≡ unit_nanoseconds self }
    {
        match self {
            Unit::Hour => 3_600_000_000_000,
            Unit::Minute => 60_000_000_000,
            Unit::Second => 1_000_000_000,
            Unit::Millisecond => 1_000_000,
            Unit::Microsecond => 1_000,
            Unit::Nanosecond => 1,
        }
    }
}

impl Numeral {
    // So many units in whole nanoseconds, exact up to the division, which cuts toward zero.
    #[tactic(auto, using(crate::proofs::DurationFigures::ten_positive))]
    fn nanoseconds(self, unit: Unit) -> u128
        ensures exact { result ≡ whole_nanoseconds self unit }
        ensures small { result < 2 ^ 100 }
    {
        let scaled = u128::from(self.digits) * u128::from(unit.nanoseconds());
        scaled / u128::from(10u64.pow(self.decimals))
    }
}

fn split_sign(text: &[u8]) -> (Sign, &[u8])
    ensures { sign text.now ≡ (result.0, result.1.now) }
{
    match text {
        [b'-', rest @ ..] => (Sign::Minus, rest),
        [b'+', rest @ ..] => (Sign::Plus, rest),
        _ => (Sign::Plus, text),
    }
}

// The unit at the front of `text`; `ms` before `m`, and `µ` as the micro sign or the Greek letter.
fn read_unit(text: &[u8]) -> Option<(Unit, &[u8])>
    ensures { seen result ≡ leading_unit text.now }
{
    match text {
        [b'm', b's', rest @ ..] => Some((Unit::Millisecond, rest)),
        [b'u', b's', rest @ ..] => Some((Unit::Microsecond, rest)),
        [0xC2, 0xB5, b's', rest @ ..] => Some((Unit::Microsecond, rest)),
        [0xCE, 0xBC, b's', rest @ ..] => Some((Unit::Microsecond, rest)),
        [b'n', b's', rest @ ..] => Some((Unit::Nanosecond, rest)),
        [b'h', rest @ ..] => Some((Unit::Hour, rest)),
        [b'm', rest @ ..] => Some((Unit::Minute, rest)),
        [b's', rest @ ..] => Some((Unit::Second, rest)),
        _ => None,
    }
}

// The digits of `start` and then those at the front of `text`.
#[tactic(auto, using(crate::proofs::DurationFigures::ten_upto))]
fn read_figures(text: &[u8], start: Figures) -> Option<(Figures, &[u8])>
    ensures value { seen result ≡ leading_figures start text.now }
    ensures more { IfSome result (λ p. start.count ≤ p.0.count) }
{
    let mut read = start;
    let mut rest = text;
    while let [digit @ b'0'..=b'9', tail @ ..] = rest {
        if read.count >= MAX_DIGITS {
            return None;
        }
        read = Figures {
            value: read.value * 10 + u64::from(*digit - b'0'),
            count: read.count + 1,
        };
        rest = tail;
    }
    Some((read, rest))
}

// The digits of `whole` and then those behind a point, if `text` begins with one.
fn read_fraction(text: &[u8], whole: Figures) -> Option<(Figures, &[u8])>
    ensures value { seen result ≡ fraction whole text.now }
    ensures more { IfSome result (λ p. whole.count ≤ p.0.count) }
{
    match text {
        [b'.', digits @ ..] => read_figures(digits, whole),
        _ => Some((whole, text)),
    }
}

#[tactic(auto, using(crate::proofs::DurationFigures::ten_upto))]
fn read_numeral(text: &[u8]) -> Option<(Numeral, &[u8])>
    ensures { seen result ≡ leading_numeral text.now }
{
    let (whole, rest) = read_figures(text, Figures { value: 0, count: 0 })?;
    let before_point = whole.count;
    let (all, rest) = read_fraction(rest, whole)?;
    if all.count == 0 {
        return None;
    }
    let numeral = Numeral {
        digits: all.value,
        decimals: all.count - before_point,
    };
    Some((numeral, rest))
}

// An amount in whole nanoseconds.
fn read_amount(text: &[u8]) -> Option<(u128, &[u8])>
    ensures value { seen result ≡ leading_amount text.now }
    ensures small { IfSome result (λ p. p.0 < 2 ^ 100) }
{
    let (numeral, rest) = read_numeral(text)?;
    let (unit, rest) = read_unit(rest)?;
    Some((numeral.nanoseconds(unit), rest))
}

// The sum of the amounts that `text` is made of.
fn read_sum(text: &[u8]) -> Option<u128>
    ensures value { result ≡ sum_from (length text.now + 1) 0 text.now }
    ensures small { IfSome result (λ n. n < 2 ^ 63) }
{
    let mut total: u128 = 0;
    let mut rest = text;
    while !rest.is_empty() {
        let (nanoseconds, tail) = read_amount(rest)?;
        total += nanoseconds;
        // No amount is more than the sum, so this tests each amount too.
        if total >= LIMIT {
            return None;
        }
        rest = tail;
    }
    Some(total)
}

fn read_magnitude(text: &[u8]) -> Option<u128>
    ensures value { result ≡ magnitude text.now }
    ensures small { IfSome result (λ n. n < 2 ^ 63) }
{
    match text {
        [] => None,
        [b'0'] => Some(0),
        _ => read_sum(text),
    }
}

// The nanoseconds of a duration such as `1h30m` or `-1.5s`, or nothing if `input` is no duration or too long a one.
#[tactic(auto, using(crate::proofs::DurationLaw::durations_read))]
pub fn parse_go_duration(input: &[u8]) -> Option<i64>
    ensures value { result ≡ duration input.now }
    ensures law { DurationsRead }
{
    let (sign, rest) = split_sign(input);
    read_magnitude(rest).map(|nanoseconds| sign.signed(nanoseconds))
}
