// The digits of a number, and its end.
ghost use Rattle.std.specs.Prelude.{◌≡◌, ◌<◌};
ghost use Rattle.json_scanner.specs.Bytes.{figure, figured, grown, readied, settled, still, valued};

use super::modes::{Fault, Figures, Mode, Number, NumberError, Numeral, Ready, VALUES};

// A byte with which an integer may go on.
fn is_figure(b: u8) -> bool
    ensures { result ≡ figure b }
{
    matches!(b, b'0'..=b'9' | b'.' | b'e' | b'E')
}

// One more digit of an integer: from -2^63 to 2^64 - 1.
fn grow(minus: bool, size: u64, d: u8) -> Result<Figures, NumberError>
    requires { d < 10 }
    ensures { result ≡ grown minus size d }
{
    if size == 0 {
        return Err(NumberError::Broken);
    }
    match u64::try_from(u128::from(size) * 10 + u128::from(d)) {
        Ok(size) if !minus || size <= 0x8000_0000_0000_0000 => Ok(Figures::Whole { minus, size }),
        _ => Err(NumberError::Unfit),
    }
}

// A byte of a number. A number that is known not to fit stays so.
pub fn figure_move(part: Figures, b: u8) -> Result<Figures, NumberError>
    ensures { result ≡ figured part b }
{
    match (part, b) {
        (Figures::Minus, b'1'..=b'9') => Ok(Figures::Whole {
            minus: true,
            size: u64::from(b - b'0'),
        }),
        (Figures::Whole { .. }, b'.') => Ok(Figures::Point),
        (Figures::Whole { .. }, b'e' | b'E') => Ok(Figures::Power),
        (Figures::Whole { minus, size }, b'0'..=b'9') => grow(minus, size, b - b'0'),
        (Figures::Power, b'+' | b'-') => Ok(Figures::Sign),
        (_, b'0'..=b'9') => Err(NumberError::Unfit),
        _ => Err(NumberError::Broken),
    }
}

// No number ends.
fn stay(mode: Mode, values: usize) -> Ready
    ensures { result ≡ still mode values }
{
    Ready {
        mode,
        values,
        number: None,
    }
}

// The end of an integer, which counts then, since a number that does not fit comes first.
pub fn settle(mode: Mode, values: usize) -> Result<Ready, Fault>
    ensures { result ≡ settled mode values }
{
    let Mode::Number(Figures::Whole { minus, size }, place) = mode else {
        return Ok(stay(mode, values));
    };
    if values >= VALUES {
        return Err(Fault::Crowded(place));
    }
    Ok(Ready {
        mode: Mode::After,
        values: values + 1,
        number: Some(Numeral { minus, size, place }),
    })
}

// An integer ends before a byte that is no part of it.
pub fn make_ready(mode: Mode, values: usize, b: u8) -> Result<Ready, Fault>
    ensures { result ≡ readied b mode values }
{
    if is_figure(b) {
        Ok(stay(mode, values))
    } else {
        settle(mode, values)
    }
}

impl From<Numeral> for Number {
    ghost from_gives = { λ k n. n ≡ valued k.minus k.size };

    // An int where it fits, else a uint. None is below -2^63.
    fn from(numeral: Numeral) -> Number {
        match (i64::try_from(numeral.size), numeral.minus) {
            (Ok(n), false) => Number::Int(n),
            (Ok(n), true) => Number::Int(-n),
            (Err(_), false) => Number::Uint(numeral.size),
            (Err(_), true) => Number::Int(i64::MIN),
        }
    }
}
