// The scanner: a byte at a time, from the first to the end of a text.
ghost use Rattle.json_scanner.specs.Holds.{Counts, Room};
ghost use Rattle.json_scanner.specs.Machine.{arranged, counted, finish, fresh, left_with, settled_end, surroundings, turned};
ghost use Rattle.std.specs.Prelude.{◌≡◌, length};

use super::modes::{Act, Around, Fault, Mode, Numeral, Ready, Step};
use super::number::{make_ready, settle};
use super::stack::Stack;
use std::marker::Model;

// What may come next, the containers that are open, and how many values have begun.
#[derive(Clone, Copy)]
pub struct Scanner {
    mode: Mode,
    containers: Stack,
    values: usize,
}

impl Model for Scanner {
    ghost use Rattle.json_scanner.specs.Machine.{Control};

    ghost Value = { Control };

    ghost view = { λ s. record { mode = s.mode; around = s.containers; values = s.values } };

    ghost inverse = { λ c. record { mode = c.mode; containers = c.around; values = c.values } };
}

// The number of values after an act.
fn count(act: Act, values: usize) -> usize
    requires { Counts act values }
    ensures { result ≡ counted act values }
{
    match act {
        Act::Begin | Act::Open(_) => values + 1,
        _ => values,
    }
}

// What an act opens and closes.
fn arrange(containers: &mut Stack, act: Act)
    requires { Room act (length containers.old) }
    ensures { containers.new ≡ arranged act containers.old }
{
    match act {
        Act::Open(container) => containers.push(container),
        Act::Close => containers.pop(),
        _ => {}
    }
}

// What stands around a byte.
fn around(containers: &Stack, place: usize, values: usize) -> Around
    ensures { result ≡ surroundings place containers.now values }
{
    Around {
        place,
        inner: containers.last(),
        depth: containers.len(),
        values,
    }
}

// The end of the text: a value has ended, and nothing is open.
fn end(ready: Ready, around: Around) -> Result<Option<Numeral>, Fault>
    ensures { result ≡ settled_end around.place ready.mode around.inner around.values ready.number }
{
    match (ready.mode, around.inner) {
        (Mode::After, None) => Ok(ready.number),
        (Mode::Number(_, from), _) => Err(around.broken_number(from)),
        _ => Err(Fault::Malformed(around.place)),
    }
}

impl Scanner {
    // Before the first byte.
    pub fn new() -> Scanner
        ensures { result ≡ fresh }
    {
        Scanner {
            mode: Mode::Want,
            containers: Stack::new(),
            values: 0,
        }
    }

    // The byte b at `place`: the number that ended before it, and what it does. At a fault all stays as it was.
    pub fn step(&mut self, place: usize, b: u8) -> Result<Step, Fault>
        ensures { (self.new, result) ≡ left_with self.old (turned place self.old b) }
    {
        let ready = make_ready(self.mode, self.values, b)?;
        let around = around(&self.containers, place, ready.values);
        let next = around.one_move(ready.mode, b)?;
        arrange(&mut self.containers, next.act);
        self.values = count(next.act, ready.values);
        self.mode = next.mode;
        Ok(Step {
            number: ready.number,
            act: next.act,
        })
    }

    // The end of a text of `len` bytes: the number that ended there, if one did.
    pub fn finish(&self, len: usize) -> Result<Option<Numeral>, Fault>
        ensures { result ≡ finish len self.now }
    {
        let ready = settle(self.mode, self.values)?;
        end(ready, around(&self.containers, len, ready.values))
    }
}
