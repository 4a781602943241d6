// The containers that are open, in an array of its own: no memory is asked for, and it is `Copy`, as an `ArrayVec` is not.
ghost use Rattle.json_scanner.specs.Machine.{innermost, outer};
ghost use Rattle.std.specs.Prelude.{◌≡◌, ◌<◌, [], ◌∷◌, length};

use super::modes::{Container, DEPTH};
use std::marker::Model;

// The first `depth` of the array, the innermost last, and the default behind them. So what is open tells the whole
// array, as it must for a type with a model to be `Copy`.
#[derive(Clone, Copy)]
pub struct Stack {
    kinds: [Container; DEPTH],
    depth: usize,
}

impl Model for Stack {
    ghost use Rattle.std.specs.Prelude.{List, reverse, take};
    ghost use Rattle.json_scanner.specs.declared.modes.Container.{Container};

    ghost Value = { List Container };

    ghost use Rattle.json_scanner.specs.Stacks.{Kept, keep, kept_again};

    ghost view = { λ s. reverse (take s.depth s.kinds) };

    ghost invariant = { Kept };

    ghost inverse = { keep };

    ghost inverse_ok = { kept_again };
}

impl Stack {
    pub fn new() -> Stack
        ensures { result ≡ [] }
    {
        Stack {
            kinds: [Container::default(); DEPTH],
            depth: 0,
        }
    }

    pub fn len(&self) -> usize
        ensures { result ≡ length self.now }
    {
        self.depth
    }

    pub fn last(&self) -> Option<Container>
        ensures { result ≡ innermost self.now }
    {
        if self.depth == 0 {
            return None;
        }
        Some(self.kinds[self.depth - 1])
    }

    pub fn push(&mut self, kind: Container)
        requires { length self.old < 200 }
        ensures { self.new ≡ kind ∷ self.old }
    {
        self.kinds[self.depth] = kind;
        self.depth += 1;
    }

    pub fn pop(&mut self)
        ensures { self.new ≡ outer self.old }
    {
        if self.depth > 0 {
            self.depth -= 1;
            self.kinds[self.depth] = Container::default();
        }
    }
}
