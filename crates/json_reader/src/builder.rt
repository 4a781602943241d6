// What is built of a text that is not at its end.
ghost use Rattle.std.specs.Prelude.{◌≡◌, ◌-◌, ◌≤◌, length, take, IfNone, IfOk};
ghost use Rattle.fixed.specs.Listed.{last};
ghost use Rattle.json_reader.specs.Building.{beginning_at, blank, container_cell, cut, named, number_cell, numbered, opened, texted, valued, wrapped_up};

use fixed::list::FixedList;
use json_scanner::modes::{Container, DEPTH, Numeral, VALUES};
use json_values::parts::{Part, Source};
use json_values::table::{Cell, Entry, Span};
use std::alloc::{AllocError, Global};
use std::marker::Model;
use std::mem;

// A container that is open: where its children begin among the values that wait, its own key, and its place.
#[derive(Clone, Copy)]
pub struct Open {
    pub container: Container,
    pub first: usize,
    pub key: Part,
    pub place: usize,
}

// The values that wait for their container, the containers that are open, the key of the value to come, where
// the text that is being read begins in the store, and the place of the literal or text that has begun.
#[derive(Drop)]
pub struct Builder {
    pending: FixedList<Entry, VALUES>,
    opens: FixedList<Open, DEPTH>,
    key: Part,
    begun: usize,
    place: usize,
}

impl Model for Builder {
    ghost use Rattle.json_reader.specs.Notes.{Notes};

    ghost Value = { Notes };

    ghost view = { λ b. record { pending = b.pending; opens = b.opens; key = b.key; begun = b.begun; place = b.place } };
}

// An int where it fits, else a uint.
fn number_cell(minus: bool, size: u64) -> Cell
    ensures { result ≡ number_cell minus size }
{
    let magnitude = i128::from(size);
    match i64::try_from(if minus { -magnitude } else { magnitude }) {
        Ok(n) => Cell::Int(n),
        Err(_) => Cell::Uint(size),
    }
}

// No `From`: the container and the cell are of two other crates.
fn container_cell(container: Container, span: Span) -> Cell
    ensures { result ≡ container_cell container span }
{
    match container {
        Container::List => Cell::List(span),
        Container::Object => Cell::Map(span),
    }
}

impl Builder {
    pub fn new(heap: Global) -> Result<Builder, AllocError>
        ensures { IfOk result (λ b. b ≡ blank 0) }
    {
        let pending = FixedList::new(heap)?;
        let opens = FixedList::new(heap)?;
        Ok(Builder {
            pending,
            opens,
            key: Part::default(),
            begun: 0,
            place: 0,
        })
    }

    // Before the first byte of a text, whose keys and texts go behind the first `begun` bytes of the store.
    pub fn start(&mut self, begun: usize)
        ensures { self.new ≡ blank begun }
    {
        self.pending.clear();
        self.opens.clear();
        self.key = Part::default();
        self.begun = begun;
        self.place = 0;
    }

    // The values that wait.
    pub fn pending(&self) -> &[Entry]
        ensures value { result.now ≡ self.now.pending }
        ensures few { length result.now ≤ 4096 }
    {
        self.pending.as_slice()
    }

    // A value takes the key that was read for it, and waits. There is room: the scanner counts the values.
    fn add_value(&mut self, cell: Cell, place: usize)
        ensures { self.new ≡ valued cell place self.old }
    {
        let key = mem::take(&mut self.key);
        let _ = self.pending.push(Entry { key, place, cell });
    }

    // The number that ended, if one did.
    pub fn add_number(&mut self, number: Option<Numeral>)
        ensures { self.new ≡ numbered number self.old }
    {
        if let Some(n) = number {
            self.add_value(number_cell(n.minus, n.size), n.place);
        }
    }

    // A literal or a text begins.
    pub fn begin(&mut self, place: usize)
        ensures { self.new ≡ beginning_at place self.old }
    {
        self.place = place;
    }

    // A literal or a text ends.
    pub fn end(&mut self, cell: Cell)
        ensures { self.new ≡ valued cell self.old.place self.old }
    {
        let place = self.place;
        self.add_value(cell, place);
    }

    // There is room: the scanner counts the containers.
    pub fn open(&mut self, container: Container, place: usize)
        ensures { self.new ≡ opened container place self.old }
    {
        let first = self.pending.len();
        let key = mem::take(&mut self.key);
        let _ = self.opens.push(Open {
            container,
            first,
            key,
            place,
        });
    }

    // The innermost container that is open, taken off.
    pub fn close(&mut self) -> Option<Open>
        ensures answer { result ≡ last self.old.opens }
        ensures rest { self.new ≡ record self.old { opens = take (length self.old.opens - 1) self.old.opens } }
        ensures none { IfNone result (self.new ≡ self.old) }
    {
        self.opens.pop()
    }

    // The container waits in place of its children.
    pub fn wrap(&mut self, frame: Open, span: Span)
        ensures { self.new ≡ wrapped_up frame span self.old }
    {
        self.pending.truncate(frame.first);
        self.key = frame.key;
        self.add_value(container_cell(frame.container, span), frame.place);
    }

    // The text from where the last one ended.
    fn cut(&mut self, source: Source, end: usize) -> Part
        ensures part { result ≡ cut source end self.old }
        ensures same { self.new ≡ record self.old { begun = end } }
    {
        let start = mem::replace(&mut self.begun, end);
        Part {
            source,
            start,
            len: end.saturating_sub(start),
        }
    }

    pub fn end_key(&mut self, source: Source, end: usize)
        ensures { self.new ≡ named source end self.old }
    {
        let key = self.cut(source, end);
        self.key = key;
    }

    pub fn end_text(&mut self, source: Source, end: usize)
        ensures { self.new ≡ texted source end self.old }
    {
        let part = self.cut(source, end);
        self.end(Cell::Text(part));
    }
}
