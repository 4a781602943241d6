// A reader takes its memory when it is made, and then reads texts into stores and tables.
ghost use Rattle.std.specs.Prelude.{◌≡◌, length, replicate, take, Ok, Err, IfOk, MatchResult};
ghost use Rattle.fixed.specs.Listed.{last};
ghost use Rattle.fixed.specs.Room.{extended};
ghost use Rattle.json_scanner.specs.Machine.{bytes_of, fresh};
ghost use Rattle.json_reader.specs.Building.{acted, blank, building, built, closed_in, moved_in};
ghost use Rattle.json_reader.specs.Law.{ReadsAs, ReadsOrdered};
ghost use Rattle.json_reader.specs.Reading.{beginning, outcome, reading};
ghost use Rattle.json_reader.specs.Targets.{SameTarget, made};

use super::bench::Bench;
use super::builder::{Builder, Open};
use super::fault::Fault;
use super::sift::ByKey;
use json_scanner::Scanner;
use json_scanner::modes::{Act, Container, Fault as Flaw, Piece, Step, VALUES};
use json_values::parts::Source;
use json_values::store::{ROOM, Store};
use json_values::table::{Cell, ENTRIES, Span, Table};
use std::alloc::{AllocError, Global};
use std::marker::Model;

// What is built of a text, and room for sorting. Between two texts neither matters.
#[derive(Drop)]
pub struct Reader {
    builder: Builder,
    bench: Bench,
}

impl Model for Reader {
    ghost use Rattle.json_reader.specs.Notes.{Desk};

    ghost Value = { Desk };

    ghost view = { λ r. record { notes = r.builder; room = r.bench } };
}

// The text that is read, by its source, and where its keys and texts, and its values, go.
#[derive(Drop)]
struct Target<'a> {
    source: Source,
    store: &'a mut Store,
    table: &'a mut Table,
}

// Adds to a string's text; a character in UTF-8. There is room: the text is no longer than what was read of it.
fn append_piece(store: &mut Store, piece: Piece)
    ensures { store.new ≡ extended 65535 store.old (bytes_of piece) }
{
    let _ = match piece {
        Piece::Byte(b) => store.push(b),
        Piece::Char(c) => store.append(c.encode_utf8(&mut [0; 4]).as_bytes()),
    };
}

// What is read is ordered.
#[tactic(auto, using(crate::proofs::Ordering::values_ordered))]
pub fn reading_orders()
    ensures { ReadsOrdered }
{}

impl Reader {
    pub fn new(heap: Global) -> Result<Reader, AllocError>
        ensures builder { IfOk result (λ r. r.notes ≡ blank 0) }
        ensures numbers { IfOk result (λ r. r.room.numbers ≡ replicate 4096 0) }
        ensures scratch { IfOk result (λ r. r.room.scratch ≡ replicate 4096 0) }
    {
        let builder = Builder::new(heap)?;
        let bench = Bench::new(heap)?;
        Ok(Reader { builder, bench })
    }

    // Moves the children of a container into the table: a list's as they stand, a map's by their keys.
    fn move_children(&mut self, frame: Open, target: &mut Target<'_>)
        ensures notes { self.new.notes ≡ self.old.notes }
        ensures table { target.new.table.now ≡ moved_in frame.container target.old.store.now self.old.notes.pending frame.first target.old.table.now }
        ensures text { target.new.store.now ≡ target.old.store.now }
        ensures same { SameTarget target.old target.new }
    {
        let entries = self.builder.pending();
        match frame.container {
            Container::List => {
                let children = entries.get(frame.first..).unwrap_or_default();
                let _ = target.table.extend_from_slice(children);
            }
            Container::Object => {
                let members = ByKey {
                    text: target.store.text(),
                    entries,
                };
                self.bench.move_members(&members, frame.first, target.table);
            }
        }
    }

    // The innermost container closes: its children go into the table, and it waits in their place.
    fn close(&mut self, target: &mut Target<'_>)
        ensures built { made self.new.notes target.new ≡ closed_in (last self.old.notes.opens) (made self.old.notes target.old) }
        ensures same { SameTarget target.old target.new }
    {
        if let Some(frame) = self.builder.close() {
            let first = target.table.len();
            self.move_children(frame, target);
            let count = target.table.len().saturating_sub(first);
            self.builder.wrap(frame, Span { first, count });
        }
    }

    // What an act of the scanner at the byte i does.
    fn perform(&mut self, target: &mut Target<'_>, i: usize, act: Act)
        ensures built { made self.new.notes target.new ≡ acted target.old.source i act (made self.old.notes target.old) }
        ensures same { SameTarget target.old target.new }
    {
        let source = target.source;
        let builder = &mut self.builder;
        match act {
            Act::Stay => {}
            Act::Begin => builder.begin(i),
            Act::Open(container) => builder.open(container, i),
            Act::Close => self.close(target),
            Act::Add(piece) => append_piece(target.store, piece),
            Act::Key => builder.end_key(source, target.store.len()),
            Act::Text => builder.end_text(source, target.store.len()),
            Act::Null => builder.end(Cell::Null),
            Act::Bool(b) => builder.end(Cell::Bool(b)),
        }
    }

    // What a step of the scanner at the byte i does: the number that ended before it first.
    fn follow(&mut self, target: &mut Target<'_>, i: usize, step: Step)
        ensures built { made self.new.notes target.new ≡ built target.old.source i step (made self.old.notes target.old) }
        ensures same { SameTarget target.old target.new }
    {
        self.builder.add_number(step.number);
        self.perform(target, i, step.act);
    }

    // Builds what is in a text. What the store and the table held before stays in front.
    fn build(&mut self, target: &mut Target<'_>, text: &[u8]) -> Result<(), Flaw>
        ensures built { MatchResult result
            (λ _. building target.old.source fresh 0 text.now (beginning target.old.store.now target.old.table.now) ≡ Ok (made self.new.notes target.new))
            (λ f. building target.old.source fresh 0 text.now (beginning target.old.store.now target.old.table.now) ≡ Err f) }
        ensures text { take (length target.old.store.now) target.new.store.now ≡ target.old.store.now }
        ensures table { take (length target.old.table.now) target.new.table.now ≡ target.old.table.now }
        ensures same { SameTarget target.old target.new }
    {
        self.builder.start(target.store.len());
        let mut scanner = Scanner::new();
        for (i, b) in text.iter().enumerate() {
            let step = scanner.step(i, *b)?;
            self.follow(target, i, step);
        }
        let number = scanner.finish(text.len())?;
        self.builder.add_number(number);
        Ok(())
    }

    // Reads a text. Its keys and texts go behind what the store holds, its values behind what the table holds, its
    // own value last: the answer is its number. Where the text is refused, the store and the table are as before.
    pub fn read(
        &mut self,
        text: &[u8],
        source: Source,
        store: &mut Store,
        table: &mut Table,
    ) -> Result<usize, Fault>
        ensures answer { result ≡ (outcome source store.old table.old (reading source text.now store.old table.old)).answer }
        ensures text { store.new ≡ (outcome source store.old table.old (reading source text.now store.old table.old)).text }
        ensures table { table.new ≡ (outcome source store.old table.old (reading source text.now store.old table.old)).table }
        ensures law { ReadsAs source text.now store.old table.old result store.new table.new }
    {
        let stored = store.len();
        let entered = table.len();
        if stored.saturating_add(text.len()) > ROOM || entered + VALUES > ENTRIES {
            return Err(Fault {
                text: source,
                flaw: Flaw::Crowded(0),
            });
        }
        let mut target = Target {
            source,
            store,
            table,
        };
        if let Err(flaw) = self.build(&mut target, text) {
            target.store.truncate(stored);
            target.table.truncate(entered);
            return Err(Fault { text: source, flaw });
        }
        let root = target.table.len();
        if let Some(entry) = self.builder.pending().first() {
            let _ = target.table.push(*entry);
        }
        Ok(root)
    }
}
