// Values of a table as compact text.
ghost use Rattle.std.specs.Prelude.{◌≡◌, ◌++◌, OnOk};
ghost use Rattle.json_values.specs.Meaning.{children, items_of, members_of};
ghost use Rattle.json_values.specs.Texts.{meant, rows_in, viewed};
ghost use Rattle.json_writer.specs.Back.{WritesJson};
ghost use Rattle.json_writer.specs.Compact.{compact, comma_at, items_text, literal, members_text, named};

use super::strings::push_quoted;
use itoa::{Buffer, Integer};
use json_values::View;
use json_values::table::{Cell, Span};
use std::alloc::AllocError;

fn push_literal(b: bool, out: &mut Vec<u8>) -> Result<(), AllocError>
    ensures { OnOk result (out.new.items ≡ out.old.items ++ literal b) }
{
    let word = if b { "true" } else { "false" };
    out.extend_from_slice(word.as_bytes())
}

fn push_number<I: Integer>(n: I, out: &mut Vec<u8>) -> Result<(), AllocError>
    ensures { OnOk result (out.new.items ≡ out.old.items ++ I.text n) }
{
    out.extend_from_slice(Buffer::new().format(n).as_bytes())
}

// The comma before all but the first of a run.
fn push_comma(i: usize, out: &mut Vec<u8>) -> Result<(), AllocError>
    ensures { OnOk result (out.new.items ≡ out.old.items ++ comma_at i) }
{
    if 0 < i {
        out.push(b',')?;
    }
    Ok(())
}

// The key of a member.
fn push_key(key: &[u8], out: &mut Vec<u8>) -> Result<(), AllocError>
    ensures { OnOk result (out.new.items ≡ out.old.items ++ named key.now) }
{
    push_quoted(key, out)?;
    Ok(out.push(b':')?)
}

// What is written is JSON.
#[tactic(auto, using(crate::proofs::Back::writes_json))]
pub fn writing_stands()
    ensures { WritesJson }
{}

// Appends the value with the number k. The nesting of the value bounds the recursion.
#[tactic(auto, using(crate::proofs::Entries::none_text))]
pub fn push_compact(view: View<'_>, k: usize, out: &mut Vec<u8>) -> Result<(), AllocError>
    ensures { OnOk result (out.new.items ≡ out.old.items ++ compact (viewed view.entry k)) }
{
    match view.entry(k) {
        Some(entry) => push_cell(view.below(k), entry.cell, out),
        None => out.extend_from_slice(b"null"),
    }
}

// What a cell holds. Its children are among the entries of the view.
#[cycle(push_cell)]
#[tactic(auto, unfolding(crate::specs::Compact::compact))]
fn push_cell(view: View<'_>, cell: Cell, out: &mut Vec<u8>) -> Result<(), AllocError>
    ensures { OnOk result (out.new.items ≡ out.old.items ++ compact (meant view.entry cell)) }
{
    match cell {
        Cell::Null => out.extend_from_slice(b"null"),
        Cell::Bool(b) => push_literal(b, out),
        Cell::Int(n) => push_number(n, out),
        Cell::Uint(n) => push_number(n, out),
        Cell::Text(part) => push_quoted(view.text(part), out),
        Cell::List(span) => {
            out.push(b'[')?;
            push_items(view, span, out)?;
            Ok(out.push(b']')?)
        }
        Cell::Map(span) => {
            out.push(b'{')?;
            push_members(view, span, out)?;
            Ok(out.push(b'}')?)
        }
    }
}

#[cycle(push_cell)]
#[tactic(auto, using(crate::proofs::Entries::all_children), unfolding(crate::specs::Compact::compact))]
fn push_items(view: View<'_>, span: Span, out: &mut Vec<u8>) -> Result<(), AllocError>
    ensures { OnOk result (out.new.items ≡ out.old.items ++ items_text (items_of (children (rows_in view.entry) span))) }
{
    for (i, item) in span.of(view.entries).iter().enumerate() {
        push_comma(i, out)?;
        push_cell(view.below(span.first + i), item.cell, out)?;
    }
    Ok(())
}

#[cycle(push_cell)]
#[tactic(auto, using(crate::proofs::Entries::all_children), unfolding(crate::specs::Compact::compact))]
fn push_members(view: View<'_>, span: Span, out: &mut Vec<u8>) -> Result<(), AllocError>
    ensures { OnOk result (out.new.items ≡ out.old.items ++ members_text (members_of (children (rows_in view.entry) span))) }
{
    for (i, member) in span.of(view.entries).iter().enumerate() {
        push_comma(i, out)?;
        push_key(view.text(member.key), out)?;
        push_cell(view.below(span.first + i), member.cell, out)?;
    }
    Ok(())
}
