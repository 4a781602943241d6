// A value of one table, written and read into another.
ghost use Rattle.json_values.specs.Texts.{viewed};
ghost use Rattle.json_round_trip.specs.Copied.{Copies, Leaves, no_memory, refused};
ghost use Rattle.std.specs.Prelude.{◌≡◌};

use json_reader::Reader;
use json_reader::fault::Fault;
use json_values::View;
use json_values::parts::Source;
use json_values::store::Store;
use json_values::table::Table;
use json_writer::push_compact;
use std::alloc::{AllocError, Global};

// There is no memory for the text, or the text is refused.
#[derive(Clone, Copy, PartialEq, Eq, Debug)]
pub enum CopyError {
    NoMemory,
    Refused(Fault),
}

impl From<AllocError> for CopyError {
    ghost from_gives = { λ _ r. r ≡ no_memory };

    fn from(_: AllocError) -> CopyError {
        CopyError::NoMemory
    }
}

impl From<Fault> for CopyError {
    ghost from_gives = { λ f r. r ≡ refused f };

    fn from(fault: Fault) -> CopyError {
        CopyError::Refused(fault)
    }
}

// Copies the value with the number k into a store and a table, behind what they hold: the answer is its number there.
pub fn copy_value(
    heap: Global,
    reader: &mut Reader,
    view: View<'_>,
    k: usize,
    source: Source,
    store: &mut Store,
    table: &mut Table,
) -> Result<usize, CopyError>
    ensures leaves { Leaves source (viewed view.entry k) store.old table.old result store.new table.new }
    ensures copies { Copies source (viewed view.entry k) store.old table.old result store.new table.new }
{
    let mut text = Vec::new(heap);
    push_compact(view, k, &mut text)?;
    Ok(reader.read(&text, source, store, table)?)
}
