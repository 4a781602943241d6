// Texts that are read, and what they leave.
use super::Reader;
use json_values::parts::Source;
use json_values::store::Store;
use json_values::table::{Cell, Entry, Table};
use std::alloc::Global;
use std::test::Fail;

const HALF: u64 = 0x8000_0000_0000_0000;

// A reader, and an empty store and table.
fn empty(heap: Global) -> Result<(Reader, Store, Table), Fail> {
    Ok((Reader::new(heap)?, Store::new(heap)?, Table::new(heap)?))
}

// The entry with the number i.
fn entry(table: &Table, i: usize) -> Result<Entry, Fail> {
    Ok(table.get(i).ok_or("no entry")?)
}

// The number of the first child, and how many there are.
fn span(cell: Cell) -> Result<(usize, usize), Fail> {
    let found = cell.children().ok_or("no container")?;
    Ok((found.first, found.count))
}

fn has_key(store: &Store, found: Entry, key: &[u8]) -> bool {
    found.key.of(store.text()) == key
}

#[test]
fn nested_and_repeated(rt: HostRuntime) -> Result<(), Fail> {
    let (mut reader, mut store, mut table) = empty(rt.alloc())?;
    // the two keys are equal once the escape is decoded
    let text = b"{\"b\":[true,\"x\"], \"a\":1,\"\\u0062\" : null}";
    let root = reader
        .read(text, Source::Record, &mut store, &mut table)
        .ok()
        .ok_or("refused")?;
    assert_eq!(rt; table.len(), 5);
    assert_eq!(rt; root, 4);
    assert_eq!(rt; store.text(), b"bxab".as_slice());
    let (first, count) = span(entry(&table, root)?.cell)?;
    assert!(rt; first == 2 && count == 2);
    let a = entry(&table, 2)?;
    let b = entry(&table, 3)?;
    assert!(rt; has_key(&store, a, b"a") && has_key(&store, b, b"b"));
    assert!(rt; matches!(a.cell, Cell::Int(1)) && matches!(b.cell, Cell::Null));
    assert!(rt; a.place == 21 && b.place == 34);
    Ok(())
}

#[test]
fn bounds_of_integers(rt: HostRuntime) -> Result<(), Fail> {
    let (mut reader, mut store, mut table) = empty(rt.alloc())?;
    let text = b"[-9223372036854775808,9223372036854775807,9223372036854775808]";
    assert!(rt;
        reader
            .read(text, Source::Schema, &mut store, &mut table)
            .is_ok()
    );
    assert!(rt; matches!(entry(&table, 0)?.cell, Cell::Int(i64::MIN)));
    assert!(rt; matches!(entry(&table, 1)?.cell, Cell::Int(i64::MAX)));
    assert!(rt; matches!(entry(&table, 2)?.cell, Cell::Uint(HALF)));
    Ok(())
}

#[test]
fn refusals_leave_nothing(rt: HostRuntime) -> Result<(), Fail> {
    let (mut reader, mut store, mut table) = empty(rt.alloc())?;
    assert!(rt;
        reader
            .read(b" \"kept\" ", Source::Older, &mut store, &mut table)
            .is_ok()
    );
    let fault = reader
        .read(b"[\"lost\", 1.5]", Source::Older, &mut store, &mut table)
        .err()
        .ok_or("not refused")?;
    assert!(rt; fault.number() == 3 && fault.place() == 9);
    assert_eq!(rt; store.text(), b"kept".as_slice());
    assert!(rt; store.bytes()[4] == 0 && store.bytes()[7] == 0);
    assert_eq!(rt; table.len(), 1);
    assert!(rt;
        reader
            .read(b"{\"k\":\"more\"}", Source::Older, &mut store, &mut table)
            .is_ok()
    );
    assert_eq!(rt; store.text(), b"keptkmore".as_slice());
    assert_eq!(rt; table.len(), 3);
    Ok(())
}
