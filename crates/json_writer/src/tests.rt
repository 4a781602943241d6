use super::push_compact;
use json_values::parts::{Part, Source};
use json_values::store::Store;
use json_values::table::{Cell, Entry, Span, Table};
use json_values::{Stores, View, add_entry};
use std::test::Fail;

fn part(start: usize, len: usize) -> Part {
    Part {
        source: Source::Record,
        start,
        len,
    }
}

fn entry(key: Part, cell: Cell) -> Entry {
    Entry {
        key,
        place: 0,
        cell,
    }
}

// A map of a text with every kind of escape, and a list of numbers, literals and empty containers.
#[test]
fn compact_text(rt: HostRuntime) -> Result<(), Fail> {
    let heap = rt.alloc();
    let schema = Store::new(heap)?;
    let older = Store::new(heap)?;
    let mut record = Store::new(heap)?;
    assert!(rt; record.append(b"k\"\\\x08\x0c\n\r\t\x1f/\xc3\xa4").is_ok());
    let mut table: Table = Table::new(heap)?;
    let none = part(0, 0);
    let cells = [
        Cell::Int(-9223372036854775808),
        Cell::Uint(18446744073709551615),
        Cell::Bool(true),
        Cell::Bool(false),
        Cell::Null,
        Cell::List(Span { first: 0, count: 0 }),
        Cell::Map(Span { first: 0, count: 0 }),
    ];
    for cell in cells.iter().copied() {
        assert!(rt; add_entry(&mut table, entry(none, cell)).is_ok());
    }
    assert!(rt;
        add_entry(
            &mut table,
            entry(none, Cell::List(Span { first: 0, count: 7 })),
        )
        .is_ok()
    );
    assert!(rt; add_entry(&mut table, entry(part(0, 1), Cell::Text(part(1, 11)))).is_ok());
    assert!(rt;
        add_entry(
            &mut table,
            entry(none, Cell::Map(Span { first: 7, count: 2 })),
        )
        .is_ok()
    );
    let stores = Stores {
        schema: &schema,
        record: &record,
        older: &older,
    };
    let view = View {
        stores,
        entries: table.as_slice(),
    };
    let mut text = Vec::new(heap);
    push_compact(view, 9, &mut text)?;
    assert_eq!(rt;
        text.as_slice(),
        b"{\"\":[-9223372036854775808,18446744073709551615,true,false,null,[],{}],\"k\":\"\\\"\\\\\\b\\f\\n\\r\\t\\u001f/\xc3\xa4\"}".as_slice()
    );
    Ok(())
}
