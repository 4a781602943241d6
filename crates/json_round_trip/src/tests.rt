// A text that is read, copied and written.
use super::copy_value;
use json_reader::Reader;
use json_values::parts::Source;
use json_values::store::Store;
use json_values::table::Table;
use json_values::{Stores, View};
use json_writer::push_compact;
use std::test::Fail;

// Spaces, escapes, a surrogate pair, the bounds of integers and a repeated key.
#[test]
fn read_copied_and_written(rt: HostRuntime) -> Result<(), Fail> {
    let heap = rt.alloc();
    let mut reader = Reader::new(heap)?;
    let mut record = Store::new(heap)?;
    let mut table: Table = Table::new(heap)?;
    let text =
        b" { \"b\" : null,\n\"a\" : \"\\u00e4\\/\\u000a\\ud83d\\ude00\" , \"\\u0062\": [ -9223372036854775808, 18446744073709551615,true, { }] } ";
    let Ok(root) = reader.read(text, Source::Record, &mut record, &mut table) else {
        return Err(Fail::new("refused"));
    };
    let schema = Store::new(heap)?;
    let mut older = Store::new(heap)?;
    let mut copies: Table = Table::new(heap)?;
    let stores = Stores {
        schema: &schema,
        record: &record,
        older: &schema,
    };
    let view = View {
        stores,
        entries: table.as_slice(),
    };
    let Ok(copy) = copy_value(
        heap,
        &mut reader,
        view,
        root,
        Source::Older,
        &mut older,
        &mut copies,
    ) else {
        return Err(Fail::new("not copied"));
    };
    let stores = Stores {
        schema: &schema,
        record: &schema,
        older: &older,
    };
    let copied = View {
        stores,
        entries: copies.as_slice(),
    };
    let mut out = Vec::new(heap);
    push_compact(copied, copy, &mut out)?;
    assert_eq!(rt;
        out.as_slice(),
        b"{\"a\":\"\xc3\xa4/\\n\xf0\x9f\x98\x80\",\"b\":[-9223372036854775808,18446744073709551615,true,{}]}".as_slice()
    );
    Ok(())
}
