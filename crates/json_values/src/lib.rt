// JSON values in numbered tables over stores of bytes.
#![tactic(auto)]

pub mod parts;
pub mod store;
pub mod stores;
pub mod table;
pub mod view;

pub use stores::Stores;
pub use table::add_entry;
pub use view::View;

#[cfg(test)]
mod tests {
    use super::parts::{Part, Source};
    use super::store::Store;
    use super::table::{Cell, Entry, Span, Table};
    use super::{Stores, View};
    use std::test::Fail;

    fn part(source: Source, start: usize, len: usize) -> Part {
        Part { source, start, len }
    }

    #[test]
    fn stores_and_parts(rt: HostRuntime) -> Result<(), Fail> {
        let mut schema = Store::new(rt.alloc())?;
        let mut record = Store::new(rt.alloc())?;
        let older = Store::new(rt.alloc())?;
        assert!(rt;
            schema.append(b"spec").is_ok()
                && record.append(b"status").is_ok()
                && record.push(b'!').is_ok()
        );
        let stores = Stores {
            schema: &schema,
            record: &record,
            older: &older,
        };
        assert_eq!(rt; stores.text(part(Source::Schema, 1, 2)), b"pe".as_slice());
        assert_eq!(rt; stores.text(part(Source::Record, 4, 9)), b"us!".as_slice());
        assert_eq!(rt; stores.text(part(Source::Older, 0, 1)), b"".as_slice());
        record.truncate(4);
        assert_eq!(rt; record.text(), b"stat".as_slice());
        assert_eq!(rt; record.bytes()[4], 0);
        Ok(())
    }

    #[test]
    fn members(rt: HostRuntime) -> Result<(), Fail> {
        let mut store = Store::new(rt.alloc())?;
        assert!(rt; store.append(b"abbc").is_ok());
        let mut table: Table = Table::new(rt.alloc())?;
        for (start, len) in [(0, 1), (1, 2), (3, 1)] {
            let entry = Entry {
                key: part(Source::Record, start, len),
                place: 0,
                cell: Cell::Null,
            };
            assert!(rt; table.push(entry).is_ok());
        }
        let stores = Stores {
            schema: &store,
            record: &store,
            older: &store,
        };
        let view = View {
            stores,
            entries: table.as_slice(),
        };
        let all = Span { first: 0, count: 3 };
        assert_eq!(rt; view.member(all, b"bb"), Some(1));
        assert_eq!(rt; view.member(all, b"c"), Some(2));
        assert_eq!(rt; view.member(all, b"b"), None);
        assert_eq!(rt; view.member(Span { first: 1, count: 9 }, b"a"), None);
        Ok(())
    }
}
