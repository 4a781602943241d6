// What holds things in memory that is taken once: a list with room for so many elements, and a short text by value;
// and where a run of bytes lies in such memory.
#![tactic(auto)]

pub mod list;
pub mod refusal;
pub mod slice;
pub mod text;

#[cfg(test)]
mod tests {
    use super::list::FixedList;
    use super::refusal::{Full, Outside};
    use super::slice::Slice;
    use super::text::{BoundedText, MOST};
    use std::test::Fail;

    #[test]
    fn fills_and_refuses(rt: HostRuntime) -> Result<(), Fail> {
        let mut list: FixedList<u8, 3> = FixedList::new(rt.alloc())?;
        list.push(5)?;
        assert_eq!(rt; list.extend_from_slice(&[6, 7, 8]), Err(Full));
        assert_eq!(rt; list.as_slice(), [5].as_slice());
        list.extend_from_slice(&[6, 7])?;
        assert_eq!(rt; list.push(8), Err(Full));
        assert_eq!(rt; list.as_slice(), [5, 6, 7].as_slice());
        Ok(())
    }

    #[test]
    fn changes_and_fills_again(rt: HostRuntime) -> Result<(), Fail> {
        let mut list: FixedList<u8, 3> = FixedList::new(rt.alloc())?;
        list.extend_from_slice(&[5, 6, 7])?;
        list.set(1, 9)?;
        assert_eq!(rt; list.set(3, 9), Err(Outside));
        assert_eq!(rt; list.remove(0), Some(5));
        assert_eq!(rt; list.remove(2), None);
        assert_eq!(rt; list.get(0), Some(9));
        assert_eq!(rt; list.pop(), Some(7));
        assert_eq!(rt; list.last(), Some(9));
        list.truncate(0);
        assert_eq!(rt; list.pop(), None);
        list.push(1)?;
        list.clear();
        list.extend_from_slice(&[1, 2, 3])?;
        assert!(rt; list.is_full());
        Ok(())
    }

    #[test]
    fn holds_nothing_without_room(rt: HostRuntime) -> Result<(), Fail> {
        let mut list: FixedList<u8, 0> = FixedList::new(rt.alloc())?;
        assert!(rt; list.is_empty() && list.is_full());
        assert_eq!(rt; list.push(1), Err(Full));
        assert_eq!(rt; list.extend_from_slice(&[]), Ok(()));
        assert_eq!(rt; list.len(), 0);
        Ok(())
    }

    const LONG: usize = 1025;

    // How long a text of n bytes is, if it is taken.
    fn taken(n: usize) -> Option<usize> {
        if n > LONG {
            return None;
        }
        let text = BoundedText::from_bytes(&[7; LONG][0..n])?;
        Some(text.len())
    }

    #[test]
    fn takes_texts_up_to_the_bound(rt: HostRuntime) {
        assert_eq!(rt; taken(0), Some(0));
        assert_eq!(rt; taken(1023), Some(1023));
        assert_eq!(rt; taken(1024), Some(1024));
        assert_eq!(rt; taken(1025), None);
    }

    #[test]
    fn appends_all_or_nothing(rt: HostRuntime) {
        let bytes = [7u8; MOST];
        let mut text = BoundedText::new();
        assert!(rt; text.is_empty());
        assert_eq!(rt; text.append(&bytes[0..1023]), Ok(()));
        let before = text;
        assert_eq!(rt; text.append(b"ab"), Err(Full));
        assert!(rt; text == before);
        assert_eq!(rt; text.append(b"a"), Ok(()));
        assert!(rt; text != before);
        assert_eq!(rt; text.len(), MOST);
        assert_eq!(rt; text.append(b"a"), Err(Full));
    }

    #[test]
    fn reads_what_is_there_of_a_slice(rt: HostRuntime) {
        let bytes = b"statuses";
        assert_eq!(rt; Slice { start: 2, len: 4 }.of(bytes), b"atus".as_slice());
        assert_eq!(rt; Slice { start: 6, len: 4 }.of(bytes), b"es".as_slice());
        assert_eq!(rt; Slice { start: 9, len: 4 }.of(bytes), b"".as_slice());
    }
}
