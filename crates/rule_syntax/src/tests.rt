// Rules and texts that are none.
use crate::mention::mentions;
use crate::path::first_name;
use crate::read::parse;
use crate::rule::{Comparison, Operand, Operator, Refused, Span};
use fixed::list::FixedList;
use fixed::slice::Slice;
use std::test::Fail;

// Each with how many comparisons it has.
const RULES: [(&[u8], usize); 23] = [
    (b"a==1", 1),
    (b"a!=1", 1),
    (b"a<1", 1),
    (b"a<=1", 1),
    (b"a>1", 1),
    (b"a>=1", 1),
    (b"1<2", 1),
    (b"  a  ==  1  ", 1),
    (b" a==1&&b==2 ", 2),
    (b"a==1 && b==2 && c==3", 3),
    (b"a<b&&b<c&&c<d&&d<e", 4),
    (b"self.a.b==1&&oldSelf!=null", 2),
    (b"true==true", 1),
    (b"false != null", 1),
    (b"_a1._==x", 1),
    (b"A.Z<=z.a", 1),
    (b"trues==intro.t", 1),
    (b"-9223372036854775808 < 0", 1),
    (b"9223372036854775807 == 0", 1),
    (b"-0==0", 1),
    (b"007==7", 1),
    (b"00000000000000000000000000000001==1", 1),
    (b"1>-1", 1),
];

const TEXTS: [&[u8]; 49] = [
    b"",
    b"   ",
    b"a",
    b"==",
    b"a==",
    b"==1",
    b"a=1",
    b"a===1",
    b"a!1",
    b"a<>1",
    b"a=<1",
    b"a< =1",
    b"a<b<c",
    b"a==b==c",
    b"a b==1",
    b"a .b==1",
    b"a. b==1",
    b"a.==1",
    b".a==1",
    b"a..b==1",
    b".==1",
    b"a.1==1",
    b"a-b==1",
    b"a==1&&",
    b"&&a==1",
    b"a==1&b==2",
    b"a==1& &b==2",
    b"a==1&&&&b==2",
    b"a==1||b==2",
    b"true.x==1",
    b"self.in==1",
    b"in==1",
    b"null.null==1",
    b"-==1",
    b"--1==1",
    b"- 1==1",
    b"+1==1",
    b"1a==1",
    b"1.5==1",
    b"1 2==1",
    b"1-==1",
    b"9223372036854775808 == 0",
    b"-9223372036854775809 == 0",
    b"99999999999999999999999999999999999999999999 == 0",
    b"\ta==1",
    b"a==1\n",
    b"(a==1)",
    b"a==\"b\"",
    b"\xC3\xA4==1",
];

#[test]
fn rules_are_read(rt: HostRuntime) -> Result<(), Fail> {
    let mut table: FixedList<Comparison, 4> = FixedList::new(rt.alloc())?;
    for (text, count) in RULES {
        table.clear();
        let span = Span {
            start: 0,
            len: count,
        };
        assert_eq!(rt; parse(text, &mut table), Ok(span));
        assert_eq!(rt; table.len(), count);
    }
    Ok(())
}

#[test]
fn other_texts_are_refused(rt: HostRuntime) -> Result<(), Fail> {
    let mut table: FixedList<Comparison, 1> = FixedList::new(rt.alloc())?;
    for text in TEXTS {
        assert_eq!(rt; parse(text, &mut table), Err(Refused::Syntax));
        assert!(rt; table.is_empty());
    }
    Ok(())
}

#[test]
fn names_are_bounded(rt: HostRuntime) -> Result<(), Fail> {
    let mut table: FixedList<Comparison, 1> = FixedList::new(rt.alloc())?;
    let mut longest = [b'a'; 257];
    longest[255] = b'<';
    let mut longer = [b'a'; 258];
    longer[256] = b'<';
    assert_eq!(rt; parse(&longer, &mut table), Err(Refused::Syntax));
    assert_eq!(rt; parse(&longest, &mut table), Ok(Span { start: 0, len: 1 }));
    Ok(())
}

#[test]
fn operands_are_told(rt: HostRuntime) -> Result<(), Fail> {
    let text = b" self.a.b>= -9223372036854775808&&true!=null ";
    let mut table: FixedList<Comparison, 2> = FixedList::new(rt.alloc())?;
    assert_eq!(rt; parse(text, &mut table), Ok(Span { start: 0, len: 2 }));
    let least = Comparison {
        left: Operand::Path(Slice { start: 1, len: 8 }),
        operator: Operator::Ge,
        right: Operand::Int(i64::MIN),
    };
    let other = Comparison {
        left: Operand::Bool(true),
        operator: Operator::Ne,
        right: Operand::Null,
    };
    assert_eq!(rt; table.get(0), Some(least));
    assert_eq!(rt; table.get(1), Some(other));
    assert!(rt; mentions(text, table.as_slice(), b"self"));
    assert!(rt; !mentions(text, table.as_slice(), b"a"));
    assert!(rt; !mentions(text, table.as_slice(), b"true"));
    assert_eq!(rt;
        first_name(b"self.a.b"),
        Some((b"self".as_slice(), b"a.b".as_slice()))
    );
    assert_eq!(rt; first_name(b"b"), Some((b"b".as_slice(), b"".as_slice())));
    assert_eq!(rt; first_name(b""), None);
    Ok(())
}

#[test]
fn a_full_table_stays(rt: HostRuntime) -> Result<(), Fail> {
    let mut table: FixedList<Comparison, 2> = FixedList::new(rt.alloc())?;
    assert_eq!(rt; parse(b"a==1", &mut table), Ok(Span { start: 0, len: 1 }));
    assert_eq!(rt; parse(b"b==2&&c==3", &mut table), Err(Refused::Full));
    assert_eq!(rt; table.len(), 1);
    assert_eq!(rt; parse(b"b==2&&c==3&&", &mut table), Err(Refused::Syntax));
    assert_eq!(rt; table.len(), 1);
    assert_eq!(rt; parse(b"b==2", &mut table), Ok(Span { start: 1, len: 1 }));
    assert_eq!(rt; parse(b"c==3", &mut table), Err(Refused::Full));
    Ok(())
}
