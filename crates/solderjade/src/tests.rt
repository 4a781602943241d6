use super::answer;
use super::failure::Failure;
use std::alloc::Global;
use std::test::Fail;

// What a call prints.
fn printed(heap: Global, words: &[&str]) -> Result<Vec<u8>, Failure> {
    let mut call = Vec::new(heap);
    for word in words {
        call.push(String::from_str(heap, word)?)?;
    }
    answer(heap, call.as_slice())
}

#[test]
fn conversions(rt: HostRuntime) -> Result<(), Fail> {
    let heap = rt.alloc();
    let durations = printed(heap, &["duration", "1.5h", "-0", "-1.9ns", "5"])?;
    assert_eq!(rt;
        durations.as_slice(),
        b"5400000000000\n0\n-1\ntext\n".as_slice()
    );
    let bytes = printed(heap, &["bytes", "Zm9v", "", "/w==", "Zh=="])?;
    assert_eq!(rt; bytes.as_slice(), b"666f6f\n\nff\ntext\n".as_slice());
    Ok(())
}

#[test]
fn no_calls(rt: HostRuntime) -> Result<(), Fail> {
    let heap = rt.alloc();
    assert!(rt; printed(heap, &[]).is_err());
    assert!(rt; printed(heap, &["unknown", "a"]).is_err());
    assert_eq!(rt; printed(heap, &["escape"])?.len(), 0);
    Ok(())
}
