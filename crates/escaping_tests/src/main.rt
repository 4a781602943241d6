// Reads names, a line each, and prints of each its escape, the escape's length, and how it compares with the escape on the line before.
#![tactic(auto)]

use anyhow::Context;
use escaping::{compare_escaped, escape_field_name, escaped_len};
use std::alloc::Global;
use std::cmp::Ordering;

fn escaped(heap: Global, name: &str) -> anyhow::Result<String> {
    let len = escaped_len(name.as_bytes()).context("a name is too long")?;
    let mut text = vec![in heap; 0u8; len]?;
    escape_field_name(name.as_bytes(), &mut text)
        .ok()
        .context("a buffer of the escape's length is too short")?;
    String::from_utf8(text)
        .ok()
        .context("an escape is not text")
}

fn sign(order: Ordering) -> &'static str {
    match order {
        Ordering::Less => "<",
        Ordering::Equal => "=",
        Ordering::Greater => ">",
    }
}

fn run(rt: &HostRuntime) -> anyhow::Result<()> {
    let heap = rt.alloc();
    let mut before = String::new(heap);
    for line in rt.lines(heap) {
        let name = line?;
        let text = escaped(heap, name.as_str())?;
        let len = text.len();
        let order = sign(compare_escaped(before.as_bytes(), name.as_bytes()));
        println!(rt; "{order} {len} {text}")?;
        before = name;
    }
    Ok(())
}

fn main(rt: HostRuntime) -> anyhow::Result<()> {
    run(&rt)
}
