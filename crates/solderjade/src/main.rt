// The program: a verb and its words on the command line, and what it prints.
#![tactic(auto)]

ghost use Rattle.solderjade.specs.Shown.{answered};
ghost use Rattle.std.specs.Prelude.{◌≡◌, map, Some, IfOk, string_bytes};

mod bytes;
mod duration;
mod escape;
mod failure;
mod lines;
mod usage;

use failure::Failure;
use std::alloc::Global;
use std::env;
use std::io::Write;
use std::process::ExitCode;
use usage::USAGE;

// What a call prints, by its verb and the words behind it.
fn answer(heap: Global, words: &[String]) -> Result<Vec<u8>, Failure>
    ensures { IfOk result (λ v. answered USAGE.now (map string_bytes words.now) ≡ Some v.items) }
{
    let (verb, rest) = words.split_first().ok_or(Failure::Usage)?;
    match verb.as_str() {
        "bytes" => lines::print_all(heap, rest, bytes::line),
        "duration" => lines::print_all(heap, rest, duration::line),
        "escape" => lines::print_all(heap, rest, escape::line),
        "help" => usage::help(heap),
        _ => Err(Failure::Usage),
    }
}

fn run(rt: &HostRuntime) -> Result<(), Failure> {
    let heap = rt.alloc();
    let words: Vec<String> = env::args(rt)?.skip(1).collect(heap)?;
    let text = answer(heap, words.as_slice())?;
    rt.stdout().write_all(text.as_slice())?;
    Ok(())
}

fn main(rt: HostRuntime) -> ExitCode {
    match run(&rt) {
        Ok(()) => ExitCode::SUCCESS,
        Err(failure) => {
            // where even that cannot be written, nothing is left to do
            let _ = rt.eprintln(failure);
            ExitCode::FAILURE
        }
    }
}

#[cfg(test)]
mod tests;
