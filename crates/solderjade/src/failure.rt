// Why a call did not end well, and what a person is told of it.
ghost use Rattle.std.specs.Prelude.{◌≡◌, Some};
ghost use Rattle.solderjade.specs.Told.{told};
ghost use Rattle.solderjade.specs.declared.failure.Failure.TheVariants as failure;

use super::usage::USAGE;
use std::alloc::{AllocError, AllocFailed};
use std::{fmt, io};

#[derive(Debug, Drop)]
pub enum Failure {
    // The words are no call of the program.
    Usage,
    Memory,
    // Reading or writing failed.
    Io,
}

impl From<AllocError> for Failure {
    ghost from_gives = { λ _ r. r ≡ failure.Memory };

    fn from(_e: AllocError) -> Failure {
        Failure::Memory
    }
}

impl<T: Drop> From<AllocFailed<T>> for Failure {
    ghost from_gives = { λ _ r. r ≡ failure.Memory };

    fn from(_e: AllocFailed<T>) -> Failure {
        Failure::Memory
    }
}

impl From<io::Error> for Failure {
    ghost from_gives = { λ _ r. r ≡ failure.Io };

    fn from(_e: io::Error) -> Failure {
        Failure::Io
    }
}

impl fmt::Display for Failure {
    ghost use Rattle.solderjade.specs.declared.usage.TheConstants.{USAGE};

    ghost output = { λ x. Some (told USAGE.now x) };

    fn fmt<W: fmt::Write>(&self, f: &mut fmt::Formatter<W>) -> fmt::Result {
        f.write_str(match self {
            Failure::Usage => USAGE,
            Failure::Memory => "solderjade: out of memory",
            Failure::Io => "solderjade: cannot read or write",
        })
    }
}
