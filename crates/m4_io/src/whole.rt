ghost use Rattle.std.specs.Prelude.{◌≡◌, ◌≤◌, ◌<◌, ◌+◌, ◌^◌, IsTrue, OnOk, IfOk, IfErr, IsErrOf, vec_len, Some};
ghost use Rattle.m4_io.specs.Outside.{Lacks, WritesAll};
ghost use Rattle.m4_io.specs.Reading.{read_fault_text, IsFileOrLong, PassesAsFile, IsRestOrLong, IsReadCause, IsRestCause};
ghost use Rattle.m4_io.specs.declared.whole.ReadFault.TheVariants.{Failed as failed_fault, NoMemory as memory_fault};

use crate::{Failed, Shelf, Sink};
use std::alloc::{AllocError, Global};
use std::error::Error;
use std::fmt;

/// Why a file was not read.
#[derive(Clone, Copy, Debug, PartialEq, Eq)]
pub enum ReadFault {
    /// The file could not be started or read.
    Failed,
    /// Memory was wanting.
    NoMemory,
}

impl fmt::Display for ReadFault {
    ghost output = { λ fault. Some (read_fault_text fault) };

    fn fmt<W: fmt::Write>(&self, f: &mut fmt::Formatter<W>) -> fmt::Result {
        match self {
            ReadFault::Failed => f.write_str("read failed"),
            ReadFault::NoMemory => f.write_str("out of memory"),
        }
    }
}

impl Error for ReadFault {}

impl From<Failed> for ReadFault {
    ghost from_gives = { λ _ fault. fault ≡ failed_fault };

    fn from(_failed: Failed) -> ReadFault {
        ReadFault::Failed
    }
}

impl From<AllocError> for ReadFault {
    ghost from_gives = { λ _ fault. fault ≡ memory_fault };

    fn from(_error: AllocError) -> ReadFault {
        ReadFault::NoMemory
    }
}

/// How many bytes of a file are read in one piece, at most.
pub const PIECE: usize = 16384;

/// Reads the file of this name to its end, or until more than `limit` bytes of it were read: where the file is longer than
/// the limit, so is what was read of it.
pub fn read_whole<S: Shelf>(
    alloc: Global,
    shelf: &mut S,
    name: &str,
    limit: u64,
) -> Result<Vec<u8>, ReadFault>
    requires { limit < 2 ^ 62 }
    ensures stock { S.stock shelf.new ≡ S.stock shelf.old }
    ensures bytes { IfOk result (λ bytes. IsFileOrLong (S.stock shelf.old) name.now limit bytes.items) }
    ensures passed { IfOk result (λ bytes. PassesAsFile (S.stock shelf.old) name.now limit bytes.items) }
    ensures bounded { IfOk result (λ bytes. vec_len bytes ≤ limit + PIECE) }
    ensures lacking { Lacks (S.stock shelf.old) name.now → IsErrOf result ReadFault.Failed }
    ensures later { S.faults shelf.old ≤ S.faults shelf.new }
    ensures kept { OnOk result (S.faults shelf.new ≡ S.faults shelf.old) }
    ensures grown { S.faults shelf.old < S.faults shelf.new → IsErrOf result ReadFault.Failed }
    ensures cause { IfErr result (IsReadCause (S.stock shelf.old) name.now (S.faults shelf.old)
        (S.faults shelf.new)) }
{
    match shelf.start(name) {
        Ok(()) => read_rest(alloc, shelf, limit),
        Err(Failed) => Err(ReadFault::Failed),
    }
}

// Reads the started file to its end, or until more than `limit` bytes of it were read.
fn read_rest<S: Shelf>(alloc: Global, shelf: &mut S, limit: u64) -> Result<Vec<u8>, ReadFault>
    requires started { IsTrue (S.started shelf.old) }
    requires few { limit < 2 ^ 62 }
    ensures stock { S.stock shelf.new ≡ S.stock shelf.old }
    ensures bytes { IfOk result (λ bytes. IsRestOrLong (S.rest shelf.old) limit bytes.items) }
    ensures bounded { IfOk result (λ bytes. vec_len bytes ≤ limit + PIECE) }
    ensures later { S.faults shelf.old ≤ S.faults shelf.new }
    ensures kept { OnOk result (S.faults shelf.new ≡ S.faults shelf.old) }
    ensures cause { IfErr result (IsRestCause (S.faults shelf.old) (S.faults shelf.new)) }
{
    let mut piece = [0; PIECE];
    let mut bytes = Vec::new(alloc);
    while bytes.len() as u64 <= limit {
        let count = shelf.read(&mut piece)?;
        if count == 0 {
            break;
        }
        bytes.extend_from_slice(&piece[..count])?;
    }
    Ok(bytes)
}

/// Writes all bytes, in as many writes as it takes, and ends at the first that fails.
pub fn write_whole<O: Sink>(sink: &mut O, bytes: &[u8]) -> Result<(), Failed>
    ensures { WritesAll (O.taken sink.old) (O.taken sink.new) (O.faults sink.old) (O.faults sink.new) result
        bytes.now }
{
    let mut rest = bytes;
    while !rest.is_empty() {
        let count = sink.write(rest)?;
        rest = &rest[count..];
    }
    Ok(())
}
