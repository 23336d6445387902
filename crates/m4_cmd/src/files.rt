//! A file, read to its end or to its first fault, and its bytes taken as the text of a matrix as they come.

ghost use Rattle.std.specs.Prelude.{◌≡◌, ℕ, [], List, IsTrue, OnOk, IfOk, IfErr, Some};
ghost use Rattle.m4_model.specs.FormTexts.{ReadsAs};
ghost use Rattle.m4_etext.specs.FormReading.{StandsForText};
ghost use Rattle.m4_cmd.specs.Files.{HasFed, FileFails, operand_fault};

use crate::operands::OperandFault;
use m4_dense::Mzed;
use m4_etext::{MOST_BYTES, Reader, TextFault};
use m4_io::{Failed, Shelf};
use m4_model::Form;
use std::alloc::Global;

/// How many bytes of a file are read in one piece, at most.
const PIECE: usize = 65536;

/// Why a started file isn't read as a matrix.
#[derive(Clone, Copy, Debug, PartialEq, Eq)]
pub(crate) enum FileFault {
    /// A read failed.
    Read,
    /// Its text is refused.
    Refused(TextFault),
}

impl FileFault {
    /// The fault of the operand of this number.
    pub(crate) fn of_operand(self, number: u64) -> OperandFault
        ensures { result ≡ operand_fault number self }
    {
        match self {
            FileFault::Read => OperandFault::Read,
            FileFault::Refused(TextFault::Bad { at }) => OperandFault::Bad {
                operand: number,
                at,
            },
            FileFault::Refused(TextFault::Field { at, .. }) => OperandFault::Bad {
                operand: number,
                at,
            },
            FileFault::Refused(TextFault::Limit) => OperandFault::Limit,
            FileFault::Refused(TextFault::NoMemory) => OperandFault::NoMemory,
        }
    }
}

impl From<Failed> for FileFault {
    ghost use Rattle.m4_cmd.specs.declared.files.FileFault.TheVariants.{Read};

    ghost from_gives = { λ _ fault. fault ≡ Read };

    fn from(_failed: Failed) -> FileFault {
        FileFault::Read
    }
}

impl From<TextFault> for FileFault {
    ghost use Rattle.m4_cmd.specs.declared.files.FileFault.TheVariants.{Refused};

    ghost from_gives = { λ refusal fault. fault ≡ Refused refusal };

    fn from(fault: TextFault) -> FileFault {
        FileFault::Refused(fault)
    }
}

/// Reads what is left of the started file, to its end or to its first fault, in this form as a matrix.
pub(crate) fn read_started<S: Shelf>(
    alloc: Global,
    shelf: &mut S,
    form: Form,
) -> Result<Mzed, FileFault>
    requires { IsTrue (S.started shelf.old) }
    ensures stock { S.stock shelf.new ≡ S.stock shelf.old }
    ensures read { IfOk result (λ m. (bytes : List ℕ) → S.rest shelf.old ≡ Some bytes → ReadsAs form bytes m) }
    ensures kept { OnOk result (S.faults shelf.new ≡ S.faults shelf.old) }
    ensures fails { IfErr result (FileFails (S.rest shelf.old) form (S.faults shelf.old) (S.faults shelf.new)) }
{
    let mut reader = Reader::new(alloc, form);
    feed_rest(shelf, &mut reader)?;
    Ok(reader.finish()?)
}

/// Feeds what is left of the started file to a reader that was fed nothing, to its end or to its first fault.
fn feed_rest<S: Shelf>(shelf: &mut S, reader: &mut Reader) -> Result<(), FileFault>
    requires started { IsTrue (S.started shelf.old) }
    requires fed_nothing { StandsForText reader.old [] }
    ensures stock { S.stock shelf.new ≡ S.stock shelf.old }
    ensures form { reader.new.form ≡ reader.old.form }
    ensures fed { OnOk result (HasFed (S.rest shelf.old) reader.new) }
    ensures kept { OnOk result (S.faults shelf.new ≡ S.faults shelf.old) }
    ensures fails { IfErr result (FileFails (S.rest shelf.old) reader.old.form (S.faults shelf.old) (S.faults shelf.new)) }
{
    let mut piece = [0; PIECE];
    let mut fed = 0;
    while fed <= MOST_BYTES {
        let count = shelf.read(&mut piece)?;
        if count == 0 {
            return Ok(());
        }
        reader.feed(&piece[..count])?;
        fed += count;
    }
    unreachable!()
}
