//! The operands of a job: its files, each read to its end, or to its first fault, before the next.

ghost use Rattle.std.specs.Prelude.{◌≡◌, IfOk, IfErr, OnOk, map};
ghost use Rattle.m4_cmd.specs.Steps.{AreReadAs, IsReadAs, OperandFails, OperandsFail, operand_status};

use crate::files::read_started;
use m4_dense::Mzed;
use m4_io::{Failed, Shelf};
use m4_model::Form;
use m4_outcome::Status;
use std::alloc::{AllocFailed, Global};

/// Why the operands can't be had.
#[derive(Clone, Copy, Debug, PartialEq, Eq)]
pub(crate) enum OperandFault {
    /// A file could not be read.
    Read,
    /// The text of this operand, counted from 1, is refused at this byte, counted from 0: it goes wrong there, or tells no field.
    Bad { operand: u64, at: u64 },
    /// A text passes a limit.
    Limit,
    /// Memory was wanting.
    NoMemory,
}

impl OperandFault {
    /// The status of a run that ends so.
    pub(crate) fn status(self) -> Status
        ensures { result ≡ operand_status self }
    {
        match self {
            OperandFault::Read => Status::Read,
            OperandFault::Bad { operand, at } => Status::Text { operand, at },
            OperandFault::Limit => Status::Limit,
            OperandFault::NoMemory => Status::Memory,
        }
    }
}

impl<T: Drop> From<AllocFailed<T>> for OperandFault {
    ghost use Rattle.m4_cmd.specs.declared.operands.OperandFault.TheVariants.{NoMemory};

    ghost from_gives = { λ _ fault. fault ≡ NoMemory };

    fn from(_error: AllocFailed<T>) -> OperandFault {
        OperandFault::NoMemory
    }
}

/// Reads the files of these names in this form.
pub(crate) fn read_operands<S: Shelf>(
    alloc: Global,
    shelf: &mut S,
    form: Form,
    names: &[&str],
) -> Result<Vec<Mzed>, OperandFault>
    ensures stock { S.stock shelf.new ≡ S.stock shelf.old }
    ensures read { IfOk result (λ matrices. AreReadAs (S.stock shelf.old) form (map (λ name. name.now) names.now) matrices.items) }
    ensures kept { OnOk result (S.faults shelf.new ≡ S.faults shelf.old) }
    ensures fails { IfErr result (OperandsFail (S.stock shelf.old) form (map (λ name. name.now) names.now)
        (S.faults shelf.old) (S.faults shelf.new)) }
{
    let mut matrices = Vec::new(alloc);
    for index in 0..names.len() {
        let matrix = read_operand(alloc, shelf, form, names[index], index as u64 + 1)?;
        matrices.push(matrix)?;
    }
    Ok(matrices)
}

/// Reads a file to its end, or to its first fault, in this form as a matrix. The operand's number is counted from 1.
fn read_operand<S: Shelf>(
    alloc: Global,
    shelf: &mut S,
    form: Form,
    name: &str,
    number: u64,
) -> Result<Mzed, OperandFault>
    ensures stock { S.stock shelf.new ≡ S.stock shelf.old }
    ensures read { IfOk result (IsReadAs (S.stock shelf.old) form name.now) }
    ensures kept { OnOk result (S.faults shelf.new ≡ S.faults shelf.old) }
    ensures fails { IfErr result (OperandFails (S.stock shelf.old) form name.now number (S.faults shelf.old) (S.faults shelf.new)) }
{
    match shelf.start(name) {
        Ok(()) => match read_started(alloc, shelf, form) {
            Ok(matrix) => Ok(matrix),
            Err(fault) => Err(fault.of_operand(number)),
        },
        Err(Failed) => Err(OperandFault::Read),
    }
}
