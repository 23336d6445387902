ghost use Rattle.std.specs.Prelude.{◌≡◌};
ghost use Rattle.m4_etext.specs.declared.fault.TextFault.TheVariants.{NoMemory as no_memory};
ghost use Rattle.m4_etext.specs.declared.fault.WriteFault.TheVariants.{Failed as failed};

use m4_field::FieldFault;
use m4_io::Failed;
use m4_model::NoMemory;
use thiserror::Error;

/// Why a text is refused.
#[derive(Clone, Copy, Debug, PartialEq, Eq, Error)]
pub enum TextFault {
    /// The text goes wrong at this byte, counted from 0.
    #[error("bad text at byte {at}")]
    Bad { at: u64 },
    /// There is no such field. The degree or the polynomial, whichever is at fault, begins at this byte.
    #[error("no field at byte {at}")]
    Field { at: u64, fault: FieldFault },
    /// The numbers of its header pass a limit.
    #[error("limit passed")]
    Limit,
    /// Memory was wanting.
    #[error("out of memory")]
    NoMemory,
}

impl From<NoMemory> for TextFault {
    ghost from_gives = { λ _ fault. fault ≡ no_memory };

    fn from(_error: NoMemory) -> TextFault {
        TextFault::NoMemory
    }
}

/// Why a text was not written.
#[derive(Clone, Copy, Debug, PartialEq, Eq, Error)]
pub enum WriteFault {
    /// The sink failed.
    #[error("write failed")]
    Failed,
}

impl From<m4_text::WriteFault> for WriteFault {
    ghost from_gives = { λ _ fault. fault ≡ failed };

    fn from(_fault: m4_text::WriteFault) -> WriteFault {
        WriteFault::Failed
    }
}

impl From<Failed> for WriteFault {
    ghost from_gives = { λ _ fault. fault ≡ failed };

    fn from(_failed: Failed) -> WriteFault {
        WriteFault::Failed
    }
}
