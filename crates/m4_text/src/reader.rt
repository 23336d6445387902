ghost use Rattle.std.specs.Prelude.{◌≡◌, ◌⊎◌, ℕ, ◌<◌, ◌≤◌, List, [], ◌++◌, length, Some, None, Ok, Err, OnOk, IfOk, IfErr, IsErr};
ghost use Rattle.m4_model.specs.Text.{PastLimit};
ghost use Rattle.m4_model.specs.Texts.{ReadsAs, RefusalAs};
ghost use Rattle.m4_text.specs.Reader.{Collected, StandsFor, IsFaultOf, IsFaultOfAll};
ghost use Rattle.m4_text.specs.declared.fault.TextFault.{TextFault};

use crate::limits::MOST_BYTES;
use crate::{Form, TextFault, read_as};
use m4_mzd::Mzd;
use std::alloc::Global;
use std::marker::Model;

/// A reader that is fed a text in pieces.
///
/// However the bytes are cut into pieces, they are read as the same matrix, or refused with the same fault. After a
/// fault every later call answers that fault.
#[derive(Debug, Drop)]
pub struct Reader {
    form: Form,
    alloc: Global,
    bytes: Vec<u8>,
    fault: Option<TextFault>,
}

impl Model for Reader {
    ghost Value = { Collected };

    ghost view = { λ r. record { form = r.form; bytes = r.bytes.items; fault = r.fault } };
}

impl Reader {
    /// A reader that was fed nothing.
    pub fn new(alloc: Global, form: Form) -> Reader
        ensures form { result.form ≡ form }
        ensures none { result.fault ≡ None }
        ensures stands { StandsFor result [] }
    {
        Reader {
            form,
            alloc,
            bytes: Vec::new(alloc),
            fault: None,
        }
    }

    /// Feeds the next bytes of the text. Where they are taken no fault is told. Where more than 2^29 bytes were fed, a fault is.
    ///
    /// A fault other than `NoMemory` is that of every file that begins with the bytes fed so far.
    pub fn feed(&mut self, piece: &[u8]) -> Result<(), TextFault>
        ensures form { self.new.form ≡ self.old.form }
        ensures stands { (bytes : List ℕ) → StandsFor self.old bytes → StandsFor self.new (bytes ++ piece.now) }
        ensures ok { OnOk result ((bytes : List ℕ) → StandsFor self.new bytes → length bytes ≤ MOST_BYTES) }
        ensures quiet { OnOk result (self.new.fault ≡ None) }
        ensures long { (bytes : List ℕ) → StandsFor self.old bytes → MOST_BYTES < length (bytes ++ piece.now) → IsErr result }
        ensures err { IfErr result (λ fault. (bytes : List ℕ) → StandsFor self.new bytes
            → IsFaultOfAll self.old.form bytes fault) }
        ensures kept { IfErr result (λ fault. self.new.fault ≡ Some fault) }
        ensures told { (fault : TextFault) → self.old.fault ≡ Some fault → result ≡ Err fault }
    {
        if let Some(fault) = self.fault {
            return Err(fault);
        }
        match self.collect(piece) {
            Ok(()) => Ok(()),
            Err(fault) => {
                self.fault = Some(fault);
                Err(fault)
            }
        }
    }

    /// The matrix that the bytes fed are read as, or their fault.
    pub fn finish(self) -> Result<Mzd, TextFault>
        ensures ok { IfOk result (λ m. (bytes : List ℕ) → StandsFor self bytes → ReadsAs self.form bytes m) }
        ensures err { IfErr result (λ fault. (bytes : List ℕ) → StandsFor self bytes → IsFaultOf self.form bytes fault) }
        ensures limit { (bytes : List ℕ) → StandsFor self bytes → RefusalAs self.form bytes PastLimit
            → (result ≡ Err TextFault.Limit) ⊎ (result ≡ Err TextFault.NoMemory) }
        ensures told { (fault : TextFault) → self.fault ≡ Some fault → result ≡ Err fault }
    {
        match self.fault {
            Some(fault) => Err(fault),
            None => read_as(self.alloc, self.form, &self.bytes),
        }
    }

    /// Keeps the piece. More than 2^29 bytes are refused whatever follows them.
    fn collect(&mut self, piece: &[u8]) -> Result<(), TextFault>
        ensures same { self.new.form ≡ self.old.form }
        ensures fault { self.new.fault ≡ self.old.fault }
        ensures kept { OnOk result (self.new.bytes ≡ self.old.bytes ++ piece.now) }
        ensures few { OnOk result (length self.new.bytes ≤ MOST_BYTES) }
        ensures err { IfErr result (IsFaultOfAll self.old.form (self.old.bytes ++ piece.now)) }
    {
        if self.bytes.extend_from_slice(piece).is_err() {
            return Err(TextFault::NoMemory);
        }
        if self.bytes.len() <= MOST_BYTES {
            return Ok(());
        }
        match read_as(self.alloc, self.form, &self.bytes) {
            Ok(_) => unreachable!(),
            Err(fault) => Err(fault),
        }
    }
}
