//! A reader of a text in any form.

ghost use Rattle.std.specs.Prelude.{◌≡◌, ℕ, [], List, ◌++◌, Some, None, Err, OnOk, IfOk, IfErr};
ghost use Rattle.m4_model.specs.FormTexts.{ReadsAs};
ghost use Rattle.m4_etext.specs.FormReading.{StandsForText, MayGoOn, HasMatrixThere, told_by, over_bits};
ghost use Rattle.m4_etext.specs.FormFaults.{IsFaultIn, IsFaultOfAllIn};
ghost use Rattle.m4_etext.specs.declared.fault.TextFault.{TextFault};

use crate::TextFault;
use crate::bare::BareReader;
use crate::reader::HeadedReader;
use m4_model::Form;
use m4_mzed::Mzed;
use std::alloc::Global;
use std::marker::Model;

/// What is kept of the bytes.
#[derive(Drop)]
pub enum Part {
    /// Of headed text in either version, the matrix and the place in it.
    OfHeaded(HeadedReader),
    /// Of bare text, which is over GF(2) alone, the matrix so far and the place in it.
    OfBare(BareReader),
    /// Of JCF, which is over GF(2) alone, the bytes.
    OfJcf(m4_text::Reader),
}

/// A reader that is fed a text in pieces.
///
/// However the bytes are cut into pieces, they are read as the same matrix, or refused with the same fault. After a fault every
/// later call answers that fault. Of headed text no bytes are kept behind the header line: the memory of the matrix is taken when
/// that line is whole, and no more after it. Of bare text no bytes are kept: its matrix grows with its rows, to twice as many at
/// most. The bytes of JCF are kept up to the end. `Form::Hex` reads as `Form::Headed`.
#[derive(Drop)]
pub struct Reader {
    form: Form,
    part: Part,
}

impl Model for Reader {
    ghost use Rattle.m4_etext.specs.FormReading.{Fed, IsPartFor};

    ghost Value = { Fed };

    ghost view = { λ r. record { form = r.form; part = r.part } };

    ghost invariant = { λ r. IsPartFor r.form r.part };
}

impl Reader {
    /// A reader that was fed nothing. It takes no memory.
    #[tactic(auto, using(crate::proofs::FormReaders::is_untold))]
    pub fn new(alloc: Global, form: Form) -> Reader
        ensures form { result.form ≡ form }
        ensures quiet { told_by result.part ≡ None }
        ensures stands { StandsForText result [] }
    {
        match form {
            Form::Headed | Form::Hex => Reader {
                form,
                part: Part::OfHeaded(HeadedReader::new(alloc)),
            },
            Form::Bare => Reader {
                form,
                part: Part::OfBare(BareReader::new(alloc)),
            },
            Form::Jcf => Reader {
                form,
                part: Part::OfJcf(m4_text::Reader::new(alloc, form)),
            },
        }
    }

    /// Feeds the next bytes of the text.
    ///
    /// A fault other than `NoMemory` is that of every file that begins with the bytes fed so far.
    pub fn feed(&mut self, piece: &[u8]) -> Result<(), TextFault>
        ensures form { self.new.form ≡ self.old.form }
        ensures stands { (bytes : List ℕ) → StandsForText self.old bytes → StandsForText self.new (bytes ++ piece.now) }
        ensures err { IfErr result (λ fault. (bytes : List ℕ) → StandsForText self.old bytes → IsFaultOfAllIn self.old.form (bytes ++ piece.now) fault) }
        ensures quiet { OnOk result (told_by self.new.part ≡ None) }
        ensures ok { OnOk result ((bytes : List ℕ) → StandsForText self.new bytes → MayGoOn self.new bytes) }
        ensures kept { IfErr result (λ fault. told_by self.new.part ≡ Some fault) }
        ensures told { (fault : TextFault) → told_by self.old.part ≡ Some fault → result ≡ Err fault }
        ensures memory { HasMatrixThere self.old.part → result ≡ Err TextFault.NoMemory → ⊥ }
    {
        match &mut self.part {
            Part::OfHeaded(reader) => reader.feed(piece),
            Part::OfBare(reader) => reader.feed(piece),
            Part::OfJcf(reader) => match reader.feed(piece) {
                Ok(()) => Ok(()),
                Err(fault) => Err(over_bits(fault)),
            },
        }
    }

    /// The matrix that the bytes fed are read as, or their fault.
    pub fn finish(self) -> Result<Mzed, TextFault>
        ensures ok { IfOk result (λ m. (bytes : List ℕ) → StandsForText self bytes → ReadsAs self.form bytes m) }
        ensures err { IfErr result (λ fault. (bytes : List ℕ) → StandsForText self bytes → IsFaultIn self.form bytes fault) }
        ensures told { (fault : TextFault) → told_by self.part ≡ Some fault → result ≡ Err fault }
        ensures memory { HasMatrixThere self.part → result ≡ Err TextFault.NoMemory → ⊥ }
    {
        match self.part {
            Part::OfHeaded(reader) => reader.finish(),
            Part::OfBare(reader) => reader.finish(),
            Part::OfJcf(reader) => match reader.finish() {
                Ok(m) => Ok(Mzed::of_bits(m)),
                Err(fault) => Err(over_bits(fault)),
            },
        }
    }
}

/// The fault of a text over GF(2), among those over every field.
fn over_bits(fault: m4_text::TextFault) -> TextFault
    ensures { result ≡ over_bits fault }
{
    match fault {
        m4_text::TextFault::Bad { at } => TextFault::Bad { at },
        m4_text::TextFault::Limit => TextFault::Limit,
        m4_text::TextFault::NoMemory => TextFault::NoMemory,
    }
}
