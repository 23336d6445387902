//! The text of an answer, as it is written.

ghost use Rattle.std.specs.Prelude.{◌≡◌, IfErr, OnOk, codes};
ghost use Rattle.m4_outcome.specs.Outcome.{OneMatrix};
ghost use Rattle.m4_cmd.specs.Answer.{answer_told};
ghost use Rattle.m4_cmd.specs.Steps.{OutputFails, Wrote, output_status};

use crate::answer::Answer;
use crate::factors_text::{write_ple, write_pluq};
use crate::line::{plain_line, rank_line, trial_lines};
use m4_dense::Mzed;
use m4_etext::{WriteFault, can_write, write_text};
use m4_io::{Failed, Sink, write_whole};
use m4_model::Form;
use m4_outcome::Status;

/// Why the text of an answer isn't written, or not whole.
#[derive(Clone, Copy, Debug, PartialEq, Eq)]
pub(crate) enum OutputFault {
    /// The form can't hold the answer.
    Shape,
    /// A write failed.
    Write,
}

impl OutputFault {
    /// The status of a run that ends so.
    pub(crate) fn status(self) -> Status
        ensures { result ≡ output_status self }
    {
        match self {
            OutputFault::Shape => Status::Shape,
            OutputFault::Write => Status::Write,
        }
    }
}

impl From<Failed> for OutputFault {
    ghost use Rattle.m4_cmd.specs.declared.output.OutputFault.TheVariants.{Write};

    ghost from_gives = { λ _ fault. fault ≡ Write };

    fn from(_error: Failed) -> OutputFault {
        OutputFault::Write
    }
}

impl From<WriteFault> for OutputFault {
    ghost use Rattle.m4_cmd.specs.declared.output.OutputFault.TheVariants.{Write as Cut};

    ghost from_gives = { λ _ fault. fault ≡ Cut };

    fn from(_error: WriteFault) -> OutputFault {
        OutputFault::Write
    }
}

/// Writes the text of an answer. One matrix is written in this form, where the form can hold it.
pub(crate) fn write_answer<O: Sink>(
    answer: Answer,
    form: Form,
    out: &mut O,
) -> Result<(), OutputFault>
    ensures wrote { OnOk result (Wrote form (answer_told answer) (record {
      before = O.faults out.old;
      now = O.faults out.new;
      taken_before = O.taken out.old;
      taken_now = O.taken out.new;
    })) }
    ensures fails { IfErr result (OutputFails form (answer_told answer) (record {
      before = O.faults out.old;
      now = O.faults out.new;
      taken_before = O.taken out.old;
      taken_now = O.taken out.new;
    })) }
{
    match answer {
        Answer::Matrix(matrix) => return write_matrix(matrix, form, out),
        Answer::Rank(rank) => write_whole(out, rank_line(u64::from(rank)).as_bytes())?,
        Answer::Trial { rank, nonzeros } => {
            write_whole(out, trial_lines(u64::from(rank), nonzeros).as_bytes())?
        }
        Answer::Ple(factors) => write_ple(factors, out)?,
        Answer::Pluq(factors) => write_pluq(factors, out)?,
        Answer::Singular => write_whole(out, plain_line("singular\n").as_bytes())?,
        Answer::NoSolution => write_whole(out, plain_line("no solution\n").as_bytes())?,
    }
    Ok(())
}

/// Writes the text of one matrix in this form, where the form can hold it.
fn write_matrix<O: Sink>(matrix: Mzed, form: Form, out: &mut O) -> Result<(), OutputFault>
    ensures wrote { OnOk result (Wrote form (OneMatrix matrix) (record {
      before = O.faults out.old;
      now = O.faults out.new;
      taken_before = O.taken out.old;
      taken_now = O.taken out.new;
    })) }
    ensures fails { IfErr result (OutputFails form (OneMatrix matrix) (record {
      before = O.faults out.old;
      now = O.faults out.new;
      taken_before = O.taken out.old;
      taken_now = O.taken out.new;
    })) }
{
    if !can_write(&matrix, form) {
        return Err(OutputFault::Shape);
    }
    write_text(&matrix, form, out)?;
    Ok(())
}
