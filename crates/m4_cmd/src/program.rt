ghost use Rattle.std.specs.Prelude.{◌≡◌, ◌<◌, ◌⊎◌, ◌↔◌, ℕ, Some, Err};
ghost use Rattle.std.specs.Io.KnownBytes.{Keeps};
ghost use Rattle.m4_outcome.specs.Seeds.{HasField};
ghost use Rattle.m4_outcome.specs.Words.{job};
ghost use Rattle.m4_model.specs.Stock.{Stock};
ghost use Rattle.m4_io.specs.Outside.{Rose};
ghost use Rattle.m4_words.specs.Job.{job_told};
ghost use Rattle.m4_words.specs.Texts.{texts};
ghost use Rattle.m4_cmd.specs.Run.{IsAsked, IsAnswered, IsJudged, IsRefused, LacksOperand, Answers, AnswersInPart, Reports};
ghost use Rattle.m4_cmd.specs.Steps.{JobGives, WorkGives};

use crate::answer::answer_of;
use crate::fault_line::line_of;
use crate::gate::Gate;
use crate::how::how_of;
use crate::operands::read_operands;
use crate::output::write_answer;
use m4_io::{Shelf, Sink, write_whole};
use m4_outcome::Status;
use m4_words::{Job, job_of};
use std::alloc::Global;

/// Does what the words ask for: reads the operands, computes the answer, writes its text to `out`, and a line on
/// `err` where there is none.
///
/// The words are those after the program's name. Each file operand in order is read to its end, or to its first
/// fault, before the next. The first refusal is the answer, in this order: the words; each operand's reading, its
/// text, its field and its limits; the fields and the shapes; the limits of the answer; an answer that
/// its form can't hold; the writing. Where no answer is begun, nothing is written to `out`.
pub fn run<S: Shelf, O: Sink, R: Sink, G: Gate + Sync>(
    alloc: Global,
    words: &[String],
    shelf: &mut S,
    out: &mut O,
    err: &mut R,
    _gate: &G,
) -> Status
    // The status `Words` comes exactly where the words are refused, with the number of the refused word.
    ensures words { (word : ℕ) → (result ≡ Status.Words word) ↔ (job (texts words.now) ≡ Err word) }

    // Told files stay as they are.
    ensures stock { S.stock shelf.new ≡ S.stock shelf.old }

    // Where a read failed, the answer is `Read`. It comes only there, or where an operand isn't among the told files.
    ensures read_told { S.faults shelf.old < S.faults shelf.new → result ≡ Status.Read }
    ensures read { result ≡ Status.Read →
        Rose (S.faults shelf.old) (S.faults shelf.new) ⊎ LacksOperand (S.stock shelf.old) (texts words.now) }

    // Where a write failed, the answer is `Write`. It comes only there, and then a front of an answer's text was taken,
    // but not all of it.
    ensures write_told { O.faults out.old < O.faults out.new → result ≡ Status.Write }
    ensures write { result ≡ Status.Write → Rose (O.faults out.old) (O.faults out.new) }
    ensures write_front { (files : Stock) → result ≡ Status.Write → S.stock shelf.old ≡ Some files →
        AnswersInPart (texts words.now) files (O.taken out.old) (O.taken out.new) }

    // Whatever the answer is but `Read`, `Write` and `Memory`, it is the outcome that the definition gives over the told
    // files, and exactly its text was taken.
    ensures outcome { (files : Stock) → IsJudged result → S.stock shelf.old ≡ Some files →
        Answers (texts words.now) files result (O.taken out.old) (O.taken out.new) }

    // Where no answer was begun, nothing was written, whatever the files are.
    ensures nothing { IsRefused result → Keeps (O.taken out.old) (O.taken out.new) }

    // Where memory was wanting, the words are a job, and nothing failed.
    ensures memory { result ≡ Status.Memory → IsAsked (texts words.now) }
    ensures memory_read { result ≡ Status.Memory → S.faults shelf.new ≡ S.faults shelf.old }
    ensures memory_write { result ≡ Status.Memory → O.faults out.new ≡ O.faults out.old }

    // An answer leaves standard error alone; any other status puts its line there, or the part of it that is taken.
    ensures err_quiet { IsAnswered result → Keeps (R.taken err.old) (R.taken err.new) }
    ensures err_count { IsAnswered result → R.faults err.new ≡ R.faults err.old }
    ensures err_line { Reports (R.taken err.old) (R.taken err.new) (R.faults err.old) (R.faults err.new) result }
{
    let status = work(alloc, words, shelf, out);
    report(&status, err);
    status
}

/// The work that the words ask for, up to the report of its status.
fn work<S: Shelf, O: Sink>(alloc: Global, words: &[String], shelf: &mut S, out: &mut O) -> Status
    ensures stock { S.stock shelf.new ≡ S.stock shelf.old }
    ensures gives { WorkGives (S.stock shelf.old) (texts words.now) (record {
      read_before = S.faults shelf.old;
      read_now = S.faults shelf.new;
      out = record {
        before = O.faults out.old;
        now = O.faults out.new;
        taken_before = O.taken out.old;
        taken_now = O.taken out.new;
      };
    }) result }
{
    match job_of(words) {
        Ok(job) => perform(alloc, &job, shelf, out),
        Err(fault) => Status::Words(fault.word),
    }
}

/// Does a job: reads its operands, computes its answer, and writes it.
fn perform<S: Shelf, O: Sink>(alloc: Global, job: &Job, shelf: &mut S, out: &mut O) -> Status
    requires field { HasField job.now.command }
    ensures stock { S.stock shelf.new ≡ S.stock shelf.old }
    ensures gives { JobGives (S.stock shelf.old) (job_told job.now) (record {
      read_before = S.faults shelf.old;
      read_now = S.faults shelf.new;
      out = record {
        before = O.faults out.old;
        now = O.faults out.new;
        taken_before = O.taken out.old;
        taken_now = O.taken out.new;
      };
    }) result }
{
    let form = job.choices.form_of_files();
    let mut operands = match read_operands(alloc, shelf, form, job.files.as_slice()) {
        Ok(operands) => operands,
        Err(fault) => return fault.status(),
    };
    let how = how_of(&job.choices);
    let answer = match answer_of(alloc, job.command, how, &mut operands) {
        Ok(answer) => answer,
        Err(fault) => return fault.status(),
    };
    let status = answer.status();
    match write_answer(answer, job.choices.form_of_answer(), out) {
        Ok(()) => status,
        Err(fault) => fault.status(),
    }
}

/// Puts the line of a status on standard error, as far as it is taken. An answer has none.
fn report<R: Sink>(status: &Status, err: &mut R)
    ensures { Reports (R.taken err.old) (R.taken err.new) (R.faults err.old) (R.faults err.new) status.now }
{
    let line = line_of(status);
    let _ = write_whole(err, line.as_bytes());
}
