//! The words of a command line, read from left to right.

ghost use Rattle.std.specs.Prelude.{◌≡◌, ◌+◌, ◌^◌, ◌<◌, Ok, Err, IfOk, IfErr};
ghost use Rattle.m4_outcome.specs.Seeds.{HasField};
ghost use Rattle.m4_outcome.specs.Words.{job, understand, begun};
ghost use Rattle.m4_words.specs.Job.{job_told};
ghost use Rattle.m4_words.specs.Texts.{texts};
ghost use Rattle.m4_words.specs.Told.{understood, IsSound};

use crate::command::{command_named, with_numbers};
use crate::job::Job;
use crate::told::Told;
use m4_outcome::Command;

/// The word of this number, counted from 1, is refused. It is one past the last word where a word is missing.
#[derive(Clone, Copy, Debug, PartialEq, Eq)]
pub struct WordFault {
    pub word: u64,
}

/// The job that the words after the program's name ask for. It takes no memory.
///
/// The first word names the command. Every later word that begins with `--` is an option, wherever it stands; the others
/// are the operands. The words are read from left to right, and the first that is refused is the fault: a word that is
/// no command, an option that isn't known or was given before, a word that is no number, seed or field in the place of one, or
/// an operand too many. Where an operand is missing, the fault is one past the last word. A number is `0`, or a digit from 1
/// to 9 and at most eight more, and a seed is written alike, below 2^64. A field is `gf2`, or a degree from 2 to 16, a colon,
/// and an irreducible polynomial of this degree in hexadecimal.
pub fn job_of<'a>(words: &'a [String]) -> Result<Job<'a>, WordFault>
    ensures asked { IfOk result (λ asked. job (texts words.now) ≡ Ok (job_told asked)) }
    ensures field { IfOk result (λ asked. HasField asked.command) }
    ensures refused { IfErr result (λ fault. job (texts words.now) ≡ Err fault.word) }
{
    let [first, behind @ ..] = words else {
        return Err(WordFault { word: 1 });
    };
    let Some(command) = command_named(first.as_str()) else {
        return Err(WordFault { word: 1 });
    };
    let told = told_by(command, behind)?;
    Ok(Job {
        command: with_numbers(command, told.numbers.as_slice(), told.seed),
        files: told.files,
        choices: told.choices,
    })
}

/// What the words behind the first tell of this command.
fn told_by<'a>(command: Command, behind: &'a [String]) -> Result<Told<'a>, WordFault>
    ensures told { IfOk result (λ told. understand 2 (texts behind.now) (begun command) ≡ Ok (understood told)) }
    ensures sound { IfOk result IsSound }
    ensures refused { IfErr result (λ fault. understand 2 (texts behind.now) (begun command) ≡ Err fault.word) }
{
    let mut told = Told::begun(command);
    for (index, word) in behind.iter().enumerate() {
        let Some(()) = told.take(word.as_str()) else {
            return Err(fault_at(index));
        };
    }
    if !told.wanted.is_empty() {
        return Err(fault_at(behind.len()));
    }
    Ok(told)
}

/// That the word at this index behind the first is refused.
fn fault_at(index: usize) -> WordFault
    requires { index < 2 ^ 63 }
    ensures { result.word ≡ index + 2 }
{
    WordFault {
        word: index as u64 + 2,
    }
}
