ghost use Rattle.std.specs.Prelude.{◌≡◌};
ghost use Rattle.m4_outcome.specs.Outcome.{fault_line};

use crate::line::{Line, plain_line, push, push_number};
use m4_outcome::Status;

/// What is said on standard error of a status: a line, or nothing for an answer.
pub(crate) fn line_of(status: &Status) -> Line
    ensures { result.bytes ≡ fault_line status.now }
{
    match status {
        Status::Done | Status::No => Line::new(),
        Status::Words(word) => words_line(*word),
        Status::Text { operand, at } => text_line(*operand, *at),
        Status::Shape => plain_line("m4lin: shapes do not fit\n"),
        Status::Limit => plain_line("m4lin: limit passed\n"),
        Status::Read => plain_line("m4lin: read failed\n"),
        Status::Write => plain_line("m4lin: write failed\n"),
        Status::Memory => plain_line("m4lin: out of memory\n"),
    }
}

fn words_line(word: u64) -> Line
    ensures { result.bytes ≡ fault_line (Status.Words word) }
{
    let mut line = plain_line("m4lin: word ");
    push_number(&mut line, word);
    push(&mut line, " is not understood\n");
    line
}

fn text_line(operand: u64, at: u64) -> Line
    ensures { result.bytes ≡ fault_line (Status.Text operand at) }
{
    let mut line = plain_line("m4lin: operand ");
    push_number(&mut line, operand);
    push(&mut line, ": bad text at byte ");
    push_number(&mut line, at);
    push(&mut line, "\n");
    line
}
