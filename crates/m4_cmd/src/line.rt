//! Short texts of a line or two, put together on the stack.

ghost use Rattle.std.specs.Prelude.{◌≡◌, ◌+◌, ◌≤◌, ◌++◌, length, decimal};
ghost use Rattle.m4_outcome.specs.RankLines.{rank_line, trial_text};

use arrayvec::ArrayString;

/// Room for the longest text of them, which has two numbers of twenty digits.
const LINE_ROOM: usize = 96;

/// A line, on the stack.
pub(crate) type Line = ArrayString<LINE_ROOM>;

/// A line of this text.
pub(crate) fn plain_line(text: &str) -> Line
    requires { length text.now ≤ 96 }
    ensures { result.bytes ≡ text.now }
{
    let mut line = Line::new();
    push(&mut line, text);
    line
}

/// The line of a rank.
pub(crate) fn rank_line(rank: u64) -> Line
    ensures line { result.bytes ≡ rank_line rank }
    ensures room { length result.bytes ≤ 26 }
{
    let mut line = plain_line("rank ");
    push_number(&mut line, rank);
    push(&mut line, "\n");
    line
}

/// The lines of a trial: the rank, and how many entries of the reduced form aren't zero.
pub(crate) fn trial_lines(rank: u64, nonzeros: u64) -> Line
    ensures { result.bytes ≡ trial_text rank nonzeros }
{
    let mut lines = rank_line(rank);
    push(&mut lines, "nonzeros ");
    push_number(&mut lines, nonzeros);
    push(&mut lines, "\n");
    lines
}

/// Adds a text at the end.
pub(crate) fn push(line: &mut Line, text: &str)
    requires { length line.old.bytes + length text.now ≤ 96 }
    ensures { line.new.bytes ≡ line.old.bytes ++ text.now }
{
    line.push_str(text);
}

/// Adds a number in digits at the end.
pub(crate) fn push_number(line: &mut Line, number: u64)
    requires { length line.old.bytes ≤ 76 }
    ensures digits { line.new.bytes ≡ line.old.bytes ++ decimal number }
    ensures room { length line.new.bytes ≤ length line.old.bytes + 20 }
{
    push(line, itoa::Buffer::new().format(number));
}
