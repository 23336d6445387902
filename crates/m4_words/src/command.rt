//! Commands, and what stands in the places behind the word that names them.

ghost use Rattle.std.specs.Prelude.{◌≡◌};
ghost use Rattle.m4_outcome.specs.Words.{command_named, kinds_of, with_numbers};

use m4_outcome::{Command, Kind, Seeded};

/// The command that a word names, with zeros in the places of its numbers.
pub(crate) fn command_named(word: &str) -> Option<Command>
    ensures { result ≡ command_named word.now }
{
    match word {
        "mul" => Some(Command::Mul),
        "addmul" => Some(Command::Addmul { row: 0, col: 0 }),
        "add" => Some(Command::Add),
        "transpose" => Some(Command::Transpose),
        "stack" => Some(Command::Stack),
        "augment" => Some(Command::Augment),
        "sub" => Some(Command::Sub {
            row: 0,
            col: 0,
            row_end: 0,
            col_end: 0,
        }),
        "convert" => Some(Command::Convert),
        "rank" => Some(Command::Rank),
        "echelon" => Some(Command::Echelon),
        "inverse" => Some(Command::Inverse),
        "solve" => Some(Command::Solve),
        "kernel" => Some(Command::Kernel),
        "ple" => Some(Command::Ple),
        "pluq" => Some(Command::Pluq),
        "make" => Some(Command::Make(Seeded::NONE)),
        "trial" => Some(Command::Trial(Seeded::NONE)),
        _ => None,
    }
}

/// The places behind the word that names the command, in order.
pub(crate) fn kinds_of(command: Command) -> &'static [Kind]
    ensures { result.now ≡ kinds_of command }
{
    match command {
        Command::Mul | Command::Add | Command::Stack | Command::Augment | Command::Solve => {
            &[Kind::FileName, Kind::FileName]
        }
        Command::Addmul { .. } => &[
            Kind::FileName,
            Kind::Number,
            Kind::Number,
            Kind::FileName,
            Kind::FileName,
        ],
        Command::Sub { .. } => &[
            Kind::FileName,
            Kind::Number,
            Kind::Number,
            Kind::Number,
            Kind::Number,
        ],
        Command::Transpose
        | Command::Convert
        | Command::Rank
        | Command::Echelon
        | Command::Inverse
        | Command::Kernel
        | Command::Ple
        | Command::Pluq => &[Kind::FileName],
        Command::Make(_) | Command::Trial(_) => {
            &[Kind::FieldName, Kind::Number, Kind::Number, Kind::Seed]
        }
    }
}

/// The command with these numbers in its places, if they are as many, and with this seed; else the command as it is.
pub(crate) fn with_numbers(command: Command, numbers: &[u32], seed: u64) -> Command
    ensures { result ≡ with_numbers command numbers.now seed }
{
    match (command, numbers) {
        (Command::Addmul { .. }, [row, col]) => Command::Addmul {
            row: *row,
            col: *col,
        },
        (Command::Sub { .. }, [row, col, row_end, col_end]) => Command::Sub {
            row: *row,
            col: *col,
            row_end: *row_end,
            col_end: *col_end,
        },
        (Command::Make(_), [degree, poly, rows, cols]) => {
            Command::Make(seeded(*degree, *poly, *rows, *cols, seed))
        }
        (Command::Trial(_), [degree, poly, rows, cols]) => {
            Command::Trial(seeded(*degree, *poly, *rows, *cols, seed))
        }
        _ => command,
    }
}

/// The generated matrix of these numbers and this seed.
fn seeded(degree: u32, poly: u32, rows: u32, cols: u32, seed: u64) -> Seeded
    ensures { result ≡ record { degree = degree; poly = poly; rows = rows; cols = cols; seed = seed } }
{
    Seeded {
        degree,
        poly,
        rows,
        cols,
        seed,
    }
}
