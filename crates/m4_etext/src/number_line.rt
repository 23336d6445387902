//! Lines of numbers.

ghost use Rattle.std.specs.Prelude.{◌≤◌, length};
ghost use Rattle.m4_model.specs.NumberLines.{numbers_line, numbers_text};
ghost use Rattle.m4_io.specs.Outside.{WritesAll};
ghost use Rattle.m4_etext.specs.Pending.{Puts};

use crate::WriteFault;
use crate::pending::Pending;
use m4_io::{Failed, Sink};

/// Writes a line of a name of at most 64 bytes and these numbers in decimal, a space before each. It takes no memory.
pub fn write_numbers<O: Sink>(name: &str, numbers: &[u32], sink: &mut O) -> Result<(), WriteFault>
    requires { length name.now ≤ 64 }
    ensures { WritesAll (O.taken sink.old) (O.taken sink.new) (O.faults sink.old) (O.faults sink.new) result
        (numbers_line name.now numbers.now) }
{
    let mut pending = Pending::new();
    pending.put(name.as_bytes(), sink)?;
    put_numbers(numbers, &mut pending, sink)?;
    pending.put(b"\n", sink)?;
    pending.finish(sink)?;
    Ok(())
}

/// Puts the numbers, a space before each.
fn put_numbers<O: Sink>(numbers: &[u32], pending: &mut Pending, sink: &mut O) -> Result<(), Failed>
    ensures { Puts (O.taken sink.old) (O.taken sink.new) (O.faults sink.old) (O.faults sink.new)
        pending.old pending.new result (numbers_text numbers.now) }
{
    for number in numbers {
        pending.put_behind(b' ', *number, sink)?;
    }
    Ok(())
}
