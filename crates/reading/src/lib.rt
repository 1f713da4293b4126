// Reading into a memory of a fixed length.

#![tactic(auto)]

ghost use Rattle.std.specs.Prelude.{◌≡◌, ◌<◌, ◌≤◌, IfOk, length, take};
ghost use Rattle.std.specs.Io.KnownBytes.{Consumes, IsAtEnd};

use std::io::{Read, Result};

// Reads until the memory is full or the reader ends, and says how many bytes stand at its front then. It asks for nothing where the
// memory is full.
pub fn read_full<R: Read>(reader: &mut R, memory: &mut [u8]) -> Result<usize>
    ensures bound { IfOk result (λ n. n ≤ length memory.new) }
    ensures bytes { IfOk result (λ n. Consumes (R.remaining reader.old) (R.remaining reader.new) (take n memory.new)) }
    ensures end { IfOk result (λ n. n < length memory.new → IsAtEnd (R.remaining reader.new)) }
{
    let mut done = 0;
    // a loop over a place: each read says how far it comes
    while done < memory.len() {
        let n = reader.read(&mut memory[done..])?;
        if n == 0 {
            break;
        }
        done += n;
    }
    Ok(done)
}
