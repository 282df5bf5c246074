// Prints the listing of the box on standard input.
#![tactic(auto)]

ghost use Rattle.std.specs.Prelude.{◌≤◌, length, IfOk};

use listing::{LONGEST, list_box};
use std::io;
use std::io::Read;

// Fills the buffer from the start as far as the input goes, and answers how far. By hand, since a list that grows as it reads could
// run out of memory, and its first reads would cut a long packet.
fn fill<R: Read>(input: &mut R, buffer: &mut [u8]) -> io::Result<usize>
    ensures { IfOk result (λ n. n ≤ length buffer.new) }
{
    let mut n = 0;
    while n < buffer.len() {
        let more = input.read(&mut buffer[n..])?;
        if more == 0 {
            break;
        }
        n += more;
    }
    Ok(n)
}

fn main(rt: HostRuntime) -> io::Result<()> {
    // No box is as long as the longest listing, so what comes after that is not read.
    let mut input = [0u8; LONGEST];
    let n = fill(&mut rt.stdin(), &mut input)?;
    // A buffer to lend: the listing goes to its start, and the call answers how long it is.
    let mut lines = [0u8; LONGEST];
    if let Ok(length) = list_box(&input[0..n], &mut lines) {
        rt.write_all(&lines[0..length])?;
    }
    Ok(())
}
