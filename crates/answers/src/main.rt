// The text program: standard input is read to its end, and what the run prints is written to standard output.
#![tactic(auto)]

ghost use Rattle.std.specs.Prelude.{◌≤◌, ◌<◌, length, take, IfOk};
ghost use Rattle.std.specs.Io.KnownBytes.{Consumes, IsAtEnd};

use std::io;
use std::io::{Read, Write};
use text::MOST_BYTES;
use text_run::MOST_OUTPUT;

// Fills a buffer from a reader, up to the end of either.
fn read_full<R: Read + Drop>(from: &mut R, text: &mut [u8]) -> io::Result<usize>
    ensures within { IfOk result (λ n. n ≤ length text.old) }
    ensures bytes { IfOk result (λ n. Consumes (R.remaining from.old) (R.remaining from.new) (take n text.new)) }
    ensures all { IfOk result (λ n. n < length text.old → IsAtEnd (R.remaining from.new)) }
{
    let mut n = 0;
    while n < text.len() {
        let got = from.read(&mut text[n..])?;
        if got == 0 {
            break;
        }
        n += got;
    }
    Ok(n)
}

// One byte past the bound is read, which tells too many bytes; what stands behind it changes nothing.
fn main(rt: HostRuntime) -> io::Result<()> {
    let mut text = [0u8; MOST_BYTES + 1];
    let n = read_full(&mut rt.stdin(), &mut text)?;
    let mut out = [0u8; MOST_OUTPUT];
    let r = text_run::run(&text[..n], &mut out);
    io::writer(&rt).write_all(&out[..r])
}
