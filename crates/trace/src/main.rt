// Reads a bundle on standard input, to its end or one byte past the longest good one, and writes its output.
#![tactic(auto)]

ghost use Rattle.std.specs.Prelude.{◌≤◌, length};

use std::io::Read;

// How many bytes were read: as many as the buffer has, or fewer where the input ends or a read fails.
fn fill(input: &mut impl Read, buffer: &mut [u8]) -> usize
    ensures { result ≤ length buffer.new }
{
    let mut n = 0;
    for _ in 0..buffer.len() {
        match input.read(&mut buffer[n..]) {
            Ok(0) | Err(_) => break,
            Ok(more) => n += more,
        }
    }
    n
}

fn main(rt: HostRuntime) {
    // 56,860 bytes is the longest good file, 32,768 the longest RAM, and 25 for each of 3,000 records and 113 the longest output.
    let mut file = [0u8; 56861];
    let mut ram = [0u8; 32768];
    let mut out = [0u8; 75113];
    let n = fill(&mut rt.reader(), &mut file);
    let Ok(m) = run::run(&file[..n], &mut ram, &mut out) else {
        return;
    };
    // A failed write is not reported.
    let _ = rt.write_all(&out[..m]);
}
