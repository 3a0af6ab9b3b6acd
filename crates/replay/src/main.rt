// Runs stored bundles, one after another: reads a little-endian u32 length and that many bytes, writes what `run` answers, and goes on.
#![tactic(auto)]

use std::io::Read;

// Replays the next bundle; `None` at the end of the input, and after a bundle that is cut off or longer than the buffer.
fn replay_next(rt: &impl Print, input: &mut impl Read) -> Option<()> {
    let mut head = [0u8; 4];
    input.read_exact(&mut head).ok()?;
    let length = u32::from_le_bytes(head);
    // 56,860 bytes is the longest good file; one more is an excess that `run` is to see.
    let mut buffer = [0u8; 56861];
    let file = buffer.get_mut(..length as usize)?;
    input.read_exact(file).ok()?;
    // 32,768 bytes is the longest RAM, and 25 for each of 3,000 records and 113 the longest output.
    let mut ram = [0u8; 32768];
    let mut out = [0u8; 75113];
    let Ok(m) = run::run(file, &mut ram, &mut out) else {
        return None;
    };
    rt.write_all(&out[..m]).ok()
}

fn main(rt: HostRuntime) {
    let mut input = rt.reader();
    // Nothing says that the input ends: the count is one that no run uses up.
    for _ in 0..u64::MAX {
        if replay_next(&rt, &mut input).is_none() {
            break;
        }
    }
}
