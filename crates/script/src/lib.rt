// Reads the test programs' scripts from standard input, so that a case is data and asks for no proof. A line has 80 bytes, the line end among
// them: a letter that says what to do, four columns for a hexadecimal number each, in which a blank counts as 0, and a comment. A column has
// nine bytes, after a capital letter eighteen: such a line is of a 64-bit board. What prints is there twice: under its own name it answers the
// first write that fails, and reads and prints no more; with `say_` before the name, as the test programs call it, it drops a failed write
// where that is made, and goes on (`show::say!`).
#![tactic(auto)]

use show::say;
use std::io;
use std::io::Read;

const LINE: usize = 80;

// What a line asks for: its letter, in lower case, whether it was a capital, and its numbers.
#[derive(Clone, Copy)]
pub struct Step {
    pub op: u8,
    pub wide: bool,
    pub a: u64,
    pub b: u64,
    pub c: u64,
    pub d: u64,
}

// What a character of a number stands for.
fn digit(b: u8) -> Option<u64> {
    match b {
        b' ' => Some(0),
        b'0'..=b'9' => Some(u64::from(b - b'0')),
        b'a'..=b'f' => Some(u64::from(b - b'a') + 10),
        _ => None,
    }
}

fn number(column: &[u8]) -> Option<u64> {
    column
        .iter()
        .try_fold(0, |n: u64, b| Some(n << 4 | digit(*b)?))
}

// The letter and the numbers, unless something in the columns is no number.
fn step_of(line: &[u8; LINE]) -> Option<Step> {
    let letter = line[0];
    let wide = letter.is_ascii_uppercase();
    let width = if wide { 18 } else { 9 };
    let mut columns = line[1..].chunks_exact(width);
    let a = number(columns.next()?)?;
    let b = number(columns.next()?)?;
    let c = number(columns.next()?)?;
    let d = number(columns.next()?)?;
    Some(Step {
        op: letter.to_ascii_lowercase(),
        wide,
        a,
        b,
        c,
        d,
    })
}

// What is printed for a line that asks for nothing that the program knows.
pub fn bad_line(rt: &impl Print) -> io::Result<()> {
    rt.println("bad line")
}

// What a line asks for, if that is for the program to do. A title is printed here without the blanks behind it; what is printed next goes on in
// the same line.
fn asked(rt: &impl Print, line: &[u8; LINE]) -> io::Result<Option<Step>> {
    match line[0] {
        b'#' => Ok(None),
        b't' => {
            let text = &line[2..LINE - 1];
            let end = text
                .iter()
                .rposition(|b| *b != b' ')
                .map_or(0, |last| last + 1);
            rt.write_all(&text[..end])?;
            Ok(None)
        }
        _ => {
            let step = step_of(line);
            if step.is_none() {
                bad_line(rt)?;
            }
            Ok(step)
        }
    }
}

// Hands the script's steps to `perform`, one after another, up to the first that fails.
pub fn run<R, F>(rt: &R, mut perform: F) -> io::Result<()>
where
    R: Input + Print,
    F: FnMut(Step) -> io::Result<()>,
    requires { F.IsAlwaysCallable perform }
{
    let mut input = rt.reader();
    let mut line = [b' '; LINE];
    // Nothing says that the input ends: the count is one that no run uses up.
    for _ in 0..u64::MAX {
        if input.read_exact(&mut line).is_err() {
            break;
        }
        let Some(step) = asked(rt, &line)? else {
            continue;
        };
        // A letter of 0 ends a script as the end of the input does.
        if step.op == 0 {
            break;
        }
        perform(step)?;
    }
    Ok(())
}

// The low half of a number, for what is 32 bits wide.
pub fn low(n: u64) -> u32 {
    (n % 0x1_0000_0000) as u32
}

// From here on a failed write is dropped where it is made.
pub fn say_bad_line(rt: &impl Print) {
    say!(rt; "bad line\n");
}

fn say_asked(rt: &impl Print, line: &[u8; LINE]) -> Option<Step> {
    match line[0] {
        b'#' => None,
        b't' => {
            let text = &line[2..LINE - 1];
            let end = text
                .iter()
                .rposition(|b| *b != b' ')
                .map_or(0, |last| last + 1);
            // As in `say!`, of bytes that need not be text.
            let _ = rt.write_all(&text[..end]);
            None
        }
        _ => {
            let step = step_of(line);
            if step.is_none() {
                say_bad_line(rt);
            }
            step
        }
    }
}

pub fn say_run<R, F>(rt: &R, mut perform: F)
where
    R: Input + Print,
    F: FnMut(Step),
    requires { F.IsAlwaysCallable perform }
{
    let mut input = rt.reader();
    let mut line = [b' '; LINE];
    // Nothing says that the input ends: the count is one that no run uses up.
    for _ in 0..u64::MAX {
        if input.read_exact(&mut line).is_err() {
            break;
        }
        let Some(step) = say_asked(rt, &line) else {
            continue;
        };
        // A letter of 0 ends a script as the end of the input does.
        if step.op == 0 {
            break;
        }
        perform(step);
    }
}
