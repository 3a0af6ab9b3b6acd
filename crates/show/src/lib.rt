// How the test programs print, and what std has no format for.
#![tactic(auto)]

use std::fmt;

// Prints a format. A failed write is dropped, and the script goes on: a later line may still be printed, and there is nobody to tell.
#[macro_export]
macro_rules! say {
    ($rt:expr; $($text:tt)+) => {{
        let _ = print!($rt; $($text)+);
    }};
}

// Eight hexadecimal digits, or sixteen where eight do not hold the number.
#[derive(Clone, Copy)]
pub struct Hex(pub u64);

impl fmt::Display for Hex {
    fn fmt<W: fmt::Write>(&self, f: &mut fmt::Formatter<W>) -> fmt::Result {
        let n = self.0;
        let width = if n < 0x1_0000_0000 { 8 } else { 16 };
        write!(f, "{n:0width$x}")
    }
}

// `yes` or `no`.
#[derive(Clone, Copy)]
pub struct YesNo(pub bool);

impl fmt::Display for YesNo {
    fn fmt<W: fmt::Write>(&self, f: &mut fmt::Formatter<W>) -> fmt::Result {
        f.write_str(if self.0 { "yes" } else { "no" })
    }
}
