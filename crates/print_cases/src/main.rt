// The functions that print and answer a failed write, as a script asks for them: each on an output of which one write fails, the first, the second
// and so on. What got through is printed, and `all` or `failed`, as the answer was. Writes after the one that fails would get through too, so
// that a failure that is dropped, or a write after it, shows. The first lines of stdin say what its letters stand for. What it must print was
// worked out by hand from the documents and the test programs' lines, and stands in stdout.
#![tactic(auto)]

use scheme::{PagingScheme, Refusal};
use script::Step;
use state::Mmu;
use std::alloc::Allocator;
use std::cell::Cell;
use std::fmt::Display;
use std::io;
use std::io::{ErrorKind, Lines};
use walk::PageFault;

// An output of which one write fails, and how many writes it was asked for.
#[derive(Drop)]
struct Faulty<'a, R> {
    rt: &'a R,
    fails: u32,
    asked: Cell<u32>,
}

impl<'a, R> Faulty<'a, R> {
    fn new(rt: &'a R, fails: u32) -> Faulty<'a, R> {
        let asked = Cell::new(0);
        Faulty { rt, fails, asked }
    }

    fn take(&self) -> io::Result<()> {
        let number = self.asked.get();
        self.asked.set(number.wrapping_add(1));
        if number == self.fails {
            return Err(io::Error::from(ErrorKind::BrokenPipe));
        }
        Ok(())
    }
}

// Input is what it was.
impl<R: Input> Input for Faulty<'_, R> {
    type Reader = R::Reader;

    fn read_line<A: Allocator + Clone>(&self, buf: &mut String<A>) -> io::Result<usize> {
        self.rt.read_line(buf)
    }

    fn lines<A: Allocator>(&self, alloc: A) -> Lines<R::Reader, A> {
        self.rt.lines(alloc)
    }

    fn reader(&self) -> R::Reader {
        self.rt.reader()
    }
}

impl<R: Print> Print for Faulty<'_, R> {
    fn print<D: Display + Drop>(&self, value: D) -> io::Result<()> {
        self.take()?;
        self.rt.print(value)
    }

    fn println<D: Display + Drop>(&self, value: D) -> io::Result<()> {
        self.take()?;
        self.rt.println(value)
    }

    fn write_all(&self, bytes: &[u8]) -> io::Result<()> {
        self.take()?;
        self.rt.write_all(bytes)
    }
}

// The leaf of a page of 4 MiB for U, and after it a word that is not valid.
fn page_at_0(ram: &mut [u8]) {
    tell::put(ram, 0, 0x53, false);
    tell::put(ram, 4, 0x100, false);
}

fn of_walks(rt: &impl Print, s: Step) -> io::Result<()> {
    let mut ram = [0u8; 4096];
    page_at_0(&mut ram);
    let q = tell::asked(s.b, s.c, s.d);
    let fault = PageFault {
        cause: 13,
        vaddr: 0x5678,
    };
    match s.op {
        b'o' => tell::who(rt, q, s.b),
        b'f' => tell::fault(rt, q, fault),
        b'r' => tell::refused(rt, Refusal::BadMode),
        b'g' => tell::said(rt, Ok(())),
        b's' => tell::said(rt, Err(Refusal::BadMode)),
        b'l' => tell::word(rt, &ram, s.b, s.wide),
        b'w' => tell::walked(rt, &mut ram, PagingScheme::sv32(), 0, q, 0, s.wide),
        b'u' => tell::walked(rt, &mut ram, tell::scheme_of(31, 0, 0), 0, q, 0, s.wide),
        _ => script::bad_line(rt),
    }
}

// An MMU that translates, of one slot too many where it is to be unfit.
fn started(fit: bool) -> Mmu {
    let mut m = mmu::new(mmu_tell::config(4, 4, 0)).mmu;
    m.satp.raw = 0x8000_0000;
    m.enabled = true;
    if !fit {
        m.tlb.count = 5;
    }
    m
}

// A state that is handed on has its tallies printed.
fn of_mmu(rt: &impl Print, s: Step) -> io::Result<()> {
    let mut ram = [0u8; 4096];
    page_at_0(&mut ram);
    let q = tell::asked(s.b, s.c, s.d);
    let m = started(s.op != b'x');
    match s.op {
        b'n' => {
            let made = mmu::new(mmu_tell::config(s.b, s.c, s.d));
            mmu_tell::tallies(rt, &mmu_tell::kept(rt, made)?)
        }
        b'a' | b'x' => mmu_tell::tallies(rt, &mmu_tell::access(rt, m, &mut ram, q)?),
        b'd' => mmu_tell::answered(rt, q, mmu::translate(m, q, &mut ram).said),
        b'i' => {
            let page = tell::asked(0x1234, 1, 0);
            mmu_tell::slot(rt, &mmu::translate(m, page, &mut ram).mmu, s.b)
        }
        _ => mmu_tell::tallies(rt, &m),
    }
}

// What a call answered.
fn ended(rt: &impl Print, answer: io::Result<()>) -> io::Result<()> {
    match answer {
        Ok(()) => println!(rt; " all"),
        Err(_) => println!(rt; " failed"),
    }
}

// Does what a line asks for on an output of which this write fails.
fn perform(rt: &impl Print, s: Step) -> io::Result<()> {
    let end = Faulty::new(rt, script::low(s.a));
    print!(rt; " {}:", s.a)?;
    let answer = match s.op {
        b'n' | b'a' | b'x' | b'd' | b'i' | b'c' => of_mmu(&end, s),
        _ => of_walks(&end, s),
    };
    ended(rt, answer)
}

// A script whose steps only tell who asks, on an output of which this write fails.
fn cut_off(rt: &(impl Input + Print), fails: u32) -> io::Result<()> {
    let end = Faulty::new(rt, fails);
    let answer = script::run(&end, |s| tell::who(&end, tell::asked(s.a, s.b, s.c), s.a));
    ended(rt, answer)
}

fn main(rt: HostRuntime) {
    for fails in 0..4 {
        let _ = cut_off(&rt, fails);
    }
    let answer = script::run(&rt, |s| perform(&rt, s));
    let _ = ended(&rt, answer);
}
