// Runs the accesses of a bundle, one after another: each changes the MMU and its RAM, and puts a line.
#![tactic(auto)]

ghost use Rattle.std.specs.Prelude.{◌≡◌, ◌+◌, ◌*◌, ◌≤◌, length};
ghost use Rattle.session.specs.Session.{step_mmu, step_ram, end_mmu, end_ram};
ghost use Rattle.writer.specs.Wrote.{HasRoom, Wrote};
ghost use Rattle.steps.specs.Steps.{events_from, step_line, lines_from, text_from};

use session::Event;
use state::Mmu;
use writer::Out;

// One record: its line is put.
#[tactic(auto, using(crate::proofs::Half::translated_short, writer::proofs::Wrotes::within))]
fn step(e: Event, m: Mmu, ram: &mut [u8], out: &mut Out<'_>) -> Mmu
    requires { HasRoom 25 out.old }
    ensures { (result ≡ step_mmu e m ram.old) × (ram.new ≡ step_ram e m ram.old)
        × Wrote 25 out.old out.new (step_line e m ram.old) }
{
    match e {
        Event::Translate(q) => {
            let t = mmu::translate(m, q, ram);
            answer_text::put_answer(out, q.vaddr, t.said.outcome);
            t.mmu
        }
        Event::Flush => {
            text::put_flush(out);
            mmu::flush(m).mmu
        }
        Event::FlushAt(va) => {
            text::put_flush_at(out, va);
            mmu::flush_vaddr(m, va).mmu
        }
    }
}

// The `count` records from `first` on. Apart from `fold::run_by`: it puts lines, and promises them.
fn run_records(
    file: &[u8],
    first: usize,
    count: usize,
    m: Mmu,
    ram: &mut [u8],
    out: &mut Out<'_>,
) -> Mmu
    requires { (first + 8 * count ≤ length file.now) × HasRoom (25 * count) out.old }
    ensures { (result ≡ end_mmu (events_from file.now first count) m ram.old)
        × (ram.new ≡ end_ram (events_from file.now first count) m ram.old)
        × Wrote (25 * count) out.old out.new (lines_from (events_from file.now first count) m ram.old) }
{
    let mut n = m;
    for k in 0..count {
        let e = bundle::event_at(file, first + 8 * k);
        n = step(e, n, ram, out);
    }
    n
}

// The records and then the tallies.
pub fn run_all(
    file: &[u8],
    first: usize,
    count: usize,
    m: Mmu,
    ram: &mut [u8],
    out: &mut Out<'_>,
) -> Mmu
    requires { (first + 8 * count ≤ length file.now) × HasRoom (25 * count + 113) out.old }
    ensures { (result ≡ end_mmu (events_from file.now first count) m ram.old)
        × (ram.new ≡ end_ram (events_from file.now first count) m ram.old)
        × Wrote (25 * count + 113) out.old out.new (text_from (events_from file.now first count) m ram.old) }
{
    let end = run_records(file, first, count, m, ram, out);
    text::put_tallies(out, end.tlb.stats);
    end
}
