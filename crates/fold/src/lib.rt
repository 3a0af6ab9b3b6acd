// Runs the records of a list, one after another, for the state and the RAM that they leave: no lines are put.
#![tactic(auto)]

ghost use Rattle.std.specs.Prelude.{◌≡◌, ◌*◌, ◌≤◌, length};
ghost use Rattle.mmu.specs.Calls.{translate_of, translate_ram};
ghost use Rattle.session.specs.Session.{step_mmu, step_ram, end_mmu, end_ram};
ghost use Rattle.steps.specs.Steps.{events_from};

use access::Served;
use session::Event;
use state::Mmu;
use walk::Access;

// Who serves an access: each kind answers and leaves what `mmu::translate` does.
pub trait Server {
    fn translate(m: Mmu, q: Access, ram: &mut [u8]) -> Served
        ensures { (result ≡ translate_of m q ram.old) × (ram.new ≡ translate_ram m q ram.old) };
}

// The state goes by value.
pub struct ByValue;

impl Server for ByValue {
    fn translate(m: Mmu, q: Access, ram: &mut [u8]) -> Served {
        mmu::translate(m, q, ram)
    }
}

fn step<S: Server>(e: Event, m: Mmu, ram: &mut [u8]) -> Mmu
    ensures { (result ≡ step_mmu e m ram.old) × (ram.new ≡ step_ram e m ram.old) }
{
    match e {
        Event::Translate(q) => S::translate(m, q, ram).mmu,
        Event::Flush => mmu::flush(m).mmu,
        Event::FlushAt(va) => mmu::flush_vaddr(m, va).mmu,
    }
}

// The first `count` records.
pub fn run_by<S: Server>(records: &[u8], count: usize, m: Mmu, ram: &mut [u8]) -> Mmu
    requires { 8 * count ≤ length records.now }
    ensures { (result ≡ end_mmu (events_from records.now 0 count) m ram.old)
        × (ram.new ≡ end_ram (events_from records.now 0 count) m ram.old) }
{
    let mut n = m;
    for k in 0..count {
        let e = bundle::event_at(records, 8 * k);
        n = step::<S>(e, n, ram);
    }
    n
}
