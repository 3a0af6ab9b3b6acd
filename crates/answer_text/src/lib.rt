// The line of an access, put where a cursor stands.
#![tactic(auto)]

ghost use Rattle.std.specs.Prelude.{◌<◌};
ghost use Rattle.writer.specs.Wrote.{HasRoom, Wrote};
ghost use Rattle.text.specs.Lines.{ok_line, fault_line, answer_line};
ghost use Rattle.access.specs.Translate.{cause_in};

use access::{Denied, Place};
use writer::Out;

#[tactic(auto, using(writer::proofs::Decimals::three))]
fn put_ok(out: &mut Out<'_>, va: u64, pa: u64, stall: u8)
    requires { HasRoom 25 out.old }
    ensures { Wrote 25 out.old out.new (ok_line va pa stall) }
{
    out.hex(va);
    out.bytes(b" ok ");
    out.hex(pa);
    out.told(b" ", u64::from(stall));
    out.bytes(b"\n");
}

#[tactic(auto, using(writer::proofs::Decimals::three))]
fn put_fault(out: &mut Out<'_>, va: u64, cause: u32)
    requires { HasRoom 25 out.old × (cause < 1000) }
    ensures { Wrote 25 out.old out.new (fault_line va cause) }
{
    out.hex(va);
    out.told(b" fault ", u64::from(cause));
    out.bytes(b"\n");
}

// The line of the access at va: `va ok pa stall` or `va fault cause`, and `refused N` where it was refused. A u32 may have ten digits;
// "fetch 12, load 13, store 15" have two. No more than three are asked for, so that no line is longer than an ok line.
pub fn put_answer(out: &mut Out<'_>, va: u64, outcome: Result<Place, Denied>)
    requires { HasRoom 25 out.old × (cause_in outcome < 1000) }
    ensures { Wrote 25 out.old out.new (answer_line va outcome) }
{
    match outcome {
        Ok(place) => put_ok(out, va, place.paddr, place.stall),
        Err(Denied::Fault(fault)) => put_fault(out, va, fault.cause),
        Err(Denied::Refused(why)) => text::put_refused(out, why),
    }
}
