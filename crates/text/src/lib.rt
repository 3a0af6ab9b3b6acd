// The program's lines but for those of accesses, put where a cursor stands.
#![tactic(auto)]

ghost use Rattle.writer.specs.Wrote.{HasRoom, Wrote};
ghost use Rattle.text.specs.Lines.{flush_line, flush_at_line, tallies_line, refused_line};

use scheme::Refusal;
use tlb::TlbStats;
use writer::Out;

// `refused N`
pub fn put_refused(out: &mut Out<'_>, why: Refusal)
    requires { HasRoom 11 out.old }
    ensures { Wrote 11 out.old out.new (refused_line why) }
{
    let number = why.number();
    out.told(b"refused ", u64::from(number));
    out.bytes(b"\n");
}

// `flush`
pub fn put_flush(out: &mut Out<'_>)
    requires { HasRoom 6 out.old }
    ensures { Wrote 6 out.old out.new flush_line }
{
    out.bytes(b"flush\n");
}

// `flush va`
pub fn put_flush_at(out: &mut Out<'_>, va: u64)
    requires { HasRoom 15 out.old }
    ensures { Wrote 15 out.old out.new (flush_at_line va) }
{
    out.bytes(b"flush ");
    out.hex(va);
    out.bytes(b"\n");
}

// `hits 2 misses 3 faults 1 evictions 0`
#[tactic(auto, using(writer::proofs::Decimals::twenty))]
pub fn put_tallies(out: &mut Out<'_>, s: TlbStats)
    requires { HasRoom 113 out.old }
    ensures { Wrote 113 out.old out.new (tallies_line s) }
{
    out.told(b"hits ", s.hits);
    out.told(b" misses ", s.misses);
    out.told(b" faults ", s.page_faults);
    out.told(b" evictions ", s.evictions);
    out.bytes(b"\n");
}
