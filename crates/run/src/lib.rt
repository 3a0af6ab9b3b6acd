// The program over slices: reads a bundle, sets up the MMU, and runs what was read if the buffers are long enough.
#![tactic(auto)]

ghost use Rattle.std.specs.Prelude.{◌≡◌, ◌≤◌, length};
ghost use Rattle.bundle_run.specs.Parts.{room_of};
ghost use Rattle.run.specs.Run.{too_short, output_of, end_ram_of, ran_of, ran_mmu, ran_buffer, WroteWithin};

use scheme::Refusal;
use state::Mmu;
use writer::Out;

// A buffer has less room than the run may need.
#[derive(Clone, Copy)]
pub struct TooShort;

// How many bytes of output were put, and the state that the run leaves.
// No Result of the two: the contract hands the state back also where a buffer is too short.
#[derive(Clone, Copy)]
pub struct RunKept {
    pub said: Result<usize, TooShort>,
    pub mmu: Mmu,
}

// The room that the output of what was read may need.
#[tactic(auto, unfolding(bundle_run::specs::Parts::room_of))]
fn room(early: Result<(), Refusal>, count: usize) -> usize
    requires { count ≤ 3000 }
    ensures { result ≡ room_of early count }
{
    match early {
        Err(_) => 11,
        Ok(()) => 25 * count + 113,
    }
}

// Runs a bundle: the output is put at the start of `out`, its RAM is left at the start of `ram`, and the state is handed back.
pub fn run_kept(file: &[u8], ram: &mut [u8], out: &mut [u8]) -> RunKept
    ensures { (result.said ≡ ran_of file.now (length ram.old) (length out.old))
        × (result.mmu ≡ ran_mmu (too_short file.now (length ram.old) (length out.old)) file.now)
        × (out.new ≡ ran_buffer (too_short file.now (length ram.old) (length out.old)) out.old (output_of file.now))
        × (ram.new ≡ ran_buffer (too_short file.now (length ram.old) (length out.old)) ram.old (end_ram_of file.now))
        × WroteWithin result.said (length out.new) }
{
    match bundle::read(file) {
        Err(why) => {
            let mmu = session::refused(why).mmu;
            if out.len() < 11 {
                return RunKept {
                    said: Err(TooShort),
                    mmu,
                };
            }
            let mut line = Out::new(out);
            text::put_refused(&mut line, why);
            RunKept {
                said: Ok(line.at()),
                mmu,
            }
        }
        Ok(p) => {
            let start = bundle_run::set_up(p.config, p.settings);
            let need = room(start.said, p.count);
            // Kept `|`: with `||` two ways join at the exit, and the goal `returns-then-out-need` did not close.
            if (out.len() < need) | (ram.len() < p.ram_len) {
                return RunKept {
                    said: Err(TooShort),
                    mmu: start.mmu,
                };
            }
            let mut lines = Out::new(out);
            let mmu = bundle_run::run_parts(file, start.said, p, start.mmu, ram, &mut lines);
            RunKept {
                said: Ok(lines.at()),
                mmu,
            }
        }
    }
}

// The same without the state.
pub fn run(file: &[u8], ram: &mut [u8], out: &mut [u8]) -> Result<usize, TooShort>
    ensures { (result ≡ ran_of file.now (length ram.old) (length out.old))
        × (out.new ≡ ran_buffer (too_short file.now (length ram.old) (length out.old)) out.old (output_of file.now))
        × (ram.new ≡ ran_buffer (too_short file.now (length ram.old) (length out.old)) ram.old (end_ram_of file.now))
        × WroteWithin result (length out.new) }
{
    run_kept(file, ram, out).said
}
