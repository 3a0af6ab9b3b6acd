// One access on a state that is held as its image, asked for with numbers, and what is told of it.
ghost use Rattle.std.specs.Prelude.{◌≡◌, ◌≤◌, ◌++◌, length};
ghost use Rattle.writer.specs.Wrote.{HasRoom, Wrote};
ghost use Rattle.entry_image.specs.EntryImage.{le_bytes};
ghost use Rattle.mmu.specs.Calls.{translate_ram};
ghost use Rattle.imaged.specs.Imaged.{said_number};
ghost use Rattle.imaged.specs.Accesses.{access_given, access_by, told_bytes, served_said, served_image, served_told};
ghost use Rattle.imaged.specs.Accesses.{translated_number, translated_image, translated_ram, translated_told};

use access::Denied;
use bundle::Code;
use scheme::{AccessType, PrivMode, Refusal};
use state::Mmu;
use walk::Access;
use writer::Out;

// Whether kind and privilege are the bundle's numbers.
pub fn access_given(kind: u8, mode: u8) -> bool
    ensures { result ≡ access_given kind mode }
{
    kind <= 2 && (mode <= 1 || mode == 3)
}

pub fn access_by(vaddr: u64, kind: u8, mode: u8) -> Access
    ensures { result ≡ access_by vaddr kind mode }
{
    Access {
        vaddr,
        kind: AccessType::from(Code(kind)),
        mode: PrivMode::from(Code(mode)),
    }
}

// The cause, the address and the count of words.
pub fn put_told(told: &mut Out<'_>, cause: u32, place: u64, words: u32)
    requires { HasRoom 16 told.old }
    ensures { Wrote 16 told.old told.new (told_bytes cause place words) }
{
    told.bytes(&cause.to_le_bytes());
    told.bytes(&place.to_le_bytes());
    told.bytes(&words.to_le_bytes());
}

// The same, and the stall.
fn put_answer(told: &mut Out<'_>, cause: u32, place: u64, words: u32, stall: u8)
    requires { HasRoom 20 told.old }
    ensures { Wrote 20 told.old told.new (told_bytes cause place words ++ le_bytes 4 stall) }
{
    put_told(told, cause, place, words);
    told.bytes(&u32::from(stall).to_le_bytes());
}

// One access on a state: unless it is refused, the answer is told and the state's image stored.
#[tactic(auto, unfolding(scheme::specs::Refusals::on_grant, crate::specs::Accesses::served_said, crate::specs::Accesses::served_image, crate::specs::Accesses::served_told, crate::specs::Accesses::answer_told))]
fn serve_on(m: Mmu, q: Access, image: &mut [u8], ram: &mut [u8], told: &mut [u8]) -> u32
    requires { 20 ≤ length told.old }
    ensures { (result ≡ said_number (served_said m q ram.old))
        × (image.new ≡ served_image m q ram.old image.old)
        × (ram.new ≡ translate_ram m q ram.old)
        × (told.new ≡ served_told m q ram.old told.old) }
{
    let s = mmu::translate(m, q, ram);
    let words = s.said.words;
    let mut answer = Out::new(told);
    match s.said.outcome {
        Err(Denied::Refused(why)) => return why.number(),
        Err(Denied::Fault(f)) => put_answer(&mut answer, f.cause, 0, words, 0),
        Ok(p) => put_answer(&mut answer, 0, p.paddr, words, p.stall),
    }
    image::put_state(s.mmu, image);
    0
}

// `mmu::translate` on an image: `told` gets the cause, the address, the count of words and the stall.
#[tactic(auto, unfolding(crate::specs::Imaged::laid_out, crate::specs::Accesses::translated_number, crate::specs::Accesses::translated_image, crate::specs::Accesses::translated_ram, crate::specs::Accesses::translated_told))]
pub fn translate(
    image: &mut [u8],
    vaddr: u64,
    kind: u8,
    mode: u8,
    ram: &mut [u8],
    told: &mut [u8],
) -> u32
    ensures { (result ≡ translated_number image.old vaddr kind mode ram.old told.old)
        × (image.new ≡ translated_image image.old vaddr kind mode ram.old told.old)
        × (ram.new ≡ translated_ram image.old vaddr kind mode ram.old told.old)
        × (told.new ≡ translated_told image.old vaddr kind mode ram.old told.old) }
{
    if told.len() < 20 {
        return 255;
    }
    if !access_given(kind, mode) {
        return Refusal::BadLayout.number();
    }
    match image_read::state_in(image) {
        Ok(m) => serve_on(m, access_by(vaddr, kind, mode), image, ram, told),
        // Kept 8: with `why.number()` the goal `returns-in-Err` did not close.
        Err(_) => 8,
    }
}
