// Lists of records on a state that is held as its image: for the state and the RAM alone, or with their lines.
#![tactic(auto)]

ghost use Rattle.std.specs.Prelude.{◌≡◌, cond, ◌+◌, ◌*◌, ◌≤◌, ◌/◌, ltb, length, Err, Ok};
ghost use Rattle.std.specs.Result.{result_and};
ghost use Rattle.session.specs.Session.{end_mmu, end_ram};
ghost use Rattle.text.specs.Lines.{refused_line};
ghost use Rattle.steps.specs.Steps.{text_from};
ghost use Rattle.run.specs.Run.{ran_buffer};
ghost use Rattle.image.specs.Image.{put_state};
ghost use Rattle.imaged.specs.Imaged.{said_number};
ghost use Rattle.imaged_run.specs.Records.{records_given, fit_said, opened_of, opened_said, image_state, events_of, records_text, records_ram, records_image, records_short, records_ran};

use fold::{ByValue, Server};
use mmu::Kept;
use run::TooShort;
use scheme::Refusal;
use state::Mmu;
use writer::Out;

#[tactic(auto, unfolding(crate::specs::Records::records_given))]
fn records_given(records: &[u8]) -> bool
    ensures { result ≡ records_given records.now }
{
    let len = records.len();
    len <= 24000 && len % 8 == 0 && layout::records_ok(records, 0, len / 8)
}

#[tactic(auto, unfolding(crate::specs::Records::fit_said))]
fn fit_said(m: Mmu) -> Result<(), Refusal>
    ensures { result ≡ fit_said m }
{
    if !state::fits(m) {
        return Err(Refusal::Unfit);
    }
    if !m.scheme.is_bought() {
        return Err(Refusal::BadScheme);
    }
    Ok(())
}

// What a list of records on an image is refused with, and the image's state, on a refusal too: the default one where the bytes are no image.
#[tactic(auto, unfolding(crate::specs::Records::opened_of, imaged::specs::Imaged::laid_out, image_read::specs::Reading::state_read))]
pub fn opened(image: &[u8], records: &[u8]) -> Kept
    ensures said { result.said ≡ opened_said image.now records.now }
    ensures state { result.mmu ≡ image_state image.now }
    ensures found { opened_of image.now records.now ≡ result_and result.said (Ok result.mmu) }
{
    let Ok(m) = image_read::state_in(image) else {
        return session::refused(Refusal::BadLayout);
    };
    let said = if records_given(records) {
        fit_said(m)
    } else {
        Err(Refusal::BadLayout)
    };
    Kept { said, mmu: m }
}

// A list of accesses and flushes on an image, for the state and the RAM alone, with each access served by one that is told.
pub fn run_events_by<S: Server>(image: &mut [u8], records: &[u8], ram: &mut [u8]) -> u32
    ensures { (result ≡ said_number (opened_said image.old records.now))
        × (image.new ≡ records_image image.old records.now ram.old)
        × (ram.new ≡ records_ram image.old records.now ram.old) }
{
    let k = opened(image, records);
    match k.said {
        Ok(()) => {
            let end = fold::run_by::<S>(records, records.len() / 8, k.mmu, ram);
            image::put_state(end, image);
            0
        }
        Err(why) => why.number(),
    }
}

// The same, with each access by value.
pub fn run_events(image: &mut [u8], records: &[u8], ram: &mut [u8]) -> u32
    ensures { (result ≡ said_number (opened_said image.old records.now))
        × (image.new ≡ records_image image.old records.now ram.old)
        × (ram.new ≡ records_ram image.old records.now ram.old) }
{
    run_events_by::<ByValue>(image, records, ram)
}

// A refusal's line at the start of a buffer that has room for it.
fn put_refusal(out: &mut [u8], why: Refusal) -> Result<usize, TooShort>
    ensures { (result ≡ cond (ltb (length out.old) 11) (Err (record {})) (Ok (length (refused_line why))))
        × (out.new ≡ ran_buffer (ltb (length out.old) 11) out.old (refused_line why)) }
{
    if out.len() < 11 {
        return Err(TooShort);
    }
    let mut line = Out::new(out);
    text::put_refused(&mut line, why);
    Ok(line.at())
}

// The records of a list that is not refused, their lines and the tallies.
fn run_granted(
    image: &mut [u8],
    records: &[u8],
    m: Mmu,
    ram: &mut [u8],
    out: &mut [u8],
) -> Result<usize, TooShort>
    requires { length records.now ≤ 24000 }
    ensures { (result ≡ cond (ltb (length out.old) (25 * (length records.now / 8) + 113)) (Err (record {})) (Ok (length (text_from (events_of records.now) m ram.old))))
        × (out.new ≡ ran_buffer (ltb (length out.old) (25 * (length records.now / 8) + 113)) out.old (text_from (events_of records.now) m ram.old))
        × (ram.new ≡ cond (ltb (length out.old) (25 * (length records.now / 8) + 113)) ram.old (end_ram (events_of records.now) m ram.old))
        × (image.new ≡ cond (ltb (length out.old) (25 * (length records.now / 8) + 113)) image.old (put_state (end_mmu (events_of records.now) m ram.old) image.old)) }
{
    let count = records.len() / 8;
    let need = 25 * count + 113;
    if out.len() < need {
        return Err(TooShort);
    }
    let mut lines = Out::new(out);
    let end = steps::run_all(records, 0, count, m, ram, &mut lines);
    image::put_state(end, image);
    Ok(lines.at())
}

// A list of accesses and flushes on an image: their lines are put at the start of `out`.
#[tactic(auto, using(crate::proofs::Laws::opened_short), unfolding(bundle_run::specs::Parts::room_of))]
pub fn run_records(
    image: &mut [u8],
    records: &[u8],
    ram: &mut [u8],
    out: &mut [u8],
) -> Result<usize, TooShort>
    ensures { (result ≡ records_ran image.old records.now ram.old (length out.old))
        × (out.new ≡ ran_buffer (records_short image.old records.now (length out.old)) out.old (records_text image.old records.now ram.old))
        × (ram.new ≡ cond (records_short image.old records.now (length out.old)) ram.old (records_ram image.old records.now ram.old))
        × (image.new ≡ cond (records_short image.old records.now (length out.old)) image.old (records_image image.old records.now ram.old)) }
{
    let k = opened(image, records);
    match k.said {
        Ok(()) => run_granted(image, records, k.mmu, ram, out),
        Err(why) => put_refusal(out, why),
    }
}
