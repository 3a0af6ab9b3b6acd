// Calls on a state that is held as its image, as a host in another language keeps it: a new one, a scheme, a configuration, a flush, one access.
// Answers are numbers, since the C interface needs them: 0, the refusal's number, or 255 where a buffer is too short.
#![tactic(auto)]

ghost use Rattle.std.specs.Prelude.{◌≡◌};
ghost use Rattle.imaged.specs.Imaged.{said_number, kept_in, CalledOn, schemed_of, config_given, configured_of, made_number, made_image, flushed_of, flushed_at_of};

use mmu::Kept;
use scheme::Refusal;
use state::Mmu;

mod accesses;

pub use accesses::{access_by, access_given, put_told, translate};

// The refusal's number, or 0.
pub fn said_number(said: Result<(), Refusal>) -> u32
    ensures { result ≡ said_number said }
{
    match said {
        Err(why) => why.number(),
        Ok(()) => 0,
    }
}

// Stores the state of a call that was granted: the refusal's number, or 0.
#[tactic(auto, unfolding(scheme::specs::Refusals::on_grant))]
fn keep(k: Kept, image: &mut [u8]) -> u32
    ensures { (result ≡ said_number k.said) × (image.new ≡ kept_in k image.old) }
{
    match k.said {
        Ok(()) => {
            image::put_state(k.mmu, image);
            0
        }
        Err(why) => why.number(),
    }
}

// A call on the state that an image holds.
#[tactic(auto, unfolding(image_read::specs::Reading::state_read))]
fn call_on<F: FnOnce(Mmu) -> Kept>(image: &mut [u8], call: F) -> u32
    requires { F.IsAlwaysCallable call }
    ensures { CalledOn (F.post call) image.old result image.new }
{
    match image_read::state_in(image) {
        Ok(m) => keep(call(m), image),
        Err(why) => why.number(),
    }
}

// `mmu::set_scheme` on an image; the scheme is six bytes.
#[tactic(auto, unfolding(image_read::specs::Reading::state_read, scheme::specs::Refusals::on_grant))]
pub fn set_scheme(image: &mut [u8], scheme: &[u8]) -> u32
    ensures { (result ≡ said_number (schemed_of image.old scheme.now).said)
        × (image.new ≡ kept_in (schemed_of image.old scheme.now) image.old) }
{
    if scheme.len() != 6 {
        return Refusal::BadLayout.number();
    }
    let s = bundle::scheme_at(scheme, 0);
    call_on(image, |m| mmu::set_scheme(m, s))
}

fn config_given(config: &[u8]) -> bool
    ensures { result ≡ config_given config.now }
{
    config.len() == 6 && config[3] <= 5
}

// The image of a new state with a configuration of six bytes, into a buffer.
#[tactic(auto, unfolding(crate::specs::Imaged::made_number, crate::specs::Imaged::made_image, crate::specs::Imaged::laid_out))]
pub fn new(config: &[u8], image: &mut [u8]) -> u32
    ensures { (result ≡ made_number config.now image.old)
        × (image.new ≡ made_image config.now image.old) }
{
    if image.len() < 3416 {
        return 255;
    }
    if !config_given(config) {
        return Refusal::BadLayout.number();
    }
    let c = bundle::config_at(config, 0);
    keep(mmu::new(c), image)
}

// `mmu::reconfigure` on an image; the configuration is six bytes.
#[tactic(auto, unfolding(image_read::specs::Reading::state_read, scheme::specs::Refusals::on_grant))]
pub fn reconfigure(image: &mut [u8], config: &[u8]) -> u32
    ensures { (result ≡ said_number (configured_of image.old config.now).said)
        × (image.new ≡ kept_in (configured_of image.old config.now) image.old) }
{
    if !config_given(config) {
        return Refusal::BadLayout.number();
    }
    let c = bundle::config_at(config, 0);
    call_on(image, |m| mmu::reconfigure(m, c))
}

// `mmu::flush` on an image.
#[tactic(auto, unfolding(image_read::specs::Reading::state_read, scheme::specs::Refusals::on_grant))]
pub fn flush(image: &mut [u8]) -> u32
    ensures { (result ≡ said_number (flushed_of image.old).said)
        × (image.new ≡ kept_in (flushed_of image.old) image.old) }
{
    call_on(image, mmu::flush)
}

// `mmu::flush_vaddr` on an image.
#[tactic(auto, unfolding(image_read::specs::Reading::state_read, scheme::specs::Refusals::on_grant))]
pub fn flush_vaddr(image: &mut [u8], vaddr: u64) -> u32
    ensures { (result ≡ said_number (flushed_at_of image.old vaddr).said)
        × (image.new ≡ kept_in (flushed_at_of image.old vaddr) image.old) }
{
    call_on(image, |m| mmu::flush_vaddr(m, vaddr))
}
