// Reads a trace bundle: its settings, its map, and where its RAM and its accesses lie.
#![tactic(auto)]

ghost use Rattle.std.specs.Prelude.{◌≡◌, true, ◌+◌, ◌≤◌, length};
ghost use Rattle.layout.specs.Layout.{good_of};
ghost use Rattle.bundle.specs.Parts.{scheme_at, config_at, settings_at, body_at, map_part_at, event_at, parts_of, read_of};

use entry::{ReplacementPolicy, TlbConfig};
use layout::{bytes_at, is_good, len_at, u16_at, u32_at};
use plan::{MapRule, PageMapSpec, Window};
use pte::Pte;
use scheme::{AccessType, PagingScheme, PrivMode, Refusal};
use session::{Event, Settings};
use walk::Access;

mod codes;

pub use codes::Code;

#[derive(Clone, Copy)]
pub struct MapBody {
    pub spec: PageMapSpec,
    pub root: u32,
    pub window: Window,
}

// RAM is the `ram_len` bytes from `ram_start`, and the accesses are `count` records of 8 bytes from `first`. Places and not slices: the theorems
// of `bundle` say where in the file the parts lie.
#[derive(Clone, Copy)]
pub struct Parts {
    pub config: TlbConfig,
    pub settings: Settings,
    pub map: Option<MapBody>,
    pub ram_start: usize,
    pub ram_len: usize,
    pub first: usize,
    pub count: usize,
}

pub fn scheme_at(file: &[u8], at: usize) -> PagingScheme
    requires { at + 6 ≤ length file.now }
    ensures { result ≡ scheme_at file.now at }
{
    PagingScheme {
        offset_bits: file[at],
        level_bits: bytes_at(file, at + 2),
        levels: file[at + 1],
    }
}

pub fn config_at(file: &[u8], at: usize) -> TlbConfig
    requires { at + 6 ≤ length file.now }
    ensures { result ≡ config_at file.now at }
{
    TlbConfig {
        entry_count: u16_at(file, at),
        associativity: file[at + 2],
        replacement: ReplacementPolicy::from(Code(file[at + 3])),
        hit_latency: file[at + 4],
        miss_penalty: file[at + 5],
    }
}

fn settings_at(file: &[u8], at: usize) -> Settings
    requires { at + 20 ≤ length file.now }
    ensures { result ≡ settings_at file.now at }
{
    let scheme = scheme_at(file, at);
    let switches = file[at + 12];
    let satp = u64::from(u32_at(file, at + 16));
    Settings {
        scheme,
        enabled: switches & 0x1 != 0,
        force: switches & 0x2 != 0,
        tlb_on: switches & 0x4 != 0,
        satp,
    }
}

fn spec_at(file: &[u8], at: usize) -> PageMapSpec
    requires { at + 8 ≤ length file.now }
    ensures { result ≡ (body_at file.now at).spec }
{
    let rule = MapRule::from(Code(file[at]));
    let kind = codes::kind_from(file[at + 1], u32_at(file, at + 4));
    let flags = Pte::new(u64::from(file[at + 2]));
    let perms = flags.perms();
    let global = flags.global();
    PageMapSpec {
        kind,
        perms,
        global,
        rule,
    }
}

fn window_at(file: &[u8], at: usize) -> Window
    requires { at + 20 ≤ length file.now }
    ensures { result ≡ (body_at file.now at).window }
{
    Window {
        start: u32_at(file, at + 12),
        end: u32_at(file, at + 16),
    }
}

pub fn body_at(file: &[u8], at: usize) -> MapBody
    requires { at + 20 ≤ length file.now }
    ensures { result ≡ body_at file.now at }
{
    let spec = spec_at(file, at);
    let root = u32_at(file, at + 8);
    let window = window_at(file, at);
    MapBody { spec, root, window }
}

// No map, or the one at a place.
fn map_at(file: &[u8], at: usize, len: usize) -> Option<MapBody>
    requires { (len ≡ 0 → ⊥) → at + 20 ≤ length file.now }
    ensures { result ≡ map_part_at file.now at len }
{
    if len == 0 {
        None
    } else {
        Some(body_at(file, at))
    }
}

fn parts_of(file: &[u8]) -> Parts
    requires { good_of file.now ≡ true }
    ensures { result ≡ parts_of file.now }
{
    let config = config_at(file, 58);
    let settings = settings_at(file, 52);
    let map_len = len_at(file, 1);
    let map = map_at(file, 72, map_len);
    let ram_start = 72 + map_len;
    let ram_len = len_at(file, 2);
    let first = ram_start + ram_len;
    let count = len_at(file, 3) / 8;
    Parts {
        config,
        settings,
        map,
        ram_start,
        ram_len,
        first,
        count,
    }
}

// The parts of a good file, or refusal 8.
#[tactic(auto, unfolding(crate::specs::Parts::read_of))]
pub fn read(file: &[u8]) -> Result<Parts, Refusal>
    ensures { result ≡ read_of file.now }
{
    if is_good(file) {
        Ok(parts_of(file))
    } else {
        Err(Refusal::BadLayout)
    }
}

// What the record at a place asks for, whatever its bytes are.
pub fn event_at(file: &[u8], at: usize) -> Event
    requires { at + 8 ≤ length file.now }
    ensures { result ≡ event_at file.now at }
{
    let vaddr = u64::from(u32_at(file, at));
    let kind = AccessType::from(Code(file[at + 4]));
    let mode = PrivMode::from(Code(file[at + 5]));
    match file[at + 6] {
        0 => Event::Translate(Access { vaddr, kind, mode }),
        1 => Event::Flush,
        _ => Event::FlushAt(vaddr),
    }
}
