// The walk of an access: the descent, then the judgement of its leaf, then the marks.
#![tactic(auto)]

ghost use Rattle.std.specs.Prelude.{◌≡◌, true};
ghost use Rattle.memory.specs.Word.{readable};
ghost use Rattle.scheme.specs.Scheme.{valid_of, format_of, Modest};
ghost use Rattle.walk.specs.Rights.{allows, open_to};
ghost use Rattle.walk.specs.Verdict.{leaf_judged, judge_of, walk_of};
ghost use Rattle.walk.specs.Answer.{mark_of, mark_in, marked_by, physical_of, result_of, words_to, answer_of, walk_reply, walk_ram};

use pte::{Pte, PtePerms};
use scheme::{AccessType, Format, PagingScheme, PrivMode, Refusal};
use walker::{Descent, Reason};

// Who asks: the address, the kind of access and the privilege that goes with it.
#[derive(Clone, Copy)]
pub struct Access {
    pub vaddr: u64,
    pub kind: AccessType,
    pub mode: PrivMode,
}

// A leaf's word, where it stands, and the shift and level at which it was met.
#[derive(Clone, Copy)]
pub struct LeafAt {
    pub raw: u64,
    pub at: u64,
    pub shift: u32,
    pub level: u8,
}

// Why and at which level a walk ends at no page that the access may use.
#[derive(Clone, Copy)]
pub struct Fault {
    pub why: Reason,
    pub level: u8,
}

// What a walk gives: the address, the frame, the page's size in bits, its rights, and the level of the leaf.
#[derive(Clone, Copy)]
pub struct WalkResult {
    pub paddr: u64,
    pub ppn: u64,
    pub page_bits: u32,
    pub perms: PtePerms,
    pub global: bool,
    pub leaf_level: u8,
}

#[derive(Clone, Copy)]
pub struct PageFault {
    pub cause: u32,
    pub vaddr: u64,
}

// A walk's answer, and how many words it asked for.
#[derive(Clone, Copy)]
pub struct WalkAnswer {
    pub words: u32,
    pub answer: Result<WalkResult, PageFault>,
}

// Whether the entry has the right that the access needs.
pub fn permits(p: PtePerms, kind: AccessType) -> bool
    ensures { result ≡ allows kind p }
{
    match kind {
        AccessType::Fetch => p.x,
        AccessType::Load => p.r,
        AccessType::Store => p.w,
    }
}

// Whether the mode may use the page.
pub fn open_to(p: PtePerms, mode: PrivMode) -> bool
    ensures { result ≡ open_to mode p }
{
    match mode {
        PrivMode::U => p.u,
        PrivMode::S => !p.u,
        PrivMode::M => true,
    }
}

// What the leaf comes to for the access: right, then privilege.
fn judge_leaf(leaf: LeafAt, access: Access) -> Result<LeafAt, Fault>
    ensures { result ≡ leaf_judged access leaf }
{
    let p = Pte::new(leaf.raw).perms();
    if !permits(p, access.kind) {
        return Err(Fault {
            why: Reason::NoRight,
            level: leaf.level,
        });
    }
    if !open_to(p, access.mode) {
        return Err(Fault {
            why: Reason::Privilege,
            level: leaf.level,
        });
    }
    Ok(leaf)
}

// What a descent comes to for the access.
pub fn judge(d: Descent, access: Access) -> Result<LeafAt, Fault>
    ensures { result ≡ judge_of access d }
{
    let level = d.level;
    let leaf = d.end.map_err(|why| Fault { why, level })?;
    let at = LeafAt {
        raw: leaf.raw,
        at: leaf.at,
        shift: d.shift,
        level,
    };
    judge_leaf(at, access)
}

// The word with A set, and D for a store.
fn marked(pte: Pte, kind: AccessType) -> Pte
    ensures { result.raw ≡ mark_of kind pte.raw }
{
    let a = pte.with_a();
    match kind {
        AccessType::Store => a.with_d(),
        AccessType::Load | AccessType::Fetch => a,
    }
}

// Marks the leaf's word in RAM, if a mark was missing.
fn mark(f: Format, ram: &mut [u8], at: u64, raw: u64, kind: AccessType)
    requires { readable f.space f.bytes ram.old at ≡ true }
    ensures { ram.new ≡ mark_in f kind ram.old at raw }
{
    let word = marked(Pte::new(raw), kind).raw;
    if word != raw {
        memory::store(ram, at, f.bytes, f.space, word);
    }
}

// The frame's address with its low `page_bits` bits taken from `vaddr`.
pub fn build_paddr(f: Format, ppn: u64, page_bits: u32, vaddr: u64) -> u64
    requires { Modest f }
    ensures { result ≡ physical_of f ppn page_bits vaddr }
{
    bits::with_low(walker::frame_of(f, ppn), vaddr, page_bits)
}

// What an accepted leaf gives.
fn page(f: Format, leaf: LeafAt, vaddr: u64) -> WalkResult
    requires { Modest f }
    ensures { result ≡ result_of f vaddr leaf }
{
    let pte = Pte::new(leaf.raw);
    let ppn = pte.ppn();
    WalkResult {
        paddr: build_paddr(f, ppn, leaf.shift, vaddr),
        ppn,
        page_bits: leaf.shift,
        perms: pte.perms(),
        global: pte.global(),
        leaf_level: leaf.level,
    }
}

// How many words a walk that faults at a level has asked for: none where the address's top is wrong.
fn words_to(f: Format, vaddr: u64, level: u8) -> u32
    ensures { result ≡ words_to f vaddr level }
{
    if walker::top_ok(f, vaddr) {
        u32::from(level) + 1
    } else {
        0
    }
}

// Walks the tables from the frame `root`, and marks the leaf's word. For callers that know the scheme to be valid.
pub fn walk_valid(scheme: PagingScheme, root: u64, ram: &mut [u8], access: Access) -> WalkAnswer
    requires { valid_of scheme ≡ true }
    ensures { (result ≡ answer_of (format_of scheme) access (walk_of scheme root ram.old access))
        × (ram.new ≡ marked_by (format_of scheme) access.kind ram.old (walk_of scheme root ram.old access)) }
{
    let f = scheme.format();
    let verdict = judge(walker::descend(ram, root, scheme, access.vaddr), access);
    match verdict {
        Err(stop) => {
            let cause = access.kind.page_fault_cause();
            let words = words_to(f, access.vaddr, stop.level);
            let answer = Err(PageFault {
                cause,
                vaddr: access.vaddr,
            });
            WalkAnswer { words, answer }
        }
        Ok(leaf) => {
            mark(f, ram, leaf.at, leaf.raw, access.kind);
            let answer = Ok(page(f, leaf, access.vaddr));
            let words = u32::from(leaf.level) + 1;
            WalkAnswer { words, answer }
        }
    }
}

// The walk on any scheme: refusal 1 where it is not valid, with RAM as it was.
pub fn walk(
    scheme: PagingScheme,
    root: u64,
    ram: &mut [u8],
    access: Access,
) -> Result<WalkAnswer, Refusal>
    ensures { (result ≡ walk_reply scheme root ram.old access) × (ram.new ≡ walk_ram scheme root ram.old access) }
{
    if scheme.is_valid() {
        return Ok(walk_valid(scheme, root, ram, access));
    }
    Err(Refusal::BadScheme)
}
