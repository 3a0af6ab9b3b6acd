// The layout of a trace bundle: whether a file is one, tested over all its bytes. Little-endian numbers in a file.
#![tactic(auto)]

ghost use Rattle.std.specs.Prelude.{◌≡◌, true, ◌||◌, ◌+◌, ◌*◌, ◌≤◌, ◌<◌, eqb, length};
ghost use Rattle.std.proofs.Math.Seq.{slice};
ghost use Rattle.memory.specs.Word.{le_at};
ghost use Rattle.layout.specs.Layout.{front_ok, row_ok, len_at, rows_ok, sizes_ok, head_ok};
ghost use Rattle.layout.specs.Layout.{unused_ok, settings_ok, flag_bits_ok, map_ok, record_ok, records_ok, bodies_ok, good_of};

// The N bytes from `at` on.
pub fn bytes_at<const N: usize>(file: &[u8], at: usize) -> [u8; N]
    requires { at + N ≤ length file.now }
    ensures { result ≡ slice at (at + N) file.now }
{
    let mut bytes = [0; N];
    bytes.copy_from_slice(&file[at..at + N]);
    bytes
}

pub fn u16_at(file: &[u8], at: usize) -> u16
    requires { at + 2 ≤ length file.now }
    ensures { result ≡ le_at 2 file.now at }
{
    u16::from_le_bytes(bytes_at(file, at))
}

pub fn u32_at(file: &[u8], at: usize) -> u32
    requires { at + 4 ≤ length file.now }
    ensures { result ≡ le_at 4 file.now at }
{
    u32::from_le_bytes(bytes_at(file, at))
}

pub fn u64_at(file: &[u8], at: usize) -> u64
    requires { at + 8 ≤ length file.now }
    ensures { result ≡ le_at 8 file.now at }
{
    u64::from_le_bytes(bytes_at(file, at))
}

// The length of body k, from 0.
pub fn len_at(file: &[u8], k: usize) -> usize
    requires { 16 + 12 * k ≤ length file.now }
    ensures { (result ≡ len_at file.now k) × (result < 0x1_0000_0000) }
{
    u32_at(file, 12 + 12 * k) as usize
}

fn front_ok(file: &[u8]) -> bool
    requires { 4 ≤ length file.now }
    ensures { result ≡ front_ok 1 4 file.now }
{
    u16_at(file, 0) == 1 && u16_at(file, 2) == 4
}

fn row_ok(file: &[u8], k: usize, start: usize) -> bool
    requires { 16 + 12 * k ≤ length file.now }
    ensures { result ≡ row_ok file.now k start }
{
    let kind = u32_at(file, 4 + 12 * k) as usize;
    let begins = u32_at(file, 8 + 12 * k) as usize;
    kind == k + 1 && begins == start
}

// The kinds in order, and the bodies from 52 to the end of the file.
fn rows_ok(file: &[u8]) -> bool
    requires { 52 ≤ length file.now }
    ensures { result ≡ rows_ok file.now 4 0 52 }
{
    let mut start = 52;
    for k in 0..4 {
        if !row_ok(file, k, start) {
            return false;
        }
        start += len_at(file, k);
    }
    start == file.len()
}

#[tactic(auto, unfolding(crate::specs::Layout::sizes_ok))]
fn sizes_ok(file: &[u8]) -> bool
    requires { 52 ≤ length file.now }
    ensures { result ≡ sizes_ok 8 file.now }
{
    let settings = len_at(file, 0);
    let map = len_at(file, 1);
    let ram = len_at(file, 2);
    let accesses = len_at(file, 3);
    settings == 20
        && (map == 0 || map == 20)
        && ram <= 32768
        && accesses <= 24000
        && accesses % 8 == 0
}

#[tactic(auto, unfolding(crate::specs::Layout::head_ok))]
fn head_ok(file: &[u8]) -> bool
    ensures { result ≡ head_ok 1 4 8 file.now }
{
    file.len() >= 52 && front_ok(file) && rows_ok(file) && sizes_ok(file)
}

// Whether each of the four widths at a place is used or 0.
fn unused_ok(file: &[u8], at: usize, count: u8) -> bool
    requires { at + 4 ≤ length file.now }
    ensures { result ≡ unused_ok file.now at count }
{
    (0 < count || file[at] == 0)
        && (1 < count || file[at + 1] == 0)
        && (2 < count || file[at + 2] == 0)
        && (3 < count || file[at + 3] == 0)
}

// A place in a file: the definitions are of the file and a place, and so are the clauses.
#[tactic(auto, unfolding(crate::specs::Layout::settings_ok))]
fn settings_ok(file: &[u8], at: usize) -> bool
    requires { at + 20 ≤ length file.now }
    ensures { result ≡ settings_ok file.now at }
{
    unused_ok(file, at + 2, file[at + 1])
        && file[at + 9] <= 5
        && file[at + 12] <= 7
        && file[at + 13] == 0
        && file[at + 14] == 0
        && file[at + 15] == 0
}

fn flag_bits_ok(b: u8) -> bool
    ensures { result ≡ flag_bits_ok b }
{
    b <= 63 && b % 2 == 0
}

#[tactic(auto, unfolding(crate::specs::Layout::map_ok))]
pub fn map_ok(file: &[u8], at: usize) -> bool
    requires { at + 20 ≤ length file.now }
    ensures { result ≡ map_ok file.now at }
{
    let rule = file[at];
    let kind = file[at + 1];
    rule <= 1
        && kind <= 1
        && flag_bits_ok(file[at + 2])
        && file[at + 3] == 0
        && (kind == 1 || u32_at(file, at + 4) == 0)
}

// Whether there is no map, or a good one.
fn map_part_ok(file: &[u8], at: usize, len: usize) -> bool
    requires { (len ≡ 0 → ⊥) → at + 20 ≤ length file.now }
    ensures { result ≡ eqb len 0 || map_ok file.now at }
{
    len == 0 || map_ok(file, at)
}

// Kept `&` and `|`, and all bytes read before the tests: so a record needs no branches, and the loop over the records is one over vectors.
#[tactic(auto, unfolding(crate::specs::Layout::record_ok))]
fn record_ok(file: &[u8], p: usize) -> bool
    requires { p + 8 ≤ length file.now }
    ensures { result ≡ record_ok file.now p }
{
    let address = u32_at(file, p);
    let access = file[p + 4];
    let privilege = file[p + 5];
    let operation = file[p + 6];
    let translates = (operation == 0) & ((access <= 2) & ((privilege <= 1) | (privilege == 3)));
    let plain = (access == 0) & (privilege == 0);
    let flushes = plain & ((operation == 2) | ((operation == 1) & (address == 0)));
    (file[p + 7] == 0) & (translates | flushes)
}

// No early return: a good file is the common case.
pub fn records_ok(file: &[u8], at: usize, n: usize) -> bool
    requires { at + 8 * n ≤ length file.now }
    ensures { result ≡ records_ok 8 file.now at n }
{
    let mut ok = true;
    for i in 0..n {
        ok &= record_ok(file, at + 8 * i);
    }
    ok
}

// Whether the bodies are good. They lie in the file where its contents are good.
#[tactic(auto, using(crate::proofs::Fits::head_fits), unfolding(crate::specs::Layout::bodies_ok))]
fn bodies_ok(file: &[u8]) -> bool
    requires { head_ok 1 4 8 file.now ≡ true }
    ensures { result ≡ bodies_ok 4 8 file.now }
{
    let map = len_at(file, 1);
    let first = 72 + map + len_at(file, 2);
    let count = len_at(file, 3) / 8;
    settings_ok(file, 52) && map_part_ok(file, 72, map) && records_ok(file, first, count)
}

// Whether the file is a good bundle.
#[tactic(auto, unfolding(crate::specs::Layout::good_in))]
pub fn is_good(file: &[u8]) -> bool
    ensures { result ≡ good_of file.now }
{
    head_ok(file) && bodies_ok(file)
}
