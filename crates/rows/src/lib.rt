// Bytes compared and put in place; and a list area, a part of an image: a count byte, then rows of `width` bytes, then zeros to its end.
#![tactic(auto)]

ghost use Rattle.std.specs.Prelude.{◌≡◌, ◌+◌, ◌≤◌, length, get_or, replicate};
ghost use Rattle.policy.specs.Lists.{eq_bytes, flat};
ghost use Rattle.rows.specs.Area.{part, over, little, rows_in, IsArea, HasRoom, keep_rows, appended, dropped};

// Whether the bytes of a from index at on are those of b: a loop without branches.
// Stays: a loop over numbers; `all` and `==` would branch at each byte.
pub fn same_all(a: &[u8], at: usize, b: &[u8]) -> bool
    requires { at + length b.now ≤ length a.now }
    ensures { result ≡ eq_bytes (part at (length b.now) a.now) b.now }
{
    let mut same = true;
    for k in 0..b.len() {
        same = same & (a[at + k] == b[k]);
    }
    same
}

// The same. Most that differ do in the last one, so it goes first.
pub fn same_at(a: &[u8], at: usize, b: &[u8]) -> bool
    requires { at + length b.now ≤ length a.now }
    ensures { result ≡ eq_bytes (part at (length b.now) a.now) b.now }
{
    let n = b.len();
    if n == 0 {
        return true;
    }
    let last = n - 1;
    if a[at + last] != b[last] {
        return false;
    }
    same_all(a, at, &b[..last])
}

// The 8 bytes from at on, as a number, the first the least.
// Stays: with `from_le_bytes` the check of an image compares the last byte of AIDs last: 6,177 instructions for 6,075.
pub fn word(a: &[u8], at: usize) -> u64
    requires { at + 8 ≤ length a.now }
    ensures { result ≡ little (part at 8 a.now) }
{
    let mut w: u64 = 0;
    let mut k: usize = 8;
    while 0 < k {
        k -= 1;
        w = w * 256 + a[at + k] as u64;
    }
    w
}

// The 2 bytes from at on, as a number.
pub fn pair(a: &[u8], at: usize) -> u16
    requires { at + 2 ≤ length a.now }
    ensures { result ≡ little (part at 2 a.now) }
{
    u16::from_le_bytes([a[at], a[at + 1]])
}

// The 4 bytes from at on, as a number.
pub fn quad(a: &[u8], at: usize) -> u32
    requires { at + 4 ≤ length a.now }
    ensures { result ≡ little (part at 4 a.now) }
{
    u32::from_le_bytes([a[at], a[at + 1], a[at + 2], a[at + 3]])
}

// The bytes of a from index at on are those of b, from 8 to 16: its first 8 and its last 8.
// Stays: beside `same_quads`; a function that takes what reads a number, and its width, is longer than the two.
fn same_words(a: &[u8], at: usize, b: &[u8]) -> bool
    requires { (at + length b.now ≤ length a.now) × (8 ≤ length b.now) × (length b.now ≤ 16) }
    ensures { result ≡ eq_bytes (part at (length b.now) a.now) b.now }
{
    let end = b.len() - 8;
    (word(a, at) == word(b, 0)) & (word(a, at + end) == word(b, end))
}

// The same of 4 to 8 bytes: its first 4 and its last 4.
fn same_quads(a: &[u8], at: usize, b: &[u8]) -> bool
    requires { (at + length b.now ≤ length a.now) × (4 ≤ length b.now) × (length b.now ≤ 8) }
    ensures { result ≡ eq_bytes (part at (length b.now) a.now) b.now }
{
    let end = b.len() - 4;
    (quad(a, at) == quad(b, 0)) & (quad(a, at + end) == quad(b, end))
}

// The same of at most 16 bytes.
pub fn same_short(a: &[u8], at: usize, b: &[u8]) -> bool
    requires { (at + length b.now ≤ length a.now) × (length b.now ≤ 16) }
    ensures { result ≡ eq_bytes (part at (length b.now) a.now) b.now }
{
    let n = b.len();
    if 8 <= n {
        return same_words(a, at, b);
    }
    if 4 <= n {
        return same_quads(a, at, b);
    }
    same_all(a, at, b)
}

// The bytes of src over those of dst from index at on.
// Stays: `copy_from_slice` of a length that is not known calls `memmove`, which a host on bare metal would have to supply.
pub fn put(dst: &mut [u8], at: usize, src: &[u8])
    requires { at + length src.now ≤ length dst.old }
    ensures { dst.new ≡ over at src.now dst.old }
{
    for j in 0..src.len() {
        dst[at + j] = src[j];
    }
}

// The n bytes at `from` over those at `to`, which is n or more before.
fn slide(a: &mut [u8], to: usize, from: usize, n: usize)
    requires { (to + n ≤ from) × (from + n ≤ length a.old) }
    ensures { a.new ≡ over to (part from n a.old) a.old }
{
    let (front, back) = a.split_at_mut(from);
    front[to..to + n].copy_from_slice(&back[..n]);
}

// n zeros from index at on.
// Stays: `fill` is slower: 23,953 instructions for 23,524 in kind 1.
pub fn clear(a: &mut [u8], at: usize, n: usize)
    requires { at + n ≤ length a.old }
    ensures { a.new ≡ over at (replicate n 0) a.old }
{
    for j in 0..n {
        a[at + j] = 0;
    }
}

// A row put after the last one.
pub fn append_row(area: &mut [u8], width: usize, row: &[u8])
    requires { HasRoom width row.now area.old }
    ensures { area.new ≡ appended width row.now area.old }
{
    let n = area[0];
    let at = 1 + (n as usize) * width;
    put(area, at, row);
    area[0] = n + 1;
}

// The rows whose bit of the mask is clear moved up, in order; their number.
// Stays: a loop over numbers, since the rows move within the slice that an iterator over them would lend.
fn close_up(area: &mut [u8], width: usize, mask: u32) -> u8
    requires area { IsArea width area.old }
    requires area_bound { get_or area.old 0 0 ≤ 32 }
    ensures { (result ≡ length (keep_rows mask (rows_in width area.old)))
        × (area.new ≡ over 1 (flat (λ x. x) (keep_rows mask (rows_in width area.old))) area.old) }
{
    let n = area[0] as usize;
    let mut kept: u8 = 0;
    for r in 0..n {
        if (mask >> r) % 2 == 1 {
            continue;
        }
        if (kept as usize) < r {
            let to = 1 + (kept as usize) * width;
            let from = 1 + r * width;
            slide(area, to, from, width);
        }
        kept += 1;
    }
    kept
}

// Every row whose bit of the mask is set taken out, the others closed up in order.
pub fn drop_rows(area: &mut [u8], width: usize, mask: u32)
    requires area { IsArea width area.old }
    requires area_bound { get_or area.old 0 0 ≤ 32 }
    ensures { area.new ≡ dropped width mask area.old }
{
    if mask == 0 {
        return;
    }
    let n = area[0];
    let kept = close_up(area, width, mask);
    let end = 1 + (n as usize) * width;
    let to = 1 + (kept as usize) * width;
    let len = end - to;
    clear(area, to, len);
    area[0] = kept;
}
