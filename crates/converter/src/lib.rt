// R-2's converter: a sound image of version 01 into a buffer of version 02's size.
#![tactic(auto)]

ghost use Rattle.std.specs.Prelude.{◌≡◌, ◌++◌, ◌+◌, ◌≤◌, ◌<◌, T, length, get_or};
ghost use Rattle.policy.specs.Layout.{narrow, small, size as size_of};
ghost use Rattle.policy.specs.Sound.{sound};
ghost use Rattle.policy.specs.Eras.{carried};
ghost use Rattle.geometry.specs.Geometry.{place_at};
ghost use Rattle.geometry.specs.declared.Kept.TheVariants.{WaitingGrants};
ghost use Rattle.rows.specs.Area.{over};
ghost use Rattle.converter.specs.Converted.{old_at, old_count, named_at, front_of, new_row, Converted};

use geometry::{Card, Kept};

pub mod enlarge;

// An image of version 01: how many waiting grants it has,
#[tactic(auto, using(crate::proofs::Old::old_size))]
fn old_count(old: &[u8]) -> usize
    requires { T (sound narrow old.now) }
    ensures { result ≡ old_count old.now }
{
    let at = geometry::list_at(Card::Small, Kept::WaitingGrants);
    old[at] as usize
}

// and where row r of them stands.
fn old_at(r: usize) -> usize
    requires { r ≤ small.capacity }
    ensures { result ≡ old_at r }
{
    let at = geometry::list_at(Card::Small, Kept::WaitingGrants);
    let size = geometry::old_row_size(Kept::WaitingGrants);
    at + (1 + r * size)
}

// Where the tokens of the service stand that the row at `at` names: its bytes are an AID in 17, the callee number and the service number.
fn named_at(old: &[u8], at: usize) -> usize
    requires inside { at + 19 ≤ length old.now }
    requires named { (get_or old.now (at + 17) 0 < small.packages) × (get_or old.now (at + 18) 0 < small.services) }
    ensures { result ≡ named_at old.now at }
{
    let callee = old[at + 17] as usize;
    let service = old[at + 18] as usize;
    geometry::tok_at(Card::Small, callee, service)
}

// Row r: AID and callee number as they are, then the tokens in place of the service number.
#[tactic(auto, using(crate::proofs::Written::writes))]
fn write_row(old: &[u8], r: usize, out: &mut [u8])
    requires sound { T (sound narrow old.now) }
    requires sized { length out.old ≡ size_of small }
    requires row { r < old_count old.now }
    ensures { out.new ≡ over (place_at small WaitingGrants r) (new_row old.now r) out.old }
{
    let from = old_at(r);
    let tok = named_at(old, from);
    let to = geometry::place_at(Card::Small, Kept::WaitingGrants, r);
    out[to..to + 18].copy_from_slice(&old[from..from + 18]);
    out[to + 18..to + 20].copy_from_slice(&old[tok..tok + 2]);
}

// The new header, then all that stands before the waiting grants, and their count.
#[tactic(auto, using(crate::proofs::Old::old_size))]
fn copy_front(old: &[u8], out: &mut [u8])
    requires sound { T (sound narrow old.now) }
    requires sized { length out.old ≡ size_of small }
    ensures { out.new ≡ over 0 (small.header ++ front_of old.now) out.old }
{
    let end = geometry::place_at(Card::Small, Kept::WaitingGrants, 0);
    out[..3].copy_from_slice(&geometry::header(Card::Small));
    rows::put(out, 3, &old[3..end]);
}

// The image of version 02 with the same tables: the front, the rows in order, and zeros to the end.
fn carry(old: &[u8], out: &mut [u8])
    requires sound { T (sound narrow old.now) }
    requires sized { length out.old ≡ size_of small }
    ensures { out.new ≡ carried narrow small old.now }
{
    copy_front(old, out);
    let n = old_count(old);
    // Stays: a `for` over numbers, since a proof does not know what is left in the pieces of `chunks_exact_mut`.
    for r in 0..n {
        write_row(old, r, out);
    }
    let end = geometry::place_at(Card::Small, Kept::WaitingGrants, n);
    out[end..].fill(0);
}

// Whether the image is taken: it is sound by the rules before R-2, and the buffer has the new image's size. Else nothing is written.
pub fn convert(old: &[u8], out: &mut [u8]) -> bool
    ensures { Converted narrow small old.now out.old result out.new }
{
    if !soundness::is_sound_old(old) {
        return false;
    }
    if out.len() != geometry::size(Card::Small) {
        return false;
    }
    carry(old, out);
    true
}
