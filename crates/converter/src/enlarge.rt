// R-9's converter: a sound image of version 02 into a buffer of the large card's size. The parts are written one after another, each with
// the zeros that fill its place.
ghost use Rattle.std.specs.Prelude.{◌≡◌, ◌*◌, ◌/◌, ◌%◌, ◌≤◌, ℕ, List, T, length};
ghost use Rattle.policy.specs.Layout.{small, large, size as size_of, tokens_at, calls_at};
ghost use Rattle.policy.specs.Sound.{sound};
ghost use Rattle.policy.specs.Eras.{carried};
ghost use Rattle.geometry.specs.Geometry.{table_at, list_at};
ghost use Rattle.rows.specs.Area.{over};
ghost use Rattle.converter.specs.Converted.{Converted};
ghost use Rattle.converter.specs.Enlarged.{Sized, Puts, filled, widened, lines_of};
ghost use Rattle.converter.specs.Enlarged.{names_of, all_tokens, before_tables, table_of, all_tables, list_of};

use geometry::{Card, Kept, Table};

// Bytes at the front of a place, then zeros to its end.
fn copy_fill(bytes: &[u8], place: &mut [u8])
    requires { length bytes.now ≤ length place.old }
    ensures { place.new ≡ filled (length place.old) bytes.now }
{
    rows::put(place, 0, bytes);
    place[bytes.len()..].fill(0);
}

// Rows of bits of a byte each: two bytes each at the front of a place, then zeros to its end.
fn widen_fill(rows: &[u8], place: &mut [u8])
    requires { length rows.now * 2 ≤ length place.old }
    ensures { place.new ≡ filled (length place.old) (widened rows.now 0 (length rows.now)) }
{
    for (j, row) in rows.iter().enumerate() {
        geometry::put_number(place, j * 2, 2, *row as u16);
    }
    place[rows.len() * 2..].fill(0);
}

// The header, the used field, and the AIDs: 8 of 17 bytes, in a place for 16.
fn carry_names(img: &[u8], out: &mut [u8])
    requires { Sized img.now out.old }
    ensures { out.new ≡ over 0 (names_of img.now) out.old }
{
    out[..3].copy_from_slice(&geometry::header(Card::Large));
    widen_fill(&img[3..4], &mut out[3..5]);
    let from = geometry::aid_at(Card::Small, 0);
    let to = geometry::aid_at(Card::Large, 0);
    copy_fill(&img[from..from + 136], &mut out[to..to + 272]);
}

// 8 lines, each in a place for 32 bytes, and zeros in the place of 8 more.
fn carry_lines<F: Fn(&[u8], &mut [u8])>(lines: &[u8], place: &mut [u8], put: F)
    requires sized { (length lines.now % 8 ≡ 0) × (length place.old ≡ 512) }
    requires puts { (x p : _) → length x.now ≡ length lines.now / 8 → length p.now ≡ 32 → F.pre put x p }
    ensures { (f : List ℕ → List ℕ) → Puts (F.post put) (length lines.now / 8) f
        → place.new ≡ lines_of f (length lines.now / 8) lines.now }
{
    let w = lines.len() / 8;
    // Stays: a `for` over numbers, since a proof does not know what is left in the pieces of `chunks_exact_mut`.
    for i in 0..8 {
        put(&lines[i * w..i * w + w], &mut place[i * 32..i * 32 + 32]);
    }
    place[256..].fill(0);
}

// The tokens: of each of 8 packages those of 8 services, in a place for 16 packages with 16 services.
fn carry_tokens(img: &[u8], out: &mut [u8])
    requires { Sized img.now out.old }
    ensures { out.new ≡ over (tokens_at large) (all_tokens img.now) out.old }
{
    let from = geometry::tok_at(Card::Small, 0, 0);
    let to = geometry::tok_at(Card::Large, 0, 0);
    carry_lines(&img[from..from + 128], &mut out[to..to + 512], copy_fill);
}

// A table: 8 lines of 8 rows of bits, in a place for 16 of 16.
fn carry_table(img: &[u8], t: Table, out: &mut [u8])
    requires { Sized img.now out.old }
    ensures { out.new ≡ over (table_at large t) (table_of t img.now) out.old }
{
    let from = geometry::table_at(Card::Small, t);
    let to = geometry::table_at(Card::Large, t);
    carry_lines(&img[from..from + 64], &mut out[to..to + 512], widen_fill);
}

// A list: its count and 16 rows of 20 bytes, in a place for 32 rows.
fn carry_list(img: &[u8], l: Kept, out: &mut [u8])
    requires { Sized img.now out.old }
    ensures { out.new ≡ over (list_at large l) (list_of l img.now) out.old }
{
    let from = geometry::list_at(Card::Small, l);
    let to = geometry::list_at(Card::Large, l);
    copy_fill(&img[from..from + 321], &mut out[to..to + 641]);
}

// All that stands before the tables; the last are the provided services.
fn carry_front(img: &[u8], out: &mut [u8])
    requires { Sized img.now out.old }
    ensures { out.new ≡ over 0 (before_tables img.now) out.old }
{
    carry_names(img, out);
    carry_tokens(img, out);
    let from = geometry::prov_at(Card::Small, 0);
    let to = geometry::prov_at(Card::Large, 0);
    widen_fill(&img[from..from + 8], &mut out[to..to + 32]);
}

// The three tables.
fn carry_tables(img: &[u8], out: &mut [u8])
    requires { Sized img.now out.old }
    ensures { out.new ≡ over (calls_at large) (all_tables img.now) out.old }
{
    carry_table(img, Table::Calls, out);
    carry_table(img, Table::Grants, out);
    carry_table(img, Table::Needs, out);
}

// The image of the large card with the same tables.
#[tactic(auto, using(policy::proofs::SoundFacts::sound_sized))]
fn carry(img: &[u8], out: &mut [u8])
    requires sound { T (sound small img.now) }
    requires sized { length out.old ≡ size_of large }
    ensures { out.new ≡ carried small large img.now }
{
    carry_front(img, out);
    carry_tables(img, out);
    carry_list(img, Kept::UnmetCalls, out);
    carry_list(img, Kept::WaitingGrants, out);
}

// Whether the image is taken: it is sound by the small card's rules, and the buffer has the large card's size. Else nothing is written.
pub fn enlarge(img: &[u8], out: &mut [u8]) -> bool
    ensures { Converted small large img.now out.old result out.new }
{
    if !soundness::is_sound(img, Card::Small) {
        return false;
    }
    if out.len() != geometry::size(Card::Large) {
        return false;
    }
    carry(img, out);
    true
}
