// Kinds 1 and 11: the writes of a contract that was accepted.
ghost use Rattle.std.specs.Prelude.{◌≡◌, ℕ, ◌*◌, ◌≤◌, ◌<◌, length, get_or, ◌&&◌};
ghost use Rattle.policy.specs.Contract.{Aid as Bytes, eq_tok};
ghost use Rattle.policy.specs.Lookup.{places};
ghost use Rattle.policy.specs.Tables.{bit};
ghost use Rattle.policy.specs.Draft.{load_at, replace_at};
ghost use Rattle.geometry.specs.Geometry.{layout_of, tok_of, tables_of};
ghost use Rattle.geometry.specs.declared.Kept.TheVariants.{UnmetCalls};
ghost use Rattle.image.specs.Image.{lay, tables};
ghost use Rattle.image.specs.Laid.{Laid};
ghost use Rattle.image.specs.Wrote.{Wrote};
ghost use Rattle.record.specs.Listed.{toks_of, contract_by, change_by, load_by, replace_by};
ghost use Rattle.changes.specs.Asked.{Asked};
ghost use Rattle.changes.specs.Left.{behind, RoomBehind};
ghost use Rattle.packages.specs.Decides.{Loads, Renews, AcceptedAs, drafted_as};
ghost use Rattle.packages.specs.Writes.{named, rows_cleared, dropped_one, dropped_from, stripped, keeps, placed_one, placed};
ghost use Rattle.packages.specs.Writes.{brought_in, BringsIn, noted_rows, NotedIn};

use crate::decide::Bring;
use changes::left::leave_from;
use changes::lists::take_in;
use changes::own::put_rows;
use changes::service::{clear_service, open_service};
use geometry::{Card, Kept, Table, Tokens};
use image::{Image, write};
use record::ContractKind;
use record::list::{Lists, Services};

// Package n is used, with this AID.
fn name(img: &mut [u8], c: Card, n: usize, aid: &[u8])
    requires laid { Laid (layout_of c) img.old }
    requires inside { n < (layout_of c).packages }
    requires short { length aid.now ≤ 16 }
    ensures { Wrote (layout_of c) img.new (named n aid.now (tables_of c img.old)) }
{
    let row = Image {
        bytes: img,
        card: c,
    }
    .used_row();
    write::set_used(img, c, bits::with_bit(row, n));
    write::put_aid(img, c, n, aid);
}

// Service k of package n is one that the mask names, and has these tokens.
fn has_kept(img: Image, n: usize, kept: u16, t: Tokens, k: usize) -> bool
    requires { (n < (lay img).packages) × (k < (lay img).services) }
    ensures { result ≡ bit kept k && eq_tok ((tables img.entry).tok n k) (tok_of t) }
{
    bits::is_set(kept.into(), k) && img.tokens_at(n, k) == t
}

// One of the services of package n that the mask names has these tokens.
fn is_kept(img: Image, n: usize, kept: u16, t: Tokens) -> bool
    requires { n < (lay img).packages }
    ensures { result ≡ keeps (lay img.entry) n kept (tok_of t) (tables img.entry) }
{
    kept != 0 && (0..geometry::services(img.card)).any(|k| has_kept(img, n, kept, t, k))
}

// A service of package n that none of the mask is takes the lowest unused number.
fn place(img: &mut [u8], c: Card, n: usize, kept: u16, t: Tokens)
    requires laid { Laid (layout_of c) img.old }
    requires inside { n < (layout_of c).packages }
    ensures { Wrote (layout_of c) img.new (placed_one (layout_of c) n kept (tok_of t) (tables_of c img.old)) }
{
    let view = Image {
        bytes: img,
        card: c,
    };
    if is_kept(view, n, kept, t) {
        return;
    }
    if let Some(k) = view.free_service(n) {
        open_service(img, c, n, k, t);
    }
}

// The services of the record: those that package n has stay where they are, and the others take the lowest unused numbers in record order.
fn place_all(img: &mut [u8], c: Card, n: usize, provides: Services)
    requires laid { Laid (layout_of c) img.old }
    requires inside { n < (layout_of c).packages }
    ensures { Wrote (layout_of c) img.new (placed (layout_of c) n (toks_of provides.entry) (tables_of c img.old)) }
{
    let kept = Image {
        bytes: img,
        card: c,
    }
    .provided_row(n);
    for t in provides {
        place(img, c, n, kept, t);
    }
}

// The lists of the record come to a number whose row of bits is clear: its services first, so that the other packages' rows and its own
// find them.
fn bring_in(img: &mut [u8], c: Card, b: Bring, l: Lists)
    requires laid { Laid (layout_of c) img.old }
    requires fit { (a : Bytes) → BringsIn (layout_of c) (contract_by a l) b (tables_of c img.old) }
    ensures { (a : Bytes) → Wrote (layout_of c) img.new (brought_in (layout_of c) (contract_by a l.entry) b (tables_of c img.old)) }
{
    place_all(img, c, b.at, l.provides);
    take_in(img, c, b.at, b.met, b.due, b.calls, b.grants);
    put_rows(img, c, b.at, l);
}

// All writes of an accepted load.
pub fn load(img: &mut [u8], c: Card, b: Bring, own: &[u8], l: Lists)
    requires asked { Asked (layout_of c) img.old own.now (load_by l) }
    requires loads { Loads (layout_of c) img.old (contract_by own.now l) b }
    ensures { Wrote (layout_of c) img.new (load_at (layout_of c) (tables_of c img.old) b.at (contract_by own.now l.entry)).tables }
{
    name(img, c, b.at, own);
    bring_in(img, c, b, l);
}

// Which services of package n that the mask names each package calls; then zeros.
fn note_calls(img: Image, n: usize, dropped: u16) -> [u16; 16]
    requires { n < (lay img).packages }
    ensures { NotedIn (lay img.entry) (tables img.entry) n dropped result
        × ((i : ℕ) → (lay img.entry).packages ≤ i → i < 16 → get_or result i 0 ≡ 0) }
{
    let mut rows = [0u16; 16];
    // Stays: zeros stand behind the card's packages; an array made by a closure would ask at each number whether the card has it.
    for i in 0..geometry::packages(img.card) {
        rows[i] = bits::common(img.entry(Table::Calls, i, n), dropped);
    }
    rows
}

// Package n's row of bits is clear in each table.
fn clear_rows(img: &mut [u8], c: Card, n: usize)
    requires laid { Laid (layout_of c) img.old }
    requires inside { n < (layout_of c).packages }
    ensures { Wrote (layout_of c) img.new (rows_cleared n (tables_of c img.old)) }
{
    write::clear_row(img, c, Table::Calls, n);
    write::clear_row(img, c, Table::Grants, n);
    write::clear_row(img, c, Table::Needs, n);
}

// Service k of package n goes, if the mask names it.
fn drop_one(img: &mut [u8], c: Card, n: usize, dropped: u16, k: usize)
    requires laid { Laid (layout_of c) img.old }
    requires inside { (n < (layout_of c).packages) × (k < (layout_of c).services) }
    ensures { Wrote (layout_of c) img.new (dropped_one n dropped k (tables_of c img.old)) }
{
    if bits::is_set(dropped.into(), k) {
        clear_service(img, c, n, k);
    }
}

// The services of package n that the mask names go.
fn drop_services(img: &mut [u8], c: Card, n: usize, dropped: u16)
    requires laid { Laid (layout_of c) img.old }
    requires inside { n < (layout_of c).packages }
    ensures { Wrote (layout_of c) img.new (dropped_from n dropped (places (layout_of c)) (tables_of c img.old)) }
{
    for k in 0..geometry::services(c) {
        drop_one(img, c, n, dropped, k);
    }
}

// The old contract of package n goes off the card, but for its rows in the lists and for the services that stay.
fn strip(img: &mut [u8], c: Card, n: usize, dropped: u16)
    requires laid { Laid (layout_of c) img.old }
    requires inside { n < (layout_of c).packages }
    ensures { Wrote (layout_of c) img.new (stripped (layout_of c) n dropped (tables_of c img.old)) }
{
    clear_rows(img, c, n);
    drop_services(img, c, n, dropped);
}

// The calls that were noted, on services with these tokens of the package `aid`, are unmet: by caller number, then service number.
fn leave_noted(img: &mut [u8], c: Card, aid: &[u8], rows: &[u16], tokens: &[u8])
    requires laid { Laid (layout_of c) img.old }
    requires inside { ((layout_of c).packages ≤ length rows.now) × ((layout_of c).services * 2 ≤ length tokens.now) }
    requires short { length aid.now ≤ 16 }
    requires room { RoomBehind UnmetCalls (layout_of c) (noted_rows (layout_of c) aid.now rows.now tokens.now) (tables_of c img.old) }
    ensures { Wrote (layout_of c) img.new
        (behind UnmetCalls (noted_rows (layout_of c) aid.now rows.now tokens.now) (tables_of c img.old)) }
{
    for i in 0..geometry::packages(c) {
        leave_from(img, c, Kept::UnmetCalls, aid, tokens, i, rows[i]);
    }
}

// All writes of an accepted whole contract. The calls of the others on services that go are noted first, since their places may be taken
// again, and stand behind the package's own.
pub fn replace(img: &mut [u8], c: Card, b: Bring, own: &[u8], l: Lists)
    requires asked { Asked (layout_of c) img.old own.now (replace_by l) }
    requires renews { Renews (layout_of c) img.old (contract_by own.now l) b }
    ensures { Wrote (layout_of c) img.new (replace_at (layout_of c) (tables_of c img.old) b.at (contract_by own.now l.entry)).tables }
{
    let view = Image {
        bytes: img,
        card: c,
    };
    let rows = note_calls(view, b.at, b.dropped);
    let tokens = view.token_row(b.at);
    strip(img, c, b.at, b.dropped);
    bring_in(img, c, b, l);
    leave_noted(img, c, own, &rows, &tokens);
}

// All writes of an accepted contract.
pub fn contract(img: &mut [u8], c: Card, b: Bring, own: &[u8], k: ContractKind, l: Lists)
    requires asked { Asked (layout_of c) img.old own.now (change_by k l) }
    requires accepted { AcceptedAs k (layout_of c) img.old (contract_by own.now l) b }
    ensures { Wrote (layout_of c) img.new (drafted_as k (layout_of c) (tables_of c img.old) b.at (contract_by own.now l.entry)).tables }
{
    match k {
        ContractKind::Load => load(img, c, b, own, l),
        ContractKind::Replace => replace(img, c, b, own, l),
    }
}
