// Rows of the two lists that become bits: unmet calls that are met, and waiting grants that are due.
ghost use Rattle.std.specs.Prelude.{◌≡◌, ℕ, ◌<◌, length, IfSome};
ghost use Rattle.policy.specs.Lookup.{service_of};
ghost use Rattle.geometry.specs.Geometry.{layout_of, tables_of};
ghost use Rattle.image.specs.Laid.{Laid};
ghost use Rattle.image.specs.Image.{lay, tables};
ghost use Rattle.image.specs.Wrote.{Wrote};
ghost use Rattle.image.specs.Read.{found, unmet_row, waiting_row};
ghost use Rattle.changes.specs.Joins.{met_one, CallersIn, GivenIn, settled_one, settled_all, DueAt, without_rows};
ghost use Rattle.changes.specs.Joins.{CallOn, met_all, TakesIn, taken_in, room_after};

use geometry::{Card, Kept, Table};
use image::Image;

// How many rows a list has room for, once those of the mask have gone.
pub fn room_after(img: Image, l: Kept, mask: u32) -> usize
    ensures { result ≡ room_after (lay img.entry) l mask (tables img.entry) }
{
    geometry::capacity(img.card) + image::lists::mask_count(mask) - img.count(l)
}

// The number of the service that waiting grant r is of; none where its package does not provide it.
pub fn granted_service(img: Image, r: usize) -> Option<usize>
    requires inside { r < length (tables img).waiting }
    requires given { (waiting_row (tables img) r).callee < (lay img).packages }
    ensures is { result ≡ found (service_of (lay img.entry) (tables img.entry) (waiting_row (tables img.entry) r).callee
        (waiting_row (tables img.entry) r).tok) }
    ensures low { IfSome result (λ k. k < (lay img.entry).services) }
{
    let j = img.number(Kept::WaitingGrants, r);
    img.find_service(j, img.tokens(Kept::WaitingGrants, r))
}

// Waiting grant r, if the mask names it, becomes a bit.
fn settle_row(img: &mut [u8], c: Card, due: u32, r: usize)
    requires laid { Laid (layout_of c) img.old }
    requires inside { r < length (tables_of c img.old).waiting }
    requires given { (waiting_row (tables_of c img.old) r).callee < (layout_of c).packages }
    requires there { DueAt (layout_of c) due (tables_of c img.old) r }
    ensures { Wrote (layout_of c) img.new (settled_one (layout_of c) due r (tables_of c img.old)) }
{
    if bits::is_set(due.into(), r) {
        let view = Image {
            bytes: img,
            card: c,
        };
        let j = view.number(Kept::WaitingGrants, r);
        let i = view.find_holder(Kept::WaitingGrants, r).unwrap();
        let k = granted_service(view, r).unwrap();
        image::write::put_bit(img, c, Table::Grants, j, i, k, true);
    }
}

// The waiting grants of the mask become bits.
fn settle(img: &mut [u8], c: Card, due: u32)
    requires laid { Laid (layout_of c) img.old }
    requires by { GivenIn (layout_of c) (tables_of c img.old).waiting }
    requires there { (r : ℕ) → r < length (tables_of c img.old).waiting → DueAt (layout_of c) due (tables_of c img.old) r }
    ensures { Wrote (layout_of c) img.new (settled_all (layout_of c) due (tables_of c img.old)) }
{
    let n = Image {
        bytes: img,
        card: c,
    }
    .count(Kept::WaitingGrants);
    for r in 0..n {
        settle_row(img, c, due, r);
    }
}

// Unmet call r, if the mask names it, becomes a bit, on package n's service with its tokens.
fn meet_row(img: &mut [u8], c: Card, n: usize, met: u32, r: usize)
    requires laid { Laid (layout_of c) img.old }
    requires inside { r < length (tables_of c img.old).unmet }
    requires numbers { ((unmet_row (tables_of c img.old) r).caller < (layout_of c).packages) × (n < (layout_of c).packages) }
    requires there { CallOn (layout_of c) met n (tables_of c img.old) r }
    ensures { Wrote (layout_of c) img.new (met_one (layout_of c) met n r (tables_of c img.old)) }
{
    if bits::is_set(met.into(), r) {
        let view = Image {
            bytes: img,
            card: c,
        };
        let i = view.number(Kept::UnmetCalls, r);
        let t = view.tokens(Kept::UnmetCalls, r);
        let k = view.find_service(n, t).unwrap();
        image::write::put_bit(img, c, Table::Calls, i, n, k, true);
    }
}

// The unmet calls of the mask become bits, on package n's services.
fn meet(img: &mut [u8], c: Card, n: usize, met: u32)
    requires laid { Laid (layout_of c) img.old }
    requires by { CallersIn (layout_of c) (tables_of c img.old).unmet }
    requires there { (r : ℕ) → r < length (tables_of c img.old).unmet → CallOn (layout_of c) met n (tables_of c img.old) r }
    requires inside { n < (layout_of c).packages }
    ensures { Wrote (layout_of c) img.new (met_all (layout_of c) met n (tables_of c img.old)) }
{
    let m = Image {
        bytes: img,
        card: c,
    }
    .count(Kept::UnmetCalls);
    for r in 0..m {
        meet_row(img, c, n, met, r);
    }
}

// The unmet calls and the waiting grants of the masks go.
fn drop_listed(img: &mut [u8], c: Card, calls: u32, grants: u32)
    requires { Laid (layout_of c) img.old }
    ensures { Wrote (layout_of c) img.new (without_rows calls grants (tables_of c img.old)) }
{
    image::write::drop_rows(img, c, Kept::UnmetCalls, calls);
    image::write::drop_rows(img, c, Kept::WaitingGrants, grants);
}

// The unmet calls `met`, on package n's services, and the waiting grants `due` become bits; the unmet calls `calls` and the waiting
// grants `grants` leave their lists.
// Stays: the masks come one by one; a struct of them is no plainer, since kind 3 has two, each for both, and it would be taken apart here.
pub fn take_in(img: &mut [u8], c: Card, n: usize, met: u32, due: u32, calls: u32, grants: u32)
    requires laid { Laid (layout_of c) img.old }
    requires fit { TakesIn (layout_of c) n met due (tables_of c img.old) }
    ensures { Wrote (layout_of c) img.new (taken_in (layout_of c) n met due calls grants (tables_of c img.old)) }
{
    meet(img, c, n, met);
    settle(img, c, due);
    drop_listed(img, c, calls, grants);
}
