// Kind 4: a service goes; bits on it become rows of the two lists.
ghost use Rattle.std.specs.Prelude.{◌≡◌, ◌<◌};
ghost use Rattle.policy.specs.Record.{remove_service};
ghost use Rattle.policy.specs.Causes.{answer};
ghost use Rattle.policy.specs.Tables.{bit, row_of};
ghost use Rattle.policy.specs.Lookup.{numbers};
ghost use Rattle.policy.specs.ShortCheck.{count, short_remove_service};
ghost use Rattle.policy.specs.Judge.{look_causes};
ghost use Rattle.policy.specs.Settled.{settled};
ghost use Rattle.answers.specs.Numbers.{answered, Answers};
ghost use Rattle.geometry.specs.Geometry.{layout_of, tok_of, tables_of};
ghost use Rattle.image.specs.Image.{lay, tables};
ghost use Rattle.image.specs.Laid.{Laid};
ghost use Rattle.image.specs.Wrote.{Wrote};
ghost use Rattle.changes.specs.Asked.{Asked};
ghost use Rattle.changes.specs.Left.{behind, RoomBehind, left_one};
ghost use Rattle.services.specs.Removal.{between as bits_between, left_bit, left_bits, rows_with_bits, RoomWithoutService};
ghost use Rattle.services.specs.Removal.{lists_without_service};

use answers::{Refusal, Verdict};
use geometry::{Card, Kept, Table, Tokens};
use image::Image;

// ---- kind 4
// The bits of a table for the services of package j and package i, which calls or needs them, or has them granted.
fn between(img: Image, tb: Table, j: usize, i: usize) -> u16
    requires { (j < (lay img).packages) × (i < (lay img).packages) }
    ensures { result ≡ row_of (lay img.entry).services (bits_between tb (tables img.entry) j i) }
{
    match tb {
        Table::Calls | Table::Needs => img.entry(tb, i, j),
        Table::Grants => img.entry(tb, j, i),
    }
}

// For how many packages a table has the bit of service k of package j.
fn holders(img: Image, tb: Table, j: usize, k: usize) -> usize
    requires { (j < (lay img).packages) × (k < (lay img).services) }
    ensures { result ≡ count (λ i. bits_between tb (tables img.entry) j i k) (numbers (lay img.entry)) }
{
    (0..geometry::packages(img.card))
        .map(|i| bits::is_set(between(img, tb, j, i).into(), k) as usize)
        .sum()
}

// How many rows list l has when service k of package j has gone: a row for each of its bits is added.
fn rows_with(img: Image, l: Kept, tb: Table, j: usize, k: usize) -> usize
    requires { (j < (lay img).packages) × (k < (lay img).services) }
    ensures { result ≡ rows_with_bits (lay img.entry) l (tables img.entry) tb j k }
{
    img.count(l) + holders(img, tb, j, k)
}

// Refused by a cause from 9 to 11 where service k of package j does not go.
fn service_cause(img: Image, j: usize, k: usize) -> Result<(), Refusal>
    requires { (j < (lay img).packages) × (k < (lay img).services) }
    ensures { answered result ≡ answer (look_causes (short_remove_service (lay img.entry) (tables img.entry) j k)) }
{
    let most = geometry::capacity(img.card);
    let needed = holders(img, Table::Needs, j, k);
    let unmet = rows_with(img, Kept::UnmetCalls, Table::Calls, j, k);
    let waiting = rows_with(img, Kept::WaitingGrants, Table::Grants, j, k);
    changes::left::first_cause(most, needed, unmet, waiting)
}

// One row more of list l, as in `leave_one`, with the AID of package m.
fn leave_named(img: &mut [u8], c: Card, l: Kept, m: usize, j: usize, i: usize, row: u16, k: usize)
    requires laid { Laid (layout_of c) img.old }
    requires inside { (j < (layout_of c).packages) × (i < (layout_of c).packages) × (k < (layout_of c).services) }
    requires named { m < (layout_of c).packages }
    requires room { RoomBehind l (layout_of c) (left_one l (tables_of c img.old) ((tables_of c img.old).aid m) j i (bit row) k)
        (tables_of c img.old) }
    ensures { Wrote (layout_of c) img.new
        (behind l (left_one l (tables_of c img.old) ((tables_of c img.old).aid m) j i (bit row) k)
        (tables_of c img.old)) }
{
    let view = Image {
        bytes: img,
        card: c,
    };
    let place = view.aid_place(m);
    let n = place[0] as usize;
    changes::left::leave_one(img, c, l, &place[1..=n], j, i, row, k);
}

// The row for service k of package j and package i, where the table has the bit: i's call on j, or j's grant to i.
fn leave_bit(img: &mut [u8], c: Card, l: Kept, tb: Table, j: usize, k: usize, i: usize)
    requires laid { Laid (layout_of c) img.old }
    requires inside { (j < (layout_of c).packages) × (i < (layout_of c).packages) × (k < (layout_of c).services) }
    requires room { RoomBehind l (layout_of c) (left_bit (layout_of c) l (tables_of c img.old) tb j k i) (tables_of c img.old) }
    ensures { Wrote (layout_of c) img.new
        (behind l (left_bit (layout_of c) l (tables_of c img.old) tb j k i) (tables_of c img.old)) }
{
    let view = Image {
        bytes: img,
        card: c,
    };
    let row = between(view, tb, j, i);
    let named = changes::left::by_list(l, j, i);
    let owner = changes::left::by_list(l, i, j);
    leave_named(img, c, l, named, j, owner, row, k);
}

// Those for all packages, by number.
fn leave_bits(img: &mut [u8], c: Card, l: Kept, tb: Table, j: usize, k: usize)
    requires laid { Laid (layout_of c) img.old }
    requires inside { (j < (layout_of c).packages) × (k < (layout_of c).services) }
    requires room { RoomBehind l (layout_of c) (left_bits (layout_of c) l (tables_of c img.old) tb j k) (tables_of c img.old) }
    ensures { Wrote (layout_of c) img.new
        (behind l (left_bits (layout_of c) l (tables_of c img.old) tb j k) (tables_of c img.old)) }
{
    for i in 0..geometry::packages(c) {
        leave_bit(img, c, l, tb, j, k, i);
    }
}

// The two lists with the calls on service k of package j, and with its grants.
fn leave_service(img: &mut [u8], c: Card, j: usize, k: usize)
    requires laid { Laid (layout_of c) img.old }
    requires inside { (j < (layout_of c).packages) × (k < (layout_of c).services) }
    requires room { RoomWithoutService (layout_of c) (tables_of c img.old) j k }
    ensures { Wrote (layout_of c) img.new (lists_without_service (layout_of c) (tables_of c img.old) j k) }
{
    leave_bits(img, c, Kept::UnmetCalls, Table::Calls, j, k);
    leave_bits(img, c, Kept::WaitingGrants, Table::Grants, j, k);
}

// Kind 4: the service with these tokens of the package with this AID goes.
pub fn remove_service(img: &mut [u8], c: Card, own: &[u8], t: Tokens) -> Verdict
    requires { Asked (layout_of c) img.old own.now (remove_service (tok_of t)) }
    ensures { Answers (settled (layout_of c) img.old own.now (remove_service (tok_of t))) result img.new }
{
    let view = Image {
        bytes: img,
        card: c,
    };
    let j = view.find_package(own).ok_or(Refusal::NotInstalled)?;
    let k = view.find_service(j, t).ok_or(Refusal::Pointless)?;
    service_cause(view, j, k)?;
    leave_service(img, c, j, k);
    changes::service::clear_service(img, c, j, k);
    Ok(j as u8)
}
