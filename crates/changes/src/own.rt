// The rows of a package's own contract: its calls, grants and needs, one after another.
ghost use Rattle.std.specs.Prelude.{◌≡◌, not, ◌+◌, ◌≤◌, ◌<◌, T, length};
ghost use Rattle.std.proofs.Math.Option.{none};
ghost use Rattle.policy.specs.Lookup.{server_of, spot_of};
ghost use Rattle.policy.specs.Draft.{add_call_at, add_grant_at};
ghost use Rattle.geometry.specs.Geometry.{layout_of, tables_of};
ghost use Rattle.image.specs.Laid.{Laid};
ghost use Rattle.image.specs.Wrote.{Wrote};
ghost use Rattle.record.specs.Listed.{row_of, rows_of};
ghost use Rattle.changes.specs.Own.{need_at, served, own_rows, OwnFits};

use geometry::{Card, Kept, Table};
use image::Image;
use record::list::{Lists, Row};

// A call of package n: a bit where its service is on the card, else an unmet call.
fn call(img: &mut [u8], c: Card, n: usize, r: Row)
    requires laid { Laid (layout_of c) img.old }
    requires inside { n < (layout_of c).packages }
    requires room { server_of (layout_of c) (tables_of c img.old) (row_of r) ≡ none
        → length (tables_of c img.old).unmet < (layout_of c).capacity }
    ensures { Wrote (layout_of c) img.new (add_call_at (layout_of c) (tables_of c img.old) n (row_of r.entry)
        (server_of (layout_of c) (tables_of c img.old) (row_of r.entry))).tables }
{
    let view = Image {
        bytes: img,
        card: c,
    };
    match view.find_server(r.other.bytes, r.tokens) {
        Some(p) => image::write::put_bit(img, c, Table::Calls, n, p.callee, p.service, true),
        None => image::write::append_row(img, c, Kept::UnmetCalls, r.other.bytes, r.tokens, n),
    }
}

// A grant of package n: a bit where caller and service are on the card, else it waits.
fn grant(img: &mut [u8], c: Card, n: usize, r: Row)
    requires laid { Laid (layout_of c) img.old }
    requires inside { n < (layout_of c).packages }
    requires room { spot_of (layout_of c) (tables_of c img.old) n (row_of r) ≡ none
        → length (tables_of c img.old).waiting < (layout_of c).capacity }
    ensures { Wrote (layout_of c) img.new (add_grant_at (layout_of c) (tables_of c img.old) n (row_of r.entry)
        (spot_of (layout_of c) (tables_of c img.old) n (row_of r.entry))).tables }
{
    let view = Image {
        bytes: img,
        card: c,
    };
    match view.find_spot(n, r.other.bytes, r.tokens) {
        Some(p) => image::write::put_bit(img, c, Table::Grants, n, p.caller, p.service, true),
        None => image::write::append_row(img, c, Kept::WaitingGrants, r.other.bytes, r.tokens, n),
    }
}

// A need of package n: its service is on the card.
fn need(img: &mut [u8], c: Card, n: usize, r: Row)
    requires laid { Laid (layout_of c) img.old }
    requires inside { n < (layout_of c).packages }
    requires there { T (served (layout_of c) (tables_of c img.old) (row_of r)) }
    ensures { Wrote (layout_of c) img.new (need_at (tables_of c img.old) n
        (server_of (layout_of c) (tables_of c img.old) (row_of r.entry))) }
{
    let view = Image {
        bytes: img,
        card: c,
    };
    let p = view.find_server(r.other.bytes, r.tokens).unwrap();
    image::write::put_bit(img, c, Table::Needs, n, p.callee, p.service, true);
}

// The rows of the lists are those of package n: its calls, grants and needs.
pub fn put_rows(img: &mut [u8], c: Card, n: usize, l: Lists)
    requires laid { Laid (layout_of c) img.old }
    requires fit { OwnFits (layout_of c) n (rows_of l.calls) (rows_of l.grants) (rows_of l.needs) (tables_of c img.old) }
    ensures { Wrote (layout_of c) img.new (own_rows (layout_of c) n (rows_of l.entry.calls) (rows_of l.entry.grants)
        (rows_of l.entry.needs) (tables_of c img.old)) }
{
    for r in l.calls {
        call(img, c, n, r);
    }
    for r in l.grants {
        grant(img, c, n, r);
    }
    for r in l.needs {
        need(img, c, n, r);
    }
}
