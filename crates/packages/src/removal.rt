// Kind 2: a package goes; bits on it become rows of the two lists.
ghost use Rattle.std.specs.Prelude.{◌≡◌, ◌≤◌, ◌<◌, length};
ghost use Rattle.policy.specs.Record.{remove as removal};
ghost use Rattle.policy.specs.Causes.{answer};
ghost use Rattle.policy.specs.ShortCheck.{short_remove};
ghost use Rattle.policy.specs.Judge.{look_causes};
ghost use Rattle.policy.specs.Settled.{settled};
ghost use Rattle.answers.specs.Numbers.{answered, Answers};
ghost use Rattle.geometry.specs.Geometry.{layout_of, tables_of};
ghost use Rattle.image.specs.Image.{lay, tables};
ghost use Rattle.image.specs.Laid.{Laid};
ghost use Rattle.image.specs.Wrote.{Wrote};
ghost use Rattle.changes.specs.Asked.{Asked};
ghost use Rattle.changes.specs.Left.{behind, RoomBehind};
ghost use Rattle.packages.specs.Removal.{left_rows, rows_without, list_without, RoomWithout, lists_without, tables_without};
ghost use Rattle.packages.specs.Removal.{bits_without, number_without};

use answers::{Refusal, Verdict};
use changes::left::{by_list, column, first_cause, leave_row};
use geometry::{Card, Kept, Table};
use image::lists::mask_count;
use image::{Image, write};

// How many rows list l has when package n has gone: its own go, and those that it leaves behind are added.
fn rows_after(img: Image, l: Kept, tb: Table, n: usize) -> usize
    requires { n < (lay img).packages }
    ensures { result ≡ rows_without (lay img.entry) l (tables img.entry) tb n }
{
    img.count(l) - mask_count(img.with_number(l, n)) + column(img, tb, n, u16::MAX)
}

// The cause from 8 to 11 for which package n does not go.
fn remove_cause(img: Image, n: usize) -> Result<(), Refusal>
    requires { n < (lay img).packages }
    ensures { answered result ≡ answer (look_causes (short_remove (lay img.entry) (tables img.entry) n)) }
{
    first_cause(
        geometry::capacity(img.card),
        column(img, Table::Needs, n, u16::MAX),
        rows_after(img, Kept::UnmetCalls, Table::Calls, n),
        rows_after(img, Kept::WaitingGrants, Table::Grants, n),
    )
}

// The rows of the others for column n of the table, by package number then service number: calls on package n, whose AID this is, or
// grants to it.
fn leave_rows(img: &mut [u8], c: Card, l: Kept, tb: Table, aid: &[u8], n: usize)
    requires laid { Laid (layout_of c) img.old }
    requires inside { n < (layout_of c).packages }
    requires short { length aid.now ≤ 16 }
    requires room { RoomBehind l (layout_of c) (left_rows (layout_of c) l (tables_of c img.old) tb aid.now n) (tables_of c img.old) }
    ensures { Wrote (layout_of c) img.new
        (behind l (left_rows (layout_of c) l (tables_of c img.old) tb aid.now n) (tables_of c img.old)) }
{
    for i in 0..geometry::packages(c) {
        let row = Image {
            bytes: img,
            card: c,
        }
        .entry(tb, i, n);
        let j = by_list(l, n, i);
        leave_row(img, c, l, aid, j, i, row);
    }
}

// List l without package n's own rows, and with those that it leaves behind.
fn leave_list(img: &mut [u8], c: Card, l: Kept, tb: Table, aid: &[u8], n: usize)
    requires laid { Laid (layout_of c) img.old }
    requires inside { n < (layout_of c).packages }
    requires short { length aid.now ≤ 16 }
    requires room { rows_without (layout_of c) l (tables_of c img.old) tb n ≤ (layout_of c).capacity }
    ensures { Wrote (layout_of c) img.new
        (list_without (layout_of c) l (tables_of c img.old) tb aid.now n) }
{
    let own = Image {
        bytes: img,
        card: c,
    }
    .with_number(l, n);
    write::drop_rows(img, c, l, own);
    leave_rows(img, c, l, tb, aid, n);
}

// Both lists.
fn leave_lists(img: &mut [u8], c: Card, aid: &[u8], n: usize)
    requires laid { Laid (layout_of c) img.old }
    requires inside { n < (layout_of c).packages }
    requires short { length aid.now ≤ 16 }
    requires room { RoomWithout (layout_of c) (tables_of c img.old) n }
    ensures { Wrote (layout_of c) img.new
        (lists_without (layout_of c) (tables_of c img.old) aid.now n) }
{
    leave_list(img, c, Kept::UnmetCalls, Table::Calls, aid, n);
    leave_list(img, c, Kept::WaitingGrants, Table::Grants, aid, n);
}

// Row n and column n of the three tables clear.
fn clear_bits(img: &mut [u8], c: Card, n: usize)
    requires laid { Laid (layout_of c) img.old }
    requires inside { n < (layout_of c).packages }
    ensures { Wrote (layout_of c) img.new (bits_without n (tables_of c img.old)) }
{
    write::clear_cross(img, c, Table::Calls, n);
    write::clear_cross(img, c, Table::Grants, n);
    write::clear_cross(img, c, Table::Needs, n);
}

// Package number n is unused.
fn free_number(img: &mut [u8], c: Card, n: usize)
    requires laid { Laid (layout_of c) img.old }
    requires inside { n < (layout_of c).packages }
    ensures { Wrote (layout_of c) img.new (number_without n (tables_of c img.old)) }
{
    let row = Image {
        bytes: img,
        card: c,
    }
    .used_row();
    write::set_used(img, c, bits::without_bit(row, n));
}

// The places of package n cleared.
fn clear_package(img: &mut [u8], c: Card, n: usize)
    requires laid { Laid (layout_of c) img.old }
    requires inside { n < (layout_of c).packages }
    ensures { Wrote (layout_of c) img.new (tables_without n (tables_of c img.old)) }
{
    clear_bits(img, c, n);
    write::clear_services(img, c, n);
    write::clear_aid(img, c, n);
    free_number(img, c, n);
}

// Kind 2: the package with this AID goes.
pub fn remove(img: &mut [u8], c: Card, own: &[u8]) -> Verdict
    requires { Asked (layout_of c) img.old own.now removal }
    ensures { Answers (settled (layout_of c) img.old own.now removal) result img.new }
{
    let view = Image {
        bytes: img,
        card: c,
    };
    let Some(n) = view.find_package(own) else {
        return Err(Refusal::NotInstalled);
    };
    remove_cause(view, n)?;
    leave_lists(img, c, own, n);
    clear_package(img, c, n);
    Ok(n as u8)
}
