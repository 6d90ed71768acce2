// Writing the places of a laid image: afterwards it is laid, and its tables are those before with one part changed.
// Stays: an image and a card apart; a struct with a `&mut` would have to say at every write that the card is the same.
ghost use Rattle.std.specs.Prelude.{◌≡◌, true, false, [], ◌∷◌, ◌++◌, ◌+◌, ◌^◌, ◌≤◌, ◌<◌, length};
ghost use Rattle.policy.specs.Tables.{bit, row_of, write_aid};
ghost use Rattle.policy.specs.Draft.{put, put3};
ghost use Rattle.geometry.specs.Geometry.{layout_of, tok_of, tables_of};
ghost use Rattle.rows.specs.Area.{over, HasRoom, keep_rows, appended};
ghost use Rattle.image.specs.Laid.{Laid, table_of, with_used, with_aid, with_tok, with_provides, with_table, with_entry, with_items};
ghost use Rattle.image.specs.Read.{items_of, item, tail_of};
ghost use Rattle.image.specs.Wrote.{Wrote, without_row, without_package, row_in, without_service, without_services};

use geometry::{Card, Kept, Table, Tokens};

// The entry of a table in row i, column j.
pub fn set_entry(img: &mut [u8], c: Card, tb: Table, i: usize, j: usize, row: u16)
    requires laid { Laid (layout_of c) img.old }
    requires inside { (i < (layout_of c).packages) × (j < (layout_of c).packages) }
    requires fits { row < 2 ^ (layout_of c).services }
    ensures { Wrote (layout_of c) img.new (with_entry tb i j (bit row) (tables_of c img.old)) }
{
    let at = geometry::entry_at(c, tb, i, j);
    geometry::put_row(img, c, at, row);
}

// The row with bit k set, or clear.
fn row_with(row: u16, k: usize, v: bool) -> u16
    requires { k < 16 }
    ensures { result ≡ row_of 16 (put k v (bit row)) }
{
    if v {
        bits::with_bit(row, k)
    } else {
        bits::without_bit(row, k)
    }
}

// Bit k of that entry set, or clear.
pub fn put_bit(img: &mut [u8], c: Card, tb: Table, i: usize, j: usize, k: usize, v: bool)
    requires laid { Laid (layout_of c) img.old }
    requires inside { (i < (layout_of c).packages) × (j < (layout_of c).packages) × (k < (layout_of c).services) }
    ensures { Wrote (layout_of c) img.new
        (with_table tb (put3 i j k v (table_of tb (tables_of c img.old))) (tables_of c img.old)) }
{
    let at = geometry::entry_at(c, tb, i, j);
    let row = geometry::row_at(img, c, at);
    geometry::put_row(img, c, at, row_with(row, k, v));
}

// The used package numbers.
pub fn set_used(img: &mut [u8], c: Card, row: u16)
    requires laid { Laid (layout_of c) img.old }
    requires fits { row < 2 ^ (layout_of c).packages }
    ensures { Wrote (layout_of c) img.new (with_used (bit row) (tables_of c img.old)) }
{
    geometry::put_row(img, c, 3, row);
}

// The services that package j provides.
pub fn set_provided(img: &mut [u8], c: Card, j: usize, row: u16)
    requires laid { Laid (layout_of c) img.old }
    requires inside { j < (layout_of c).packages }
    requires fits { row < 2 ^ (layout_of c).services }
    ensures { Wrote (layout_of c) img.new (with_provides j (bit row) (tables_of c img.old)) }
{
    let at = geometry::prov_at(c, j);
    geometry::put_row(img, c, at, row);
}

// The tokens of service k of package j.
pub fn put_tok(img: &mut [u8], c: Card, j: usize, k: usize, t: Tokens)
    requires laid { Laid (layout_of c) img.old }
    requires inside { (j < (layout_of c).packages) × (k < (layout_of c).services) }
    ensures { Wrote (layout_of c) img.new (with_tok j k (tok_of t) (tables_of c img.old)) }
{
    let at = geometry::tok_at(c, j, k);
    img[at] = t.interface;
    img[at + 1] = t.method;
}

// An AID's place: length, bytes, zero fill.
fn put_slot(img: &mut [u8], at: usize, aid: &[u8])
    requires { (at + 17 ≤ length img.old) × (length aid.now ≤ 16) }
    ensures { img.new ≡ over at (write_aid aid.now) img.old }
{
    let n = aid.len();
    img[at] = n as u8;
    rows::put(img, at + 1, aid);
    rows::clear(img, at + 1 + n, 16 - n);
}

// The AID of package n.
pub fn put_aid(img: &mut [u8], c: Card, n: usize, aid: &[u8])
    requires laid { Laid (layout_of c) img.old }
    requires inside { n < (layout_of c).packages }
    requires short { length aid.now ≤ 16 }
    ensures { Wrote (layout_of c) img.new (with_aid n aid.now (tables_of c img.old)) }
{
    let at = geometry::aid_at(c, n);
    put_slot(img, at, aid);
}

// No AID for package n.
pub fn clear_aid(img: &mut [u8], c: Card, n: usize)
    requires laid { Laid (layout_of c) img.old }
    requires inside { n < (layout_of c).packages }
    ensures { Wrote (layout_of c) img.new (with_aid n [] (tables_of c img.old)) }
{
    let at = geometry::aid_at(c, n);
    img[at..at + 17].fill(0);
}

// A row after the last one of a list area: an AID's place, then `tail`.
fn append(area: &mut [u8], aid: &[u8], tail: &[u8])
    requires short { (length aid.now ≤ 16) × (length tail.now ≤ 3) }
    requires room { HasRoom (17 + length tail.now) (write_aid aid.now ++ tail.now) area.old }
    ensures { area.new
        ≡ appended (17 + length tail.now) (write_aid aid.now ++ tail.now) area.old }
{
    let mut row = [0u8; 20];
    put_slot(&mut row, 0, aid);
    let width = 17 + tail.len();
    row[17..width].copy_from_slice(tail);
    rows::append_row(area, width, &row[..width]);
}

// What follows the AID in a row of a list.
fn tail(l: Kept, t: Tokens, number: u8) -> [u8; 3]
    ensures { result ≡ tail_of l (tok_of t) number }
{
    match l {
        Kept::UnmetCalls => [t.interface, t.method, number],
        Kept::WaitingGrants => [number, t.interface, t.method],
    }
}

// One row more: package number `number` calls the service of the package `aid` with these tokens, or grants its own with them to the
// package `aid`.
pub fn append_row(img: &mut [u8], c: Card, l: Kept, aid: &[u8], t: Tokens, number: usize)
    requires laid { Laid (layout_of c) img.old }
    requires room { length (items_of l (tables_of c img.old)) < (layout_of c).capacity }
    requires short { length aid.now ≤ 16 }
    requires inside { number < (layout_of c).packages }
    ensures { Wrote (layout_of c) img.new (with_items l (items_of l (tables_of c img.old)
        ++ (item l aid.now (tok_of t) number ∷ [])) (tables_of c img.old)) }
{
    let at = geometry::list_at(c, l);
    let end = geometry::list_end(c, l);
    let rest = tail(l, t, number as u8);
    append(&mut img[at..end], aid, &rest);
}

// The rows of a list whose bit of the mask is clear, closed up in order.
pub fn drop_rows(img: &mut [u8], c: Card, l: Kept, mask: u32)
    requires { Laid (layout_of c) img.old }
    ensures { Wrote (layout_of c) img.new
        (with_items l (keep_rows mask (items_of l (tables_of c img.old))) (tables_of c img.old)) }
{
    let at = geometry::list_at(c, l);
    let end = geometry::list_end(c, l);
    let width = geometry::row_size(c, l);
    rows::drop_rows(&mut img[at..end], width, mask);
}

// Row n of a table clear.
pub fn clear_row(img: &mut [u8], c: Card, tb: Table, n: usize)
    requires laid { Laid (layout_of c) img.old }
    requires inside { n < (layout_of c).packages }
    ensures { Wrote (layout_of c) img.new
        (with_table tb (without_row n (table_of tb (tables_of c img.old))) (tables_of c img.old)) }
{
    for x in 0..geometry::packages(c) {
        set_entry(img, c, tb, n, x, 0);
    }
}

// Row n and column n of a table clear.
pub fn clear_cross(img: &mut [u8], c: Card, tb: Table, n: usize)
    requires laid { Laid (layout_of c) img.old }
    requires inside { n < (layout_of c).packages }
    ensures { Wrote (layout_of c) img.new
        (with_table tb (without_package n (table_of tb (tables_of c img.old))) (tables_of c img.old)) }
{
    clear_row(img, c, tb, n);
    for x in 0..geometry::packages(c) {
        set_entry(img, c, tb, x, n, 0);
    }
}

// The row of a caller and a callee in a table. Their column is the row of the two exchanged.
fn row_in(tb: Table, caller: usize, callee: usize) -> usize
    ensures { result ≡ row_in tb caller callee }
{
    match tb {
        Table::Calls => caller,
        Table::Grants => callee,
        Table::Needs => caller,
    }
}

// Every bit of service k of package j in a table clear.
pub fn clear_column_bit(img: &mut [u8], c: Card, tb: Table, j: usize, k: usize)
    requires laid { Laid (layout_of c) img.old }
    requires inside { (j < (layout_of c).packages) × (k < (layout_of c).services) }
    ensures { Wrote (layout_of c) img.new
        (with_table tb (without_service tb j k (table_of tb (tables_of c img.old)))
        (tables_of c img.old)) }
{
    for x in 0..geometry::packages(c) {
        put_bit(img, c, tb, row_in(tb, x, j), row_in(tb, j, x), k, false);
    }
}

// The services of package n and their tokens clear.
pub fn clear_services(img: &mut [u8], c: Card, n: usize)
    requires laid { Laid (layout_of c) img.old }
    requires inside { n < (layout_of c).packages }
    ensures { Wrote (layout_of c) img.new (without_services n (tables_of c img.old)) }
{
    set_provided(img, c, n, 0);
    for k in 0..geometry::services(c) {
        put_tok(img, c, n, k, Tokens::NONE);
    }
}
