// The places of a service: opened, and cleared.
ghost use Rattle.std.specs.Prelude.{◌<◌};
ghost use Rattle.policy.specs.Lookup.{numbers};
ghost use Rattle.geometry.specs.Geometry.{layout_of, tok_of, tables_of};
ghost use Rattle.image.specs.Laid.{Laid};
ghost use Rattle.image.specs.Wrote.{Wrote};
ghost use Rattle.changes.specs.Places.{opened, bits_without_service, closed, tables_without_service};

use geometry::{Card, Table, Tokens};
use image::Image;

// Package j provides service k with these tokens.
pub fn open_service(img: &mut [u8], c: Card, j: usize, k: usize, t: Tokens)
    requires laid { Laid (layout_of c) img.old }
    requires numbers { (j < (layout_of c).packages) × (k < (layout_of c).services) }
    ensures { Wrote (layout_of c) img.new (opened j k (tok_of t) (tables_of c img.old)) }
{
    image::write::put_tok(img, c, j, k, t);
    let row = Image {
        bytes: img,
        card: c,
    }
    .provided_row(j);
    let with = bits::with_bit(row, k);
    image::write::set_provided(img, c, j, with);
}

// Every bit of service k of package j in the three tables clear.
fn clear_bits(img: &mut [u8], c: Card, j: usize, k: usize)
    requires laid { Laid (layout_of c) img.old }
    requires inside { (j < (layout_of c).packages) × (k < (layout_of c).services) }
    ensures { Wrote (layout_of c) img.new (bits_without_service j k (tables_of c img.old)) }
{
    image::write::clear_column_bit(img, c, Table::Calls, j, k);
    image::write::clear_column_bit(img, c, Table::Grants, j, k);
    image::write::clear_column_bit(img, c, Table::Needs, j, k);
}

// Package j does not provide service k.
fn close_service(img: &mut [u8], c: Card, j: usize, k: usize)
    requires laid { Laid (layout_of c) img.old }
    requires inside { (j < (layout_of c).packages) × (k < (layout_of c).services) }
    ensures { Wrote (layout_of c) img.new (closed j k (tables_of c img.old)) }
{
    let row = Image {
        bytes: img,
        card: c,
    }
    .provided_row(j);
    let rest = bits::without_bit(row, k);
    image::write::set_provided(img, c, j, rest);
}

// The places of service k of package j cleared.
pub fn clear_service(img: &mut [u8], c: Card, j: usize, k: usize)
    requires laid { Laid (layout_of c) img.old }
    requires inside { (j < (layout_of c).packages) × (k < (layout_of c).services) }
    ensures { Wrote (layout_of c) img.new (tables_without_service j k (tables_of c img.old)) }
{
    clear_bits(img, c, j, k);
    image::write::put_tok(img, c, j, k, Tokens::NONE);
    close_service(img, c, j, k);
}
