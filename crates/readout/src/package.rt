// A package of a laid image by its number, and the AIDs of the image with their lengths before them.
ghost use Rattle.std.specs.Prelude.{◌≡◌, ◌+◌, ◌≤◌, ◌<◌, length, get_or};
ghost use Rattle.policy.specs.Layout.{aid_size};
ghost use Rattle.policy.specs.Judge.{aid_bytes};
ghost use Rattle.image.specs.Image.{lay, tables};
ghost use Rattle.image.specs.Read.{aid_in, items_of, item_aid, item_at};

use geometry::Kept;
use image::Image;

#[derive(Clone, Copy)]
pub struct Package<'a> {
    pub img: Image<'a>,
    pub n: usize,
    pub ghost inside: { n < (lay img).packages },
}

// The AID in the place at `from`.
fn aid_at(img: &[u8], from: usize) -> &[u8]
    requires { (from + aid_size ≤ length img.now) × (get_or img.now from 0 ≤ 16) }
    ensures { result.now ≡ aid_bytes (aid_in img.now from) }
{
    let len = img[from] as usize;
    &img[from..from + (1 + len)]
}

// That of package n.
pub fn aid<'a>(img: Image<'a>, n: usize) -> &'a [u8]
    requires { n < (lay img).packages }
    ensures { result.now ≡ aid_bytes ((tables img.entry).aid n) }
{
    aid_at(img.bytes, geometry::aid_at(img.card, n))
}

// That of row r of a list.
pub fn item_aid<'a>(img: Image<'a>, l: Kept, r: usize) -> &'a [u8]
    requires { r < length (items_of l (tables img)) }
    ensures { result.now ≡ aid_bytes (item_aid l (item_at l (tables img.entry) r)) }
{
    aid_at(img.bytes, geometry::place_at(img.card, l, r))
}
