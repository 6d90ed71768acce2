// The check of an image: whether it is sound, and how many packages it holds.
#![tactic(auto)]

ghost use Rattle.std.specs.Prelude.{◌≡◌, length};
ghost use Rattle.policy.specs.Layout.{narrow, size as size_of};
ghost use Rattle.policy.specs.Lookup.{used_numbers};
ghost use Rattle.policy.specs.Sound.{sound};
ghost use Rattle.geometry.specs.Geometry.{layout_of, tables_of};
ghost use Rattle.geometry.specs.declared.Kept.TheVariants.{WaitingGrants};
ghost use Rattle.soundness.specs.Check.{is_early, list_end, sized_ok};

use geometry::{Card, Kept};
use packages::Front;
use rules::Rules;

mod bytes;
mod lines;
mod lists;
mod packages;
mod rules;

// The image has its version's length and first bytes, and the rest passes by its version's rules.
#[tactic(auto, unfolding(crate::specs::Check::check_by))]
fn check_ok(img: &[u8], c: Card, size: usize, head: [u8; 3], rules: Rules) -> bool
    requires { size ≡ list_end (layout_of c) (is_early rules) WaitingGrants }
    ensures { result ≡ sized_ok (layout_of c) img.now size head (is_early rules) }
{
    if img.len() != size {
        return false;
    }
    let front = Front { img, c };
    img[..3] == head[..]
        && front.packages_ok()
        && front.lines_ok()
        && lists::list_ok(img, c, Kept::UnmetCalls, rules)
        && lists::list_ok(img, c, Kept::WaitingGrants, rules)
}

// The image is sound.
pub fn is_sound(img: &[u8], c: Card) -> bool
    ensures { result ≡ sound (layout_of c) img.now }
{
    check_ok(img, c, geometry::size(c), geometry::header(c), Rules::Early)
}

// The image is a sound one of version 01: what stands before the waiting grants stands as in version 02.
pub fn is_sound_old(img: &[u8]) -> bool
    ensures { result ≡ sound narrow img.now }
{
    check_ok(
        img,
        Card::Small,
        geometry::old_size(),
        geometry::old_header(),
        Rules::Before,
    )
}

// How many package numbers are used.
pub fn count_used(img: &[u8], c: Card) -> usize
    requires { length img.now ≡ size_of (layout_of c) }
    ensures { result ≡ length (used_numbers (layout_of c) (tables_of c img.now)) }
{
    bits::count(geometry::row_at(img, c, 3))
}
