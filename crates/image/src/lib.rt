// A laid image: reading its places, its two lists, and writing.
#![tactic(auto)]

ghost use Rattle.image.specs.Laid.{LaidOn};

use geometry::Card;

pub mod lists;
pub mod read;
pub mod write;

// The bytes of a card's image, which is laid.
#[derive(Clone, Copy)]
pub struct Image<'a> {
    pub bytes: &'a [u8],
    pub card: Card,
    pub ghost laid: { LaidOn card bytes.now },
}
