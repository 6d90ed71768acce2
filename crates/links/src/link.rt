// A row of a package of the card, of a record of kinds 5 to 8.
ghost use Rattle.std.specs.Prelude.{◌<◌};
ghost use Rattle.image.specs.Image.{lay};

use geometry::Tokens;
use image::Image;

// The package's number, the other end's AID and the tokens.
#[derive(Clone, Copy)]
pub struct Link<'a> {
    pub img: Image<'a>,
    pub owner: usize,
    pub other: &'a [u8],
    pub tokens: Tokens,
    pub ghost inside: { owner < (lay img).packages },
}
