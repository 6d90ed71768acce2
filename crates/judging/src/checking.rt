// Checking an image.
ghost use Rattle.policy.specs.Judge.{check};
ghost use Rattle.answers.specs.Numbers.{Answers};
ghost use Rattle.geometry.specs.Geometry.{layout_of};

use answers::{Refusal, Verdict};
use geometry::Card;

// Accepted with the count of used numbers where the image is sound, for any bytes of any length.
pub fn check_image(img: &[u8], c: Card) -> Verdict
    ensures { Answers (check (layout_of c) img.now) result img.now }
{
    if !soundness::is_sound(img, c) {
        return Err(Refusal::Unsound);
    }
    Ok(soundness::count_used(img, c) as u8)
}
