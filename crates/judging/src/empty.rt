// Writing the empty image.
ghost use Rattle.policy.specs.Judge.{write_empty};
ghost use Rattle.answers.specs.Numbers.{Answers};
ghost use Rattle.geometry.specs.Geometry.{layout_of};

use answers::{Refusal, Verdict};
use geometry::Card;

// The empty image into a buffer of the card's size; a buffer of another size is left as it is.
pub fn write_empty(img: &mut [u8], c: Card) -> Verdict
    ensures { Answers (write_empty (layout_of c) img.old) result img.new }
{
    if img.len() != geometry::size(c) {
        return Err(Refusal::Unsound);
    }
    let (head, rest) = img.split_at_mut(3);
    head.copy_from_slice(&geometry::header(c));
    rest.fill(0);
    Ok(0)
}
