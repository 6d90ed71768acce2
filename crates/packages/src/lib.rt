// Kinds 1, 2 and 11: a package comes, goes, and gets a new contract. A contract is decided first, and written after.
#![tactic(auto)]

ghost use Rattle.policy.specs.Settled.{settled};
ghost use Rattle.answers.specs.Numbers.{Answers};
ghost use Rattle.geometry.specs.Geometry.{layout_of};
ghost use Rattle.record.specs.Listed.{change_by};
ghost use Rattle.changes.specs.Asked.{Asked};

use answers::Verdict;
use geometry::Card;
use image::Image;
use record::ContractKind;
use record::list::Lists;

pub mod conditions;
pub mod decide;
pub mod removal;
pub mod write;

// Kinds 1 and 11: the package `own` with the lists of the record, or these in place of its contract.
pub fn bring(img: &mut [u8], c: Card, own: &[u8], k: ContractKind, l: Lists) -> Verdict
    requires { Asked (layout_of c) img.old own.now (change_by k l) }
    ensures { Answers (settled (layout_of c) img.old own.now (change_by k l.entry)) result img.new }
{
    let b = decide::contract(
        Image {
            bytes: img,
            card: c,
        },
        own,
        k,
        l,
    )?;
    write::contract(img, c, b, own, k, l);
    Ok(b.at as u8)
}
