// Kinds 5 to 8: one call or grant of a package. A plan first, then the writes.
#![tactic(auto)]

ghost use Rattle.std.specs.Prelude.{◌≤◌, ◌<◌, length};
ghost use Rattle.policy.specs.Settled.{settled};
ghost use Rattle.geometry.specs.Geometry.{layout_of, tables_of};
ghost use Rattle.image.specs.Laid.{Laid};
ghost use Rattle.image.specs.Wrote.{Wrote};
ghost use Rattle.image.specs.Read.{asked};
ghost use Rattle.record.specs.Meaning.{change_of};
ghost use Rattle.answers.specs.Numbers.{Answers};
ghost use Rattle.changes.specs.Asked.{Asked};
ghost use Rattle.links.specs.Plans.{edited, Fits};

use crate::plan::{Edit, Plan};
use answers::Verdict;
use geometry::{Card, Table, Tokens};
use image::Image;
use record::RowKind;

pub mod link;
pub mod plan;

// Makes the change; a row that is added to a list has the AID `other`, and these tokens.
fn apply(img: &mut [u8], c: Card, owner: usize, other: &[u8], t: Tokens, edit: Edit)
    requires laid { Laid (layout_of c) img.old }
    requires inside { owner < (layout_of c).packages }
    requires short { length other.now ≤ 16 }
    requires fits { Fits (layout_of c) (tables_of c img.old) owner edit }
    ensures { Wrote (layout_of c) img.new
        (edited (tables_of c img.old) (asked other.now t) owner edit) }
{
    match edit {
        Edit::Call(p) => image::write::put_bit(
            img,
            c,
            Table::Calls,
            owner,
            p.callee,
            p.service,
            true,
        ),
        Edit::Uncall(p) => {
            image::write::put_bit(img, c, Table::Needs, owner, p.callee, p.service, false);
            image::write::put_bit(img, c, Table::Calls, owner, p.callee, p.service, false);
        }
        Edit::Grant(p) => image::write::put_bit(
            img,
            c,
            Table::Grants,
            owner,
            p.caller,
            p.service,
            true,
        ),
        Edit::Ungrant(p) => image::write::put_bit(
            img,
            c,
            Table::Grants,
            owner,
            p.caller,
            p.service,
            false,
        ),
        Edit::Add(l) => image::write::append_row(img, c, l, other, t, owner),
        Edit::Drop(l, mask) => image::write::drop_rows(img, c, l, mask),
    }
}

// Kinds 5 to 8: the row of the package `own` with the AID `other` and these tokens comes, or goes.
pub fn change(img: &mut [u8], c: Card, own: &[u8], other: &[u8], t: Tokens, k: RowKind) -> Verdict
    requires { Asked (layout_of c) img.old own.now (change_of k (asked other.now t)) }
    ensures { Answers (settled (layout_of c) img.old own.now (change_of k (asked other.now t))) result img.new }
{
    let view = Image {
        bytes: img,
        card: c,
    };
    let Plan { owner, edit } = plan::plan_row(view, own, other, t, k)?;
    apply(img, c, owner, other, t, edit);
    Ok(owner as u8)
}
