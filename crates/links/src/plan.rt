// What a record of kinds 5 to 8 comes to: found on the image, and not written yet.
ghost use Rattle.std.specs.Prelude.{◌≡◌, ◌<◌, IfOk};
ghost use Rattle.policy.specs.Lookup.{server_of, spot_of};
ghost use Rattle.image.specs.Image.{lay, tables};
ghost use Rattle.image.specs.Laid.{table_of};
ghost use Rattle.image.specs.Read.{asked};
ghost use Rattle.links.specs.Plans.{row_mask, add_row, drop_row, plan_of, BitAt, Fits, Inside, row};
ghost use Rattle.links.specs.Plans.{add_call_plan, remove_call_plan, add_grant_plan, remove_grant_plan};

use crate::link::Link;
use answers::Refusal;
use geometry::{Kept, Table, Tokens};
use image::Image;
use image::read::{Place, Spot};
use record::RowKind;

// One change of the tables, for the package of the record: a bit of its row in a table, or a row of a list.
#[derive(Clone, Copy)]
pub enum Edit {
    Call(Place),
    // the need on it, too
    Uncall(Place),
    Grant(Spot),
    Ungrant(Spot),
    Add(Kept),
    // by a mask
    Drop(Kept, u32),
}

// The number of the package of the record, and the change.
#[derive(Clone, Copy)]
pub struct Plan {
    pub owner: usize,
    pub edit: Edit,
}

// Bit k of a table's entry in row i, column j.
pub fn has(img: Image, tb: Table, i: usize, j: usize, k: usize) -> bool
    requires { BitAt (lay img) i j k }
    ensures { result ≡ table_of tb (tables img.entry) i j k }
{
    bits::is_set(img.entry(tb, i, j).into(), k)
}

impl<'a> Link<'a> {
    // Which rows of a list are this one.
    fn mask(self, l: Kept) -> u32
        ensures { result ≡ row_mask l (tables self.entry.img) self.entry.owner (row self.entry) }
    {
        let alike = self.img.with_row(l, self.other, self.tokens);
        let own = self.img.with_number(l, self.owner);
        alike & own
    }

    // The row in a list, where it is not there yet; `full` where the list has no room.
    fn add(self, l: Kept, full: Refusal) -> Result<Edit, Refusal>
        ensures is { result ≡ add_row (lay self.entry.img) (tables self.entry.img) (row self.entry) l self.entry.owner full }
        ensures fits { IfOk result (λ e. Fits (lay self.entry.img) (tables self.entry.img) self.entry.owner e) }
    {
        if self.mask(l) != 0 {
            return Err(Refusal::Pointless);
        }
        if self.img.count(l) < geometry::capacity(self.img.card) {
            return Ok(Edit::Add(l));
        }
        Err(full)
    }

    // The row out of a list, where it is there.
    fn drop_from(self, l: Kept) -> Result<Edit, Refusal>
        ensures is { result ≡ drop_row (lay self.entry.img) (tables self.entry.img) (row self.entry) l self.entry.owner }
        ensures fits { IfOk result (λ e. Fits (lay self.entry.img) (tables self.entry.img) self.entry.owner e) }
    {
        let mask = self.mask(l);
        if mask == 0 {
            return Err(Refusal::Pointless);
        }
        Ok(Edit::Drop(l, mask))
    }

    // What kind 5 comes to.
    fn add_call(self) -> Result<Edit, Refusal>
        ensures is { result ≡ add_call_plan (lay self.entry.img) (tables self.entry.img) (row self.entry) self.entry.owner
            (server_of (lay self.entry.img) (tables self.entry.img) (row self.entry)) }
        ensures fits { IfOk result (λ e. Fits (lay self.entry.img) (tables self.entry.img) self.entry.owner e) }
    {
        let Some(p) = self.img.find_server(self.other, self.tokens) else {
            return self.add(Kept::UnmetCalls, Refusal::UnmetFull);
        };
        if has(self.img, Table::Calls, self.owner, p.callee, p.service) {
            return Err(Refusal::Pointless);
        }
        if !has(self.img, Table::Grants, p.callee, self.owner, p.service) {
            return Err(Refusal::Ungranted);
        }
        Ok(Edit::Call(p))
    }

    // What kind 6 comes to.
    fn remove_call(self) -> Result<Edit, Refusal>
        ensures is { result ≡ remove_call_plan (lay self.entry.img) (tables self.entry.img) (row self.entry) self.entry.owner
            (server_of (lay self.entry.img) (tables self.entry.img) (row self.entry)) }
        ensures fits { IfOk result (λ e. Fits (lay self.entry.img) (tables self.entry.img) self.entry.owner e) }
    {
        let Some(p) = self.img.find_server(self.other, self.tokens) else {
            return self.drop_from(Kept::UnmetCalls);
        };
        if !has(self.img, Table::Calls, self.owner, p.callee, p.service) {
            return Err(Refusal::Pointless);
        }
        Ok(Edit::Uncall(p))
    }

    // What kind 7 comes to.
    fn add_grant(self) -> Result<Edit, Refusal>
        ensures is { result ≡ add_grant_plan (lay self.entry.img) (tables self.entry.img) (row self.entry) self.entry.owner
            (spot_of (lay self.entry.img) (tables self.entry.img) self.entry.owner (row self.entry)) }
        ensures fits { IfOk result (λ e. Fits (lay self.entry.img) (tables self.entry.img) self.entry.owner e) }
    {
        let Some(p) = self.img.find_spot(self.owner, self.other, self.tokens) else {
            return self.add(Kept::WaitingGrants, Refusal::WaitingFull);
        };
        if has(self.img, Table::Grants, self.owner, p.caller, p.service) {
            return Err(Refusal::Pointless);
        }
        Ok(Edit::Grant(p))
    }

    // What kind 8 comes to.
    fn remove_grant(self) -> Result<Edit, Refusal>
        ensures is { result ≡ remove_grant_plan (lay self.entry.img) (tables self.entry.img) (row self.entry) self.entry.owner
            (spot_of (lay self.entry.img) (tables self.entry.img) self.entry.owner (row self.entry)) }
        ensures fits { IfOk result (λ e. Fits (lay self.entry.img) (tables self.entry.img) self.entry.owner e) }
    {
        let Some(p) = self.img.find_spot(self.owner, self.other, self.tokens) else {
            return self.drop_from(Kept::WaitingGrants);
        };
        if !has(self.img, Table::Grants, self.owner, p.caller, p.service) {
            return Err(Refusal::Pointless);
        }
        if has(self.img, Table::Calls, p.caller, self.owner, p.service) {
            return Err(Refusal::Ungranted);
        }
        Ok(Edit::Ungrant(p))
    }
}

// What a record of kinds 5 to 8 comes to: the row of the package `own` with the AID `other` and these tokens.
pub fn plan_row(
    img: Image,
    own: &[u8],
    other: &[u8],
    t: Tokens,
    k: RowKind,
) -> Result<Plan, Refusal>
    ensures is { result ≡ plan_of (lay img.entry) (tables img.entry) own.now (asked other.now t) k }
    ensures inside { Inside (lay img.entry) (tables img.entry) result }
{
    let owner = img.find_package(own).ok_or(Refusal::NotInstalled)?;
    let link = Link {
        img,
        owner,
        other,
        tokens: t,
    };
    let edit = match k {
        RowKind::AddCall => link.add_call()?,
        RowKind::RemoveCall => link.remove_call()?,
        RowKind::AddGrant => link.add_grant()?,
        RowKind::RemoveGrant => link.remove_grant()?,
    };
    Ok(Plan { owner, edit })
}
