// Reads a record, or says that it is malformed; and says whether it is proper.
#![tactic(auto)]

ghost use Rattle.std.specs.Prelude.{◌≡◌};
ghost use Rattle.policy.specs.Record.{first_aid};
ghost use Rattle.geometry.specs.Geometry.{layout_of};
ghost use Rattle.record.specs.Meaning.{whole_byte, row_byte, Names};

use geometry::Card;

pub mod find;
pub mod front;
pub mod list;
pub mod parts;
pub mod proper;
pub mod reader;
pub mod reading;
pub mod same;

// What a record of a whole contract does with it: kinds 1 and 11.
#[derive(Clone, Copy)]
pub enum ContractKind {
    Load,
    Replace,
}

impl ContractKind {
    // By the kind byte.
    fn of(kind: u8) -> Option<ContractKind>
        ensures { Names whole_byte kind result }
    {
        match kind {
            1 => Some(ContractKind::Load),
            11 => Some(ContractKind::Replace),
            _ => None,
        }
    }
}

// What a record of one row does with it: the kinds from 5 to 8.
#[derive(Clone, Copy)]
pub enum RowKind {
    AddCall,
    RemoveCall,
    AddGrant,
    RemoveGrant,
}

impl RowKind {
    // By the kind byte.
    fn of(kind: u8) -> Option<RowKind>
        ensures { Names row_byte kind result }
    {
        match kind {
            5 => Some(RowKind::AddCall),
            6 => Some(RowKind::RemoveCall),
            7 => Some(RowKind::AddGrant),
            8 => Some(RowKind::RemoveGrant),
            _ => None,
        }
    }
}

// The first AID's bytes, or an empty part of a malformed record.
pub fn aid_part(rec: &[u8], c: Card) -> &[u8]
    ensures { result.now ≡ first_aid (layout_of c) rec.now }
{
    match reading::read(rec, c) {
        Some(record) => record.aid.bytes,
        None => &[],
    }
}
