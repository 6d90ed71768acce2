// The things of a record, as parts of it: AIDs, rows, and lists of them.
ghost use Rattle.std.specs.Prelude.{◌≤◌, length, T};
ghost use Rattle.policy.specs.Record.{aid, tokens, a_row, many};
ghost use Rattle.record.specs.Readable.{is_got};

use geometry::Tokens;

// An AID.
#[derive(Clone, Copy)]
pub struct Aid<'a> {
    pub bytes: &'a [u8],
    pub ghost valid: { (5 ≤ length bytes.now) × (length bytes.now ≤ 16) },
}

// A row: the other end's AID, and the tokens of a service.
#[derive(Clone, Copy)]
pub struct Row<'a> {
    pub other: Aid<'a>,
    pub tokens: Tokens,
}

// The services of a contract: the first at the front of a part, and how many are left.
#[derive(Clone, Copy)]
pub struct Services<'a> {
    pub part: &'a [u8],
    pub left: usize,
    pub ghost good: { T (is_got (many tokens left part.now)) },
}

// The callers of a service.
#[derive(Clone, Copy)]
pub struct Aids<'a> {
    pub part: &'a [u8],
    pub left: usize,
    pub ghost good: { T (is_got (many aid left part.now)) },
}

// Calls, grants or needs.
#[derive(Clone, Copy)]
pub struct Rows<'a> {
    pub part: &'a [u8],
    pub left: usize,
    pub ghost good: { T (is_got (many a_row left part.now)) },
}

// The four lists of a contract.
#[derive(Clone, Copy)]
pub struct Lists<'a> {
    pub provides: Services<'a>,
    pub calls: Rows<'a>,
    pub grants: Rows<'a>,
    pub needs: Rows<'a>,
}
