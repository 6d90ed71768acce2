// What goes leaves behind: bits of others become rows of the two lists.
ghost use Rattle.std.specs.Prelude.{◌≡◌, true, ◌&&◌, ◌*◌, ◌≤◌, ◌<◌, eqb, leb, length};
ghost use Rattle.policy.specs.Causes.{answer};
ghost use Rattle.policy.specs.Tables.{bit};
ghost use Rattle.policy.specs.Lookup.{places};
ghost use Rattle.policy.specs.ShortCheck.{count};
ghost use Rattle.policy.specs.Judge.{look_causes};
ghost use Rattle.geometry.specs.Geometry.{layout_of, tables_of};
ghost use Rattle.image.specs.Laid.{Laid, table_of};
ghost use Rattle.image.specs.Image.{lay, tables};
ghost use Rattle.image.specs.Wrote.{Wrote};
ghost use Rattle.answers.specs.Numbers.{answered};
ghost use Rattle.changes.specs.Left.{by_list, behind, RoomBehind, named_one, left_one, token_in, named_row, left_row, in_column};

use answers::Refusal;
use geometry::{Card, Kept, Table, Tokens};
use image::Image;

// x for the unmet calls, y for the waiting grants.
pub fn by_list(l: Kept, x: usize, y: usize) -> usize
    ensures { result ≡ by_list l x y }
{
    match l {
        Kept::UnmetCalls => x,
        Kept::WaitingGrants => y,
    }
}

// Refuses with a cause from 9 to 11: by the needs on what goes, and by the rows of the two lists afterwards.
pub fn first_cause(most: usize, needed: usize, unmet: usize, waiting: usize) -> Result<(), Refusal>
    ensures { answered result ≡ answer (look_causes (record
        { granted = true; needed = eqb needed 0; unmet_fits = leb unmet most; waiting_fits = leb waiting most })) }
{
    if needed != 0 {
        return Err(Refusal::NeedUnmet);
    }
    if unmet > most {
        return Err(Refusal::UnmetFull);
    }
    if waiting > most {
        return Err(Refusal::WaitingFull);
    }
    Ok(())
}

// One row more of list l, where `row` has bit k: of package i for service k of package j, with this AID.
#[tactic(auto, using(crate::proofs::LeftRows::named_none))]
pub fn leave_one(
    img: &mut [u8],
    c: Card,
    l: Kept,
    aid: &[u8],
    j: usize,
    i: usize,
    row: u16,
    k: usize,
)
    requires laid { Laid (layout_of c) img.old }
    requires inside { (j < (layout_of c).packages) × (i < (layout_of c).packages) × (k < (layout_of c).services) }
    requires short { length aid.now ≤ 16 }
    requires room { RoomBehind l (layout_of c) (left_one l (tables_of c img.old) aid.now j i (bit row) k) (tables_of c img.old) }
    ensures { Wrote (layout_of c) img.new
        (behind l (left_one l (tables_of c img.old) aid.now j i (bit row) k) (tables_of c img.old)) }
{
    if bits::has_bit(row, k) {
        let view = Image {
            bytes: img,
            card: c,
        };
        let t = view.tokens_at(j, k);
        image::write::append_row(img, c, l, aid, t, i);
    }
}

// One row more of list l, where `row` has bit k: of package i for the service with the tokens in place k of these, with this AID.
fn leave_tokens(
    img: &mut [u8],
    c: Card,
    l: Kept,
    aid: &[u8],
    tokens: &[u8],
    i: usize,
    row: u16,
    k: usize,
)
    requires laid { Laid (layout_of c) img.old }
    requires inside { (i < (layout_of c).packages) × (k < (layout_of c).services) × ((layout_of c).services * 2 ≤ length tokens.now) }
    requires short { length aid.now ≤ 16 }
    requires room { RoomBehind l (layout_of c) (named_one l (token_in tokens.now) aid.now i (bit row) k) (tables_of c img.old) }
    ensures { Wrote (layout_of c) img.new
        (behind l (named_one l (token_in tokens.now) aid.now i (bit row) k) (tables_of c img.old)) }
{
    if bits::has_bit(row, k) {
        let t = Tokens::at(tokens, k * 2);
        image::write::append_row(img, c, l, aid, t, i);
    }
}

// The rows of package i for the services that `row` has, whose tokens are these, with this AID.
// Stays: a loop beside that of `leave_row`, whose tokens stand in the image that it writes; one for both is no plainer, since the tokens
// would come from a closure over each image between two writes.
pub fn leave_from(img: &mut [u8], c: Card, l: Kept, aid: &[u8], tokens: &[u8], i: usize, row: u16)
    requires laid { Laid (layout_of c) img.old }
    requires inside { (i < (layout_of c).packages) × ((layout_of c).services * 2 ≤ length tokens.now) }
    requires short { length aid.now ≤ 16 }
    requires room { RoomBehind l (layout_of c) (named_row (layout_of c) l (token_in tokens.now) aid.now i (bit row))
        (tables_of c img.old) }
    ensures { Wrote (layout_of c) img.new
        (behind l (named_row (layout_of c) l (token_in tokens.now) aid.now i (bit row))
        (tables_of c img.old)) }
{
    let size = geometry::services(c);
    for k in 0..size {
        leave_tokens(img, c, l, aid, tokens, i, row, k);
    }
}

// The rows of package i for the services of package j that `row` has, with this AID.
pub fn leave_row(img: &mut [u8], c: Card, l: Kept, aid: &[u8], j: usize, i: usize, row: u16)
    requires laid { Laid (layout_of c) img.old }
    requires inside { (j < (layout_of c).packages) × (i < (layout_of c).packages) }
    requires short { length aid.now ≤ 16 }
    requires room { RoomBehind l (layout_of c) (left_row (layout_of c) l (tables_of c img.old) aid.now j i (bit row))
        (tables_of c img.old) }
    ensures { Wrote (layout_of c) img.new
        (behind l (left_row (layout_of c) l (tables_of c img.old) aid.now j i (bit row))
        (tables_of c img.old)) }
{
    let size = geometry::services(c);
    for k in 0..size {
        leave_one(img, c, l, aid, j, i, row, k);
    }
}

// How many bits of the services d the entry of a table in row i, column n has.
fn in_entry(img: Image, tb: Table, i: usize, n: usize, d: u16) -> usize
    requires { (i < (lay img).packages) × (n < (lay img).packages) }
    ensures is { result ≡ count (λ k. table_of tb (tables img.entry) i n k && bit d k) (places (lay img.entry)) }
    ensures low { result ≤ 16 }
{
    bits::count(bits::common(img.entry(tb, i, n), d))
}

// How many bits of the services d column n of a table has.
pub fn column(img: Image, tb: Table, n: usize, d: u16) -> usize
    requires { n < (lay img).packages }
    ensures { (result ≡ in_column (lay img.entry) tb (tables img.entry) n (bit d)) × (result ≤ 256) }
{
    let size = geometry::packages(img.card);
    (0..size).map(|i| in_entry(img, tb, i, n, d)).sum()
}
