// A card's layout in code: an enum of the cards, and its numbers by cases.
#![tactic(auto)]

ghost use Rattle.std.specs.Prelude.{◌≡◌, ◌++◌, ◌+◌, ◌^◌, ◌≤◌, ◌<◌, length, get_or, take, drop};
ghost use Rattle.policy.specs.Layout.{narrow, aids_at, tokens_at, provides_at, size as size_of};
ghost use Rattle.policy.specs.Tables.{read_number, write_number};
ghost use Rattle.geometry.specs.Geometry.{layout_of, aid_at, tok_at, prov_at, table_at, entry_at, tok_of};
ghost use Rattle.geometry.specs.Geometry.{list_at, list_end, row_size, place_at, number_in, tokens_in};

// The cards of 1,110 and of 3,639 bytes.
#[derive(Clone, Copy, PartialEq, Eq)]
pub enum Card {
    Small,
    Large,
}

// Bytes of their images.
pub const SMALL: usize = 1110;

pub const LARGE: usize = 3639;

// The three tables of bits.
#[derive(Clone, Copy, PartialEq, Eq)]
pub enum Table {
    Calls,
    Grants,
    Needs,
}

// The two lists.
#[derive(Clone, Copy, PartialEq, Eq)]
pub enum Kept {
    UnmetCalls,
    WaitingGrants,
}

// The tokens of a service.
#[derive(Clone, Copy, PartialEq, Eq)]
pub struct Tokens {
    pub interface: u8,
    pub method: u8,
}

impl Tokens {
    // What stands where a service is not provided.
    pub const NONE: Tokens = Tokens {
        interface: 0,
        method: 0,
    };

    // The tokens at a place.
    pub fn at(s: &[u8], at: usize) -> Tokens
        requires { at + 2 ≤ length s.now }
        ensures { tok_of result ≡ record { itf = get_or s.now at 0; mth = get_or s.now (at + 1) 0 } }
    {
        Tokens {
            interface: s[at],
            method: s[at + 1],
        }
    }
}

// Stays: a function with its clause for each number; a table would name each in a struct, in two constants, and in a clause of each use.

// Package numbers.
pub fn packages(c: Card) -> usize
    ensures { result ≡ (layout_of c).packages }
{
    match c {
        Card::Small => 8,
        Card::Large => 16,
    }
}

// Service numbers of a package.
pub fn services(c: Card) -> usize
    ensures { result ≡ (layout_of c).services }
{
    match c {
        Card::Small => 8,
        Card::Large => 16,
    }
}

// Bytes of a row of bits.
pub fn width(c: Card) -> usize
    ensures { result ≡ (layout_of c).width }
{
    match c {
        Card::Small => 1,
        Card::Large => 2,
    }
}

// Rows that a list has room for.
pub fn capacity(c: Card) -> usize
    ensures { result ≡ (layout_of c).capacity }
{
    match c {
        Card::Small => 16,
        Card::Large => 32,
    }
}

// Bytes of an image.
pub fn size(c: Card) -> usize
    ensures { result ≡ size_of (layout_of c) }
{
    match c {
        Card::Small => SMALL,
        Card::Large => LARGE,
    }
}

// The version byte of a record.
pub fn version(c: Card) -> u8
    ensures { result ≡ (layout_of c).version }
{
    match c {
        Card::Small => 1,
        Card::Large => 2,
    }
}

// Bytes of a count of calls, grants or needs.
pub fn count_width(c: Card) -> usize
    ensures { result ≡ (layout_of c).count_width }
{
    match c {
        Card::Small => 1,
        Card::Large => 2,
    }
}

// Method tokens are below this.
pub fn methods(c: Card) -> u8
    ensures { result ≡ (layout_of c).methods }
{
    match c {
        Card::Small => 128,
        Card::Large => 128,
    }
}

// The most calls, grants and needs of a load.
pub fn most_rows(c: Card) -> usize
    ensures { result ≡ (layout_of c).most_rows }
{
    match c {
        Card::Small => 72,
        Card::Large => 272,
    }
}

// The most callers of kind 3.
pub fn most_callers(c: Card) -> usize
    ensures { result ≡ (layout_of c).most_callers }
{
    match c {
        Card::Small => 32,
        Card::Large => 32,
    }
}

// Where the AIDs, the tokens and the provided services of the packages stand.
fn aids_at(c: Card) -> usize
    ensures { result ≡ aids_at (layout_of c) }
{
    match c {
        Card::Small => 4,
        Card::Large => 5,
    }
}

fn tokens_at(c: Card) -> usize
    ensures { result ≡ tokens_at (layout_of c) }
{
    match c {
        Card::Small => 140,
        Card::Large => 277,
    }
}

fn provides_at(c: Card) -> usize
    ensures { result ≡ provides_at (layout_of c) }
{
    match c {
        Card::Small => 268,
        Card::Large => 789,
    }
}

// Where package n's AID stands.
pub fn aid_at(c: Card, n: usize) -> usize
    requires { n < (layout_of c).packages }
    ensures { result ≡ aid_at (layout_of c) n }
{
    let at = aids_at(c);
    at + n * 17
}

// Where the tokens of service k of package j stand.
pub fn tok_at(c: Card, j: usize, k: usize) -> usize
    requires { (j < (layout_of c).packages) × (k < (layout_of c).services) }
    ensures { result ≡ tok_at (layout_of c) j k }
{
    let at = tokens_at(c);
    let line = services(c) * 2;
    at + (j * line + k * 2)
}

// Where the provided services of package j stand.
pub fn prov_at(c: Card, j: usize) -> usize
    requires { j < (layout_of c).packages }
    ensures { result ≡ prov_at (layout_of c) j }
{
    let at = provides_at(c);
    let w = width(c);
    at + j * w
}

// Where a table's first entry stands.
pub fn table_at(c: Card, t: Table) -> usize
    ensures { result ≡ table_at (layout_of c) t }
{
    match c {
        Card::Small => match t {
            Table::Calls => 276,
            Table::Grants => 340,
            Table::Needs => 404,
        },
        Card::Large => match t {
            Table::Calls => 821,
            Table::Grants => 1333,
            Table::Needs => 1845,
        },
    }
}

// Where the entry of a table in row i, column j stands.
pub fn entry_at(c: Card, t: Table, i: usize, j: usize) -> usize
    requires { (i < (layout_of c).packages) × (j < (layout_of c).packages) }
    ensures { result ≡ entry_at (layout_of c) t i j }
{
    let at = table_at(c, t);
    let w = width(c);
    let line = packages(c) * w;
    at + (i * line + j * w)
}

// Where a list stands: its count, then its rows.
pub fn list_at(c: Card, l: Kept) -> usize
    ensures { result ≡ list_at (layout_of c) l }
{
    match c {
        Card::Small => match l {
            Kept::UnmetCalls => 468,
            Kept::WaitingGrants => 789,
        },
        Card::Large => match l {
            Kept::UnmetCalls => 2357,
            Kept::WaitingGrants => 2998,
        },
    }
}

// Where a list ends.
pub fn list_end(c: Card, l: Kept) -> usize
    ensures { result ≡ list_end (layout_of c) l }
{
    match c {
        Card::Small => match l {
            Kept::UnmetCalls => 789,
            Kept::WaitingGrants => SMALL,
        },
        Card::Large => match l {
            Kept::UnmetCalls => 2998,
            Kept::WaitingGrants => LARGE,
        },
    }
}

// Bytes of a row of a list.
pub fn row_size(c: Card, l: Kept) -> usize
    ensures { result ≡ row_size (layout_of c) l }
{
    20
}

// Where row r of a list stands, and where the list ends after r rows.
pub fn place_at(c: Card, l: Kept, r: usize) -> usize
    requires { r ≤ (layout_of c).capacity }
    ensures { result ≡ place_at (layout_of c) l r }
{
    let at = list_at(c, l);
    let size = row_size(c, l);
    at + (1 + r * size)
}

// Where a row of a list has its package number: the caller's or the callee's.
pub fn number_in(l: Kept) -> usize
    ensures { result ≡ number_in l }
{
    match l {
        Kept::UnmetCalls => 19,
        Kept::WaitingGrants => 17,
    }
}

// Where it has its tokens.
pub fn tokens_in(l: Kept) -> usize
    ensures { result ≡ tokens_in l }
{
    match l {
        Kept::UnmetCalls => 17,
        Kept::WaitingGrants => 18,
    }
}

// The first three bytes of an image.
pub fn header(c: Card) -> [u8; 3]
    ensures { result ≡ (layout_of c).header }
{
    match c {
        Card::Small => *b"\x04\x56\x02",
        Card::Large => *b"\x0e\x37\x03",
    }
}

// What differs in an image of version 01: its bytes,
pub fn old_size() -> usize
    ensures { result ≡ size_of narrow }
{
    1094
}

// the first three of them,
pub fn old_header() -> [u8; 3]
    ensures { result ≡ narrow.header }
{
    *b"\x04\x46\x01"
}

// and the bytes of a row of a list: a waiting grant has its service number where tokens stand since.
pub fn old_row_size(l: Kept) -> usize
    ensures { result ≡ row_size narrow l }
{
    match l {
        Kept::UnmetCalls => 20,
        Kept::WaitingGrants => 19,
    }
}

// The number of w bytes at a place, big-endian.
// Stays: with `from_be_bytes` the check of a large image took 22,653 instructions for 21,984.
pub fn number_at(s: &[u8], at: usize, w: usize) -> u16
    requires { (0 < w) × (w ≤ 2) × (at + w ≤ length s.now) }
    ensures { result ≡ read_number 0 (take w (drop at s.now)) }
{
    let first = s[at] as u16;
    if w == 1 {
        return first;
    }
    let second = s[at + 1] as u16;
    first * 256 + second
}

// Puts a number of w bytes at a place, big-endian.
pub fn put_number(s: &mut [u8], at: usize, w: usize, n: u16)
    requires inside { (0 < w) × (w ≤ 2) × (at + w ≤ length s.old) }
    requires fits { n < 256 ^ w }
    ensures { s.new ≡ take at s.old ++ write_number w n (drop (at + w) s.old) }
{
    if w == 1 {
        s[at] = n as u8;
        return;
    }
    s[at] = (n / 256) as u8;
    s[at + 1] = (n % 256) as u8;
}

// The row of bits at a place.
pub fn row_at(img: &[u8], c: Card, at: usize) -> u16
    requires { at + (layout_of c).width ≤ length img.now }
    ensures { result ≡ read_number 0 (take (layout_of c).width (drop at img.now)) }
{
    let w = width(c);
    number_at(img, at, w)
}

// Puts a row of bits at a place.
pub fn put_row(img: &mut [u8], c: Card, at: usize, row: u16)
    requires inside { at + (layout_of c).width ≤ length img.old }
    requires fits { row < 256 ^ (layout_of c).width }
    ensures { img.new
        ≡ take at img.old ++ write_number (layout_of c).width row (drop (at + (layout_of c).width) img.old) }
{
    let w = width(c);
    put_number(img, at, w, row);
}
