// Rows of bits, held in a number.
#![tactic(auto)]

ghost use Rattle.std.specs.Prelude.{◌≡◌, not, ◌&&◌, ◌||◌, ◌<◌, eqb, length};
ghost use Rattle.policy.specs.Lists.{implies, every, keep, first, upto, or_else};
ghost use Rattle.policy.specs.Tables.{bit, row_of};

// Bit k of the row is set.
pub fn has_bit(row: u16, k: usize) -> bool
    requires { k < 16 }
    ensures { result ≡ bit row k }
{
    (row >> k) & 1 == 1
}

// Bit k is set, of a mask of any width up to 64.
// Stays: beside `has_bit`, which a row of the image asks: with this one for rows, too, reading out takes 22,771 instructions for 20,402.
pub fn is_set(mask: u64, k: usize) -> bool
    requires { k < 64 }
    ensures { result ≡ bit mask k }
{
    (mask >> k) & 1 == 1
}

// The row with bit k set.
pub fn with_bit(row: u16, k: usize) -> u16
    requires { k < 16 }
    ensures { result ≡ row_of 16 (λ j. eqb j k || bit row j) }
{
    row | (1 << k)
}

// The row with bit k clear.
pub fn without_bit(row: u16, k: usize) -> u16
    requires { k < 16 }
    ensures { result ≡ row_of 16 (λ j. not (eqb j k) && bit row j) }
{
    row & !(1 << k)
}

// The lowest number whose bit is clear; 16 where there is none.
pub fn lowest_clear(row: u16) -> usize
    ensures { result ≡ or_else (first (λ k. not (bit row k)) (upto 16)) 16 (λ k. k) }
{
    u16::trailing_zeros(!row) as usize
}

// How many bits are set.
pub fn count(row: u16) -> usize
    ensures { result ≡ length (keep (bit row) (upto 16)) }
{
    row.count_ones() as usize
}

// Each bit of a is one of b's.
pub fn subset(a: u16, b: u16) -> bool
    ensures { result ≡ every (λ k. implies (bit a k) (bit b k)) (upto 16) }
{
    a & b == a
}

// The bits that a and b have both.
pub fn common(a: u16, b: u16) -> u16
    ensures { result ≡ row_of 16 (λ k. bit a k && bit b k) }
{
    a & b
}

// The bits of a that b has not.
pub fn others(a: u16, b: u16) -> u16
    ensures { result ≡ row_of 16 (λ k. bit a k && not (bit b k)) }
{
    a & !b
}

// Those in seen, and mark h.
// Stays: a row keeps its width, which the clause names; one function for both would cast, and prove that the bits fit again.
pub fn with_mark(seen: u64, h: usize) -> u64
    requires { h < 64 }
    ensures { result ≡ row_of 64 (λ j. eqb j h || bit seen j) }
{
    seen | (1 << h)
}
