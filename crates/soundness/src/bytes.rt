// Bytes of an image: zeros, the same bytes, and the place of an AID.
ghost use Rattle.std.specs.Prelude.{◌≡◌, ◌+◌, ◌≤◌, length};
ghost use Rattle.soundness.specs.Check.{zeros_at, same_at, row_mark, aid_ok};

// The n bytes from at on are zero: a fold without branches.
#[tactic(auto, using(crate::proofs::Tests::zeros_of))]
pub fn zeros_at(img: &[u8], at: usize, n: usize) -> bool
    requires { at + n ≤ length img.now }
    ensures { result ≡ zeros_at img.now at n }
{
    img[at..at + n].iter().fold(0, |all, b| all | *b) == 0
}

// The n bytes from a on are those from b on: the last 4, which may begin in the 16 before them, and the first 16 as two words.
// Stays: `==` of slices is a call that is not inlined; a check of the small card took 10516 instructions with it, 8362 with words.
pub fn same_row(img: &[u8], a: usize, b: usize, n: usize) -> bool
    requires { (16 ≤ n) × (n ≤ 20) × (a + n ≤ length img.now) × (b + n ≤ length img.now) }
    ensures { result ≡ same_at img.now a b n }
{
    let end = n - 4;
    (rows::quad(img, a + end) == rows::quad(img, b + end))
        & (rows::word(img, a) == rows::word(img, b))
        & (rows::word(img, a + 8) == rows::word(img, b + 8))
}

// The AIDs in the places at a and b are the same: two words and a byte.
// Stays: made one with same_row by three words, and inlined, a check of the small card took 10282 instructions, apart 6969.
pub fn same_aid(img: &[u8], a: usize, b: usize) -> bool
    requires { (a + 17 ≤ length img.now) × (b + 17 ≤ length img.now) }
    ensures { result ≡ same_at img.now a b 17 }
{
    (rows::word(img, a) == rows::word(img, b))
        & (rows::word(img, a + 8) == rows::word(img, b + 8))
        & (img[a + 16] == img[b + 16])
}

// The tokens at a are those at b.
pub fn same_tok(img: &[u8], a: usize, b: usize) -> bool
    requires { (a + 2 ≤ length img.now) × (b + 2 ≤ length img.now) }
    ensures { result ≡ same_at img.now a b 2 }
{
    rows::pair(img, a) == rows::pair(img, b)
}

// A valid AID stands at at, with zeros to the end of its place.
#[tactic(auto, unfolding(crate::specs::Check::aid_ok))]
pub fn aid_ok(img: &[u8], at: usize) -> bool
    requires { at + 17 ≤ length img.now }
    ensures { result ≡ aid_ok img.now at }
{
    let n = img[at] as usize;
    5 <= n && n <= 16 && zeros_at(img, at + (1 + n), 16 - n)
}

// The mark of the n bytes at at.
pub fn row_mark(img: &[u8], at: usize, n: usize) -> usize
    requires { (16 ≤ n) × (at + n ≤ length img.now) }
    ensures { result ≡ row_mark img.now at n }
{
    ((rows::word(img, at + (n - 16)) ^ rows::word(img, at + (n - 8))) % 59) as usize
}
