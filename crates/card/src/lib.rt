// The engine's C functions, on the cards of 1,110 and 3,639 bytes, by the rules in force. Each takes any bytes of any length: none asks
// anything of its caller.
#![tactic(auto)]

ghost use Rattle.std.specs.Prelude.{◌≡◌, cond, get_or};
ghost use Rattle.answers.specs.Numbers.{answered, second_or};
ghost use Rattle.card.specs.Packed.{joined};
ghost use Rattle.card.specs.Calls.{sized, versioned, Checked, Emptied, Converted, Enlarged, Judged, ReadInto, AidFound};

use answers::{Refusal, Verdict};
use geometry::Card;

// An answer and its second number in one number.
fn join(number: u8, second: u16) -> u32
    ensures { result ≡ joined number second }
{
    number as u32 * 65536 + second as u32
}

// An answer in one number: of an acceptance its number, of a refusal its cause's and this second number.
fn answer(r: Result<u16, Refusal>, second: u16) -> u32
    ensures { result ≡ joined (answered r) (second_or second r) }
{
    match r {
        Ok(n) => join(0, n),
        Err(e) => join(e.into(), second),
    }
}

// Of what gives a verdict, 255 goes with a refusal.
fn verdict(v: Verdict) -> u32
    ensures { result ≡ joined (answered v) (second_or 255 v) }
{
    answer(v.map(u16::from), 255)
}

// What a converter returns: 0 with 0 where it took the image, else 1 with 255.
fn taken(took: bool) -> u32
    ensures { result ≡ joined (cond took 0 1) (cond took 0 255) }
{
    if took { join(0, 0) } else { join(1, 255) }
}

// The card whose images have so many bytes; the small one where no card's have.
fn card_of(size: usize) -> Card
    ensures { result ≡ sized size }
{
    if size == geometry::LARGE {
        return Card::Large;
    }
    Card::Small
}

// The card whose records have a record's version; the small one where no card's have.
fn card_of_record(rec: &[u8]) -> Card
    ensures { result ≡ versioned (get_or rec.now 2 0) }
{
    if rec.len() < 3 {
        return Card::Small;
    }
    if rec[2] == geometry::version(Card::Large) {
        return Card::Large;
    }
    Card::Small
}

// Checks an image.
#[unsafe(no_mangle)]
pub extern "C" fn card_check(image: &[u8]) -> u32
    ensures { Checked image.now result }
{
    let c = card_of(image.len());
    let checked = judging::checking::check_image(image, c);
    verdict(checked)
}

// Writes the empty image.
#[unsafe(no_mangle)]
pub extern "C" fn card_empty(image: &mut [u8]) -> u32
    ensures { Emptied image.old result image.new }
{
    let c = card_of(image.len());
    let emptied = judging::empty::write_empty(image, c);
    verdict(emptied)
}

// Converts an image of version 01.
#[unsafe(no_mangle)]
pub extern "C" fn card_convert(old: &[u8], image: &mut [u8]) -> u32
    ensures { Converted old.now image.old result image.new }
{
    taken(converter::convert(old, image))
}

// Enlarges an image of version 02.
#[unsafe(no_mangle)]
pub extern "C" fn card_enlarge(image: &[u8], large: &mut [u8]) -> u32
    ensures { Enlarged image.now large.old result large.new }
{
    taken(converter::enlarge::enlarge(image, large))
}

// Judges a record on an image, and changes the image where it is accepted.
#[unsafe(no_mangle)]
pub extern "C" fn card_judge(image: &mut [u8], rec: &[u8]) -> u32
    ensures { Judged image.old rec.now result image.new }
{
    let c = card_of(image.len());
    let judged = judging::judge(image, c, rec);
    verdict(judged)
}

// Reads out the contract of a package number as a load.
#[unsafe(no_mangle)]
pub extern "C" fn card_read_out(image: &[u8], number: u32, out: &mut [u8]) -> u32
    ensures { ReadInto image.now number out.old result out.new }
{
    let c = card_of(image.len());
    let read = readout::read_out(image, c, number as usize, out);
    answer(read, 0)
}

// Where the first AID of a record stands, and its length; 0 for a malformed record.
#[unsafe(no_mangle)]
pub extern "C" fn card_aid(rec: &[u8]) -> u32
    ensures { AidFound rec.now result }
{
    let c = card_of_record(rec);
    let aid = record::aid_part(rec, c);
    let n = aid.len();
    if n == 0 {
        return 0;
    }
    join(5, n as u16)
}
