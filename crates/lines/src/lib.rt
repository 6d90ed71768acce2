// The session program's lines and frames: what it prints, and how its input splits.
#![tactic(auto)]

ghost use Rattle.std.specs.Prelude.{◌+◌, ◌≤◌, ◌≡◌, [], ◌∷◌, length};
ghost use Rattle.lines.specs.Lines.{digits, shown, line, record_line, bad_line, Wrote, Printed};
ghost use Rattle.lines.specs.Frames.{announced, held_as};

// What the bytes held of an input are.
#[derive(Clone, Copy)]
pub enum Held {
    // A record of so many bytes, whole.
    Record(usize),
    // The start of a frame, which goes on up to this many bytes.
    Start(usize),
    // The bad frame.
    Bad,
    // No bytes, and none to come.
    End,
}

// The byte put at index at.
fn put_byte(out: &mut [u8], at: usize, b: u8) -> usize
    requires { at + 1 ≤ length out.old }
    ensures { Wrote at (b ∷ []) out.old result out.new }
{
    out[at] = b;
    at + 1
}

// The digits of n put from index at on.
pub fn write_number(out: &mut [u8], at: usize, n: u64) -> usize
    requires { at + length (digits n) ≤ length out.old }
    ensures { Wrote at (digits n) out.old result out.new }
{
    if n < 10 {
        return put_byte(out, at, 48 + n as u8);
    }
    let end = write_number(out, at, n / 10);
    put_byte(out, end, 48 + (n % 10) as u8)
}

// The digits of a byte, three at most.
fn write_byte(out: &mut [u8], at: usize, n: u8) -> usize
    requires { at + 3 ≤ length out.old }
    ensures written { Wrote at (digits n) out.old result out.new }
    ensures short { result ≤ at + 3 }
{
    write_number(out, at, n as u64)
}

// A space and a column put from index at on: a number, or `-`.
fn write_column(out: &mut [u8], at: usize, s: Option<u8>) -> usize
    requires { at + 4 ≤ length out.old }
    ensures written { Wrote at (32 ∷ shown s) out.old result out.new }
    ensures short { result ≤ at + 4 }
{
    let from = put_byte(out, at, b' ');
    match s {
        Some(n) => write_byte(out, from, n),
        None => put_byte(out, from, b'-'),
    }
}

// A line: ordinal, kind, answer and package number.
pub fn write_line(
    out: &mut [u8; 40],
    ordinal: u64,
    kind: Option<u8>,
    answer: u8,
    second: Option<u8>,
) -> usize
    ensures { Printed (line ordinal kind answer second) out.old result out.new }
{
    let mut at = write_number(out, 0, ordinal);
    at = write_column(out, at, kind);
    at = write_column(out, at, Some(answer));
    at = write_column(out, at, second);
    put_byte(out, at, b'\n')
}

// The line of a record that was judged.
pub fn record_line(out: &mut [u8; 40], ordinal: u64, kind: u8, answer: u8, second: u8) -> usize
    ensures { Printed (record_line ordinal kind answer second) out.old result out.new }
{
    let second = (answer == 0).then_some(second);
    write_line(out, ordinal, Some(kind), answer, second)
}

// The line of a bad frame.
pub fn bad_line(out: &mut [u8; 40], ordinal: u64) -> usize
    ensures { Printed (bad_line ordinal) out.old result out.new }
{
    write_line(out, ordinal, None, 2, None)
}

// Bytes of the longest record.
pub const LONGEST: usize = 4145;

// What two length bytes announce: a record of so many bytes, these two included, or none, as no record has this length.
pub fn frame_length(high: u8, low: u8) -> Option<usize>
    ensures { result ≡ announced high low }
{
    let n = u16::from_be_bytes([high, low]) as usize;
    (4 <= n && n <= LONGEST).then_some(n)
}

// What the bytes held are, where ended says that no more come.
pub fn frame_held(bytes: &[u8], ended: bool) -> Held
    ensures { result ≡ held_as bytes.now ended }
{
    let have = bytes.len();
    if have < 2 {
        if ended {
            if have == 0 {
                return Held::End;
            }
            return Held::Bad;
        }
        return Held::Start(2);
    }
    let Some(size) = frame_length(bytes[0], bytes[1]) else {
        return Held::Bad;
    };
    if size <= have {
        return Held::Record(size);
    }
    if ended {
        return Held::Bad;
    }
    Held::Start(size)
}
