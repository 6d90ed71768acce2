// The session program: reads records from standard input, judges each on one card, and prints a line for each at once.
// What decides stands in `turn`; around it the program reads, writes and loops.
#![tactic(auto)]

ghost use Rattle.std.specs.Prelude.{◌≡◌, true, ◌+◌, ◌^◌, ◌≤◌, ◌<◌, length, take, get_or};
ghost use Rattle.lines.specs.Lines.{record_line, Printed};
ghost use Rattle.lines.specs.Session.{judging, turn as turn_of};
ghost use Rattle.lines.specs.Frames.{longest};
ghost use Rattle.answers.specs.Numbers.{answered, second_or};
ghost use Rattle.policy.specs.Layout.{small, size};
ghost use Rattle.session.specs.Turned.{Turned, last_ordinal, Ready, started, took_in, gave_out, stopped, Advanced, Ran};

use answers::Verdict;
use geometry::Card;
use lines::Held;

// The descriptors of standard input and output.
const STDIN: i32 = 0;

const STDOUT: i32 = 1;

// A verdict's two numbers.
fn numbers(v: Verdict) -> (u8, u8)
    ensures { (result.0 ≡ answered v) × (result.1 ≡ second_or 255 v) }
{
    match v {
        Ok(n) => (0, n),
        Err(e) => (e.into(), 255),
    }
}

// One record: judged on the image, and its line put into text.
fn answer_record(image: &mut [u8], rec: &[u8], ordinal: u64, text: &mut [u8; 40]) -> usize
    requires { 4 ≤ length rec.now }
    ensures printed { Printed
        (record_line ordinal (get_or rec.now 3 0)
        (judging image.old rec.now).0
        (judging image.old rec.now).1)
        text.old result text.new }
    ensures image_after { image.new ≡ (judging image.old rec.now).2 }
{
    let v = judging::judge(image, Card::Small, rec);
    let (answer, second) = numbers(v);
    lines::record_line(text, ordinal, rec[3], answer, second)
}

// What a turn calls for.
#[derive(Clone, Copy)]
pub enum Then {
    // Bytes of the input, up to so many.
    Read(usize),
    // The first bytes of text written, and the next turn.
    Line(usize),
    // The first bytes of text written, and no more.
    Last(usize),
    // Nothing: the input is at its end.
    End,
}

// One turn of the transcript, on the bytes held of the next frame.
fn turn(image: &mut [u8], held: &[u8], ended: bool, ordinal: u64, text: &mut [u8; 40]) -> Then
    ensures { Turned
        (turn_of ordinal image.old held.now ended) result
        image.old image.new text.old text.new }
{
    match lines::frame_held(held, ended) {
        Held::Record(size) => Then::Line(answer_record(image, &held[..size], ordinal, text)),
        Held::Start(size) => Then::Read(size),
        Held::Bad => Then::Last(lines::bad_line(text, ordinal)),
        Held::End => Then::End,
    }
}

// How far a run has come.
#[derive(Clone, Copy)]
pub struct Progress {
    // The ordinal of the next line.
    pub ordinal: u64,
    // Bytes held of the next frame, and whether the input has ended behind them.
    pub have: usize,
    pub ended: bool,
    // Whether a turn follows, and whether a line was not taken.
    pub going: bool,
    pub closed: bool,
}

fn start() -> Progress
    ensures { result ≡ started }
{
    Progress {
        ordinal: 1,
        have: 0,
        ended: false,
        going: true,
        closed: false,
    }
}

// So many bytes were read where so many were called for: fewer say that the input has ended.
fn took(p: Progress, want: usize, got: usize) -> Progress
    requires { p.have + got < 2 ^ 64 }
    ensures { result ≡ took_in p want got }
{
    Progress {
        ordinal: p.ordinal,
        have: p.have + got,
        ended: got < want,
        going: true,
        closed: false,
    }
}

// A line was taken or not: the next frame begins, and a turn follows a line that was taken, while an ordinal is left.
fn gave(p: Progress, taken: bool) -> Progress
    requires { p.ordinal < last_ordinal }
    ensures { result ≡ gave_out p taken }
{
    let next = p.ordinal + 1;
    Progress {
        ordinal: next,
        have: 0,
        ended: p.ended,
        going: taken & (next < u64::MAX),
        closed: !taken,
    }
}

// No turn follows.
fn stop(p: Progress) -> Progress
    ensures { result ≡ stopped p }
{
    Progress {
        ordinal: p.ordinal,
        have: p.have,
        ended: p.ended,
        going: false,
        closed: false,
    }
}

// One turn of the program.
fn advance(image: &mut [u8], buf: &mut [u8], p: Progress) -> Progress
    requires { Ready p buf.old }
    ensures { Advanced
        (turn_of p.ordinal image.old (take p.have buf.old) p.ended) p result
        image.old image.new buf.old buf.new }
{
    let mut text = [0u8; 40];
    let have = p.have;
    match turn(image, &buf[..have], p.ended, p.ordinal, &mut text) {
        Then::Read(to) => {
            let want = to - have;
            let got = io::read_full(STDIN, &mut buf[have..to]);
            took(p, want, got)
        }
        Then::Line(n) => {
            let taken = io::write_all(STDOUT, &text[..n]);
            gave(p, taken)
        }
        Then::Last(n) => {
            io::write_all(STDOUT, &text[..n]);
            stop(p)
        }
        Then::End => stop(p),
    }
}

// The run, from the empty image on. A proved loop has to end, and nothing says that the input does: so it stops at an ordinal that no run
// reaches, 2^64 - 1.
fn run(image: &mut [u8], buf: &mut [u8]) -> Progress
    requires image_size { length image.old ≡ size small }
    requires buf_size { length buf.old ≡ longest }
    ensures { Ran result image.new buf.new }
{
    let _ = judging::empty::write_empty(image, Card::Small);
    let mut p = start();
    // Stays: each turn says whether another follows.
    while p.going {
        p = advance(image, buf, p);
    }
    p
}

fn main() {
    let mut image = [0u8; geometry::SMALL];
    let mut buf = [0u8; lines::LONGEST];
    run(&mut image, &mut buf);
}
