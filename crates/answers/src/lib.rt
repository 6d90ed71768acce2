// The answers of document 01, 'Verdicts': an acceptance with the number that goes with it, or a refusal by its cause.
#![tactic(auto)]

ghost use Rattle.std.specs.Prelude.{◌≡◌};
ghost use Rattle.answers.specs.Numbers.{number as number_of};

// The cause of a refusal.
#[derive(Clone, Copy, Debug, PartialEq, Eq)]
pub enum Refusal {
    // the image is not sound, or a buffer for one has another size than it must
    Unsound,
    // the record is malformed
    Malformed,
    // the record contradicts itself: a row or AID is repeated, the own AID is the other end, or a need is not called
    Contradictory,
    // a load of an AID that is installed
    Installed,
    // the first AID, or the package number to read out, is not installed
    NotInstalled,
    // adding what the contract has, or removing what it lacks
    Pointless,
    // all package numbers, or all service numbers of the package, are used
    NoNumber,
    // a met call would stand without its grant
    Ungranted,
    // a need would be unmet
    NeedUnmet,
    // more unmet calls than the card has rows for
    UnmetFull,
    // more waiting grants than the card has rows for
    WaitingFull,
    // the buffer is shorter than the record
    BufferShort,
}

// Its number in document 01's table.
impl From<Refusal> for u8 {
    ghost from_gives = { λ e n. n ≡ number_of e };

    fn from(e: Refusal) -> u8 {
        match e {
            Refusal::Unsound => 1,
            Refusal::Malformed => 2,
            Refusal::Contradictory => 3,
            Refusal::Installed => 4,
            Refusal::NotInstalled => 5,
            Refusal::Pointless => 6,
            Refusal::NoNumber => 7,
            Refusal::Ungranted => 8,
            Refusal::NeedUnmet => 9,
            Refusal::UnmetFull => 10,
            Refusal::WaitingFull => 11,
            Refusal::BufferShort => 12,
        }
    }
}

// A judged record's answer: the package number of an acceptance.
pub type Verdict = Result<u8, Refusal>;
