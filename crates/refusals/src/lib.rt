// What a refused caller gets, and the number that goes back through C.
#![tactic(auto)]

ghost use Rattle.std.specs.Prelude.{◌≡◌};
ghost use Rattle.refusals.specs.Refusals.{number_of, place_of, returned_of};

// The refusals: those of document 01, in the order of its table, and those of document 02. A call that writes to lent memory answers how many bytes
// it wrote, `Ok`, or a refusal, `Err`.
#[derive(Clone, Copy, Debug, PartialEq, Eq)]
pub enum Refusal {
    Settings,
    Length,
    Serial,
    SealedSize,
    Room,
    Disagrees,
    Line { place: u32 },
    RepeatedSerial,
    SerialListFull,
    TooLarge,
}

impl Refusal {
    // The refusal's number.
    pub fn number(self) -> u8
        ensures { result ≡ number_of self }
    {
        match self {
            Refusal::Settings => 1,
            Refusal::Length => 2,
            Refusal::Serial => 3,
            Refusal::SealedSize => 4,
            Refusal::Room => 5,
            Refusal::Disagrees => 6,
            Refusal::Line { place: _ } => 7,
            Refusal::RepeatedSerial => 8,
            Refusal::SerialListFull => 9,
            Refusal::TooLarge => 11,
        }
    }

    // The refusal's place, and 0 for one that has none: the C interface's number has no other word for it.
    pub fn place(self) -> u32
        ensures { result ≡ place_of self }
    {
        match self {
            Refusal::Settings => 0,
            Refusal::Length => 0,
            Refusal::Serial => 0,
            Refusal::SealedSize => 0,
            Refusal::Room => 0,
            Refusal::Disagrees => 0,
            Refusal::Line { place } => place,
            Refusal::RepeatedSerial => 0,
            Refusal::SerialListFull => 0,
            Refusal::TooLarge => 0,
        }
    }
}

// An answer as the number that a C call returns.
pub fn returned(answer: Result<u32, Refusal>) -> u64
    ensures { result ≡ returned_of answer }
{
    match answer {
        Ok(count) => count as u64,
        Err(r) => r.number() as u64 * 0x100000000000000 + r.place() as u64,
    }
}
