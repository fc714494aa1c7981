// The answers, as the scope's table has them. A call that can refuse answers a result; where the answer is chosen by a
// mask, or goes to C, it is the number.
#![tactic(auto)]

ghost use Rattle.std.specs.Prelude.{◌≡◌};
ghost use Rattle.answers.specs.Answers.{number, number_of};

// Of an answer that is no refusal.
pub const DONE: u8 = 0;

// Why a call was refused. Each case has the scope's number.
#[derive(Clone, Copy, Debug, PartialEq, Eq)]
pub enum Refusal {
    TooLong = 1,
    NoRoom,
    Short,
    Ragged,
    TooBig,
    BadRecord,
    BadState,
    Ended,
    WrongSize,
}

impl Refusal {
    // The scope's number of the case.
    pub fn number(self) -> u8
        ensures { result ≡ number self }
    {
        self as u8
    }
}

// The scope's number of a result: of one that is no refusal, 0.
pub fn number_of<T: Copy>(answer: Result<T, Refusal>) -> u8
    ensures { result ≡ number_of answer }
{
    match answer {
        Ok(_) => DONE,
        Err(why) => why.number(),
    }
}
