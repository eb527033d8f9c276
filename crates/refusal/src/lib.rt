// Why a call is refused, and the check that refuses it.
#![tactic(auto)]

ghost use Rattle.std.specs.Prelude.{◌≡◌, true, false, MatchResult};
ghost use Rattle.refusal.specs.Answer.{number};

// Each by the number that the answers print.
#[derive(Clone, Copy)]
pub enum Refusal {
    IllFormed = 1,
    CodeTaken = 2,
    TableFull = 3,
    Unknown = 4,
    NoBank = 5,
    OutOfRange = 6,
    ToItself = 7,
    NoRoom = 8,
    BankLtk = 9,
    BankLpo = 10,
    BranchLtk = 11,
    BranchLpo = 12,
    DayNotLater = 13,
    IdTaken = 14,
    NoHead = 15,
    IllFormedId = 16,
    NotCurrent = 17,
    MomentNotLater = 18,
    NoType = 19,
    NotOwned = 20,
    NothingFound = 21,
    BookFull = 22,
    Blocked = 25,
    MarkTaken = 26,
}

impl Refusal {
    // The number that stands for it in an answer.
    pub fn number(self) -> u8
        ensures { result ≡ number self }
    {
        self as u8
    }
}

// A check: where it does not pass, it refuses.
pub fn check(passed: bool, refusal: Refusal) -> Result<(), Refusal>
    ensures { MatchResult result (λ _. passed ≡ true) (λ e. (passed ≡ false) × (e ≡ refusal)) }
{
    if passed { Ok(()) } else { Err(refusal) }
}
