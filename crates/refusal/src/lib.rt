// Why a command, a query or a text is refused: at the first question whose answer is no (document 01, "The questions, in order").
#![tactic(auto)]

ghost use Rattle.std.specs.Prelude.{◌≡◌};
ghost use Rattle.refusal.specs.Numbers.{number, code};

// The question that was answered by no, for each question its variant. The comments give the questions.
#[derive(Clone, Copy, PartialEq, Eq)]
pub enum Refusal {
    // "Is each number below its limit?"
    TooLarge,
    // "Is the version list, and each composition, non-empty?"
    Empty,
    // "Does each version stand once in a list, each component once in a composition or usable list?"
    Twice,
    // "is the component specified?"
    NotSpecified,
    // "is it unspecified?"
    Specified,
    // "is it a module?"
    NoModule,
    // "is it a system?"
    NoSystem,
    // "is it undefined?"
    Defined,
    // "are the listed versions exactly the specified ones?"
    OtherVersions,
    // "has it the version?"
    NoVersion,
    // "is the version new to it?"
    HasVersion,
    // "would it have at most 8 versions?"
    NinthVersion,
    // "are the requirements free of its own facilities?"
    RequiresItsOwn,
    // "is the standard version in the list?"
    StandardNotListed,
    // "is the version not the standard one?"
    Standard,
    // "are all its specified requirements empty?"
    Requires,
    // "are all usable components specified?"
    UsableNotSpecified,
    // "is it usable in no system?", "does no composition hold this pair?"
    Held,
    // "does B3 hold afterwards?"
    BreaksB3,
    // "B4?"
    BreaksB4,
    // "do B5 to B9 hold for every system afterwards?"
    BreaksB5ToB9,
    // "does the result fit the lent slice?"
    DoesNotFit,
    // "Is the command of the language?"
    NotOfTheLanguage,
    // "is there a place for each new name?"
    NoPlace,
    // "Any call that takes a book: are its numbers below their limits, has each specified component 1 to 8 different versions, and do B1 to
    // B9 hold? For text also: do the tables hand in one valid name for each number in the book, no name twice in a table?"
    NoBook,
}

impl Refusal {
    // The question's number, as the C interface answers it.
    pub fn number(self) -> u8
        ensures { result ≡ number self }
    {
        match self {
            Refusal::TooLarge => 1,
            Refusal::Empty => 2,
            Refusal::Twice => 3,
            Refusal::NotSpecified => 4,
            Refusal::Specified => 5,
            Refusal::NoModule => 6,
            Refusal::NoSystem => 7,
            Refusal::Defined => 8,
            Refusal::OtherVersions => 9,
            Refusal::NoVersion => 10,
            Refusal::HasVersion => 11,
            Refusal::NinthVersion => 12,
            Refusal::RequiresItsOwn => 13,
            Refusal::StandardNotListed => 14,
            Refusal::Standard => 15,
            Refusal::Requires => 16,
            Refusal::UsableNotSpecified => 17,
            Refusal::Held => 18,
            Refusal::BreaksB3 => 19,
            Refusal::BreaksB4 => 20,
            Refusal::BreaksB5ToB9 => 21,
            Refusal::DoesNotFit => 22,
            Refusal::NotOfTheLanguage => 23,
            Refusal::NoPlace => 24,
            Refusal::NoBook => 25,
        }
    }
}

// "The first no gives the number; without one the call is accepted": the answer, 0 where it is accepted.
// The answer is one parameter, a Result.
pub fn code(answer: Result<(), Refusal>) -> u8
    ensures { result ≡ code answer }
{
    match answer {
        Ok(()) => 0,
        Err(refusal) => refusal.number(),
    }
}
