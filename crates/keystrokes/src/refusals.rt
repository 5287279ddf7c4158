// What comes of a keystroke, and what a person is told of it.
ghost use Rattle.std.specs.Prelude.{◌≡◌, Some};
ghost use Rattle.keystrokes.specs.Sentences.{refusal_number, refusal_sentence, outcome_sentence};

use std::error::Error;
use std::fmt;

#[derive(Clone, Copy, Debug, PartialEq, Eq)]
pub enum Refusal {
    // The place, or the place plus what is to be taken, is above the length.
    PastEnd,
    // The new length would pass the capacity.
    Full,
}

// A keystroke is made, or refused.
pub type Outcome = Result<(), Refusal>;

impl Refusal {
    // The number of the refusal. A method and no `From`, so that a call says which number it asks for.
    pub fn number(self) -> u8
        ensures { result ≡ refusal_number self }
    {
        match self {
            Refusal::PastEnd => 10,
            Refusal::Full => 13,
        }
    }

    fn sentence(self) -> &'static str
        ensures { result.now ≡ refusal_sentence self }
    {
        match self {
            Refusal::PastEnd => "the place, or place plus count, is above the length",
            Refusal::Full => "the new length would pass the capacity",
        }
    }
}

impl fmt::Display for Refusal {
    ghost output = { λ refusal. Some (refusal_sentence refusal) };

    fn fmt<W: fmt::Write>(&self, f: &mut fmt::Formatter<W>) -> fmt::Result {
        f.write_str(self.sentence())
    }
}

impl Error for Refusal {}

// The outcome in words.
pub fn sentence_of(outcome: Outcome) -> &'static str
    ensures { result.now ≡ outcome_sentence outcome }
{
    match outcome {
        Ok(()) => "done",
        Err(refusal) => refusal.sentence(),
    }
}
