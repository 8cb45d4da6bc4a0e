// Document 01's number of an error, and what was sent of an answer.
ghost use Rattle.std.specs.Prelude.{◌≡◌, ℕ};
ghost use Rattle.driver.specs.declared.RunError.TheVariants.{Refused};
ghost use Rattle.driver.specs.Answers.{run_error_number, run_sent};

use crate::{RunError, Sent};
use codes::{Numbered, Refusal};

impl From<Refusal> for RunError {
    ghost from_gives = { λ r e. e ≡ Refused r };

    fn from(refusal: Refusal) -> RunError {
        RunError::Refused(refusal)
    }
}

impl Numbered for RunError {
    ghost number = { run_error_number };

    fn number(self) -> u32 {
        match self {
            RunError::TimedOut(_) => 9,
            RunError::Protected(_) => 13,
            RunError::Refused(refusal) => refusal.number(),
        }
    }
}

impl Sent {
    // Of an answer; nothing in a refusal.
    pub fn of(answer: Result<Sent, RunError>) -> Sent
        ensures { result ≡ run_sent answer }
    {
        match answer {
            Ok(sent) | Err(RunError::TimedOut(sent) | RunError::Protected(sent)) => sent,
            Err(RunError::Refused(_)) => Sent {
                pages: 0,
                frames: 0,
            },
        }
    }
}
