// Answers as C has them.
ghost use Rattle.std.specs.Prelude.{◌≡◌};
ghost use Rattle.codes.specs.Refusals.{number, number_by, value_of};
ghost use Rattle.chip.specs.declared.Answered.{Answered};
ghost use Rattle.driver.specs.Answers.{run_reply_number, run_reply_frames, run_reply_pages};
ghost use Rattle.bench.specs.Calls.{core_answer, device_answer, driver_answer, framed_answer, value_answer};

use crate::{CoreAnswer, DeviceAnswer, DriverAnswer, FrameAnswer, LatchAnswer, Value};
use chip::Answered;
use codes::{Numbered, Refusal};
use driver::{RunError, Sent};
use laying::Laid;
use pins::Stepped;

// A question's: its number, and its value, 0 in a refusal.
impl From<Result<u32, Refusal>> for Value {
    ghost from_gives = { λ answer to. to ≡ value_answer (number answer) (value_of answer) };

    fn from(answer: Result<u32, Refusal>) -> Value {
        Value {
            number: answer.number(),
            value: answer.unwrap_or(0),
        }
    }
}

// What says no more than its number, and hands a record back.
impl<E: Numbered + Copy> From<Answered<(), E>> for CoreAnswer {
    ghost from_gives = { λ handed to. to ≡ core_answer (number_by E.number handed.answer) handed.core };

    fn from(handed: Answered<(), E>) -> CoreAnswer {
        CoreAnswer {
            number: handed.answer.number(),
            core: handed.core,
        }
    }
}

// A frame's.
impl From<Answered<usize, Refusal>> for FrameAnswer {
    ghost from_gives = { λ handed to. to ≡ framed_answer handed };

    fn from(handed: Answered<usize, Refusal>) -> FrameAnswer {
        FrameAnswer {
            number: handed.answer.number(),
            undriven: handed.answer.unwrap_or(0) as u64,
            core: handed.core,
        }
    }
}

// An event's.
impl From<Stepped> for DeviceAnswer {
    ghost from_gives = { λ stepped to. to ≡ device_answer (number stepped.outcome) stepped.device };

    fn from(stepped: Stepped) -> DeviceAnswer {
        DeviceAnswer {
            number: stepped.outcome.number(),
            device: stepped.device,
        }
    }
}

// A page write's laid over another.
impl From<Laid> for LatchAnswer {
    ghost from_gives = { λ laid to. to ≡ record { number = number laid.outcome; latch = laid.latch } };

    fn from(laid: Laid) -> LatchAnswer {
        LatchAnswer {
            number: laid.outcome.number(),
            latch: laid.latch,
        }
    }
}

// A run's of the driver: also what was sent.
impl From<Answered<Sent, RunError>> for DriverAnswer {
    ghost from_gives = { λ handed to. to
        ≡ driver_answer (run_reply_number handed.answer) (run_reply_pages handed.answer)
        (run_reply_frames handed.answer) handed.core };

    fn from(handed: Answered<Sent, RunError>) -> DriverAnswer {
        let sent = Sent::of(handed.answer);
        DriverAnswer {
            number: handed.answer.number(),
            pages: sent.pages,
            frames: sent.frames,
            core: handed.core,
        }
    }
}
