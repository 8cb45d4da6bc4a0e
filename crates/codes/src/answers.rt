// Document 01's number of each refusal, and of an answer.
ghost use Rattle.std.specs.Prelude.{◌≡◌, ℕ};
ghost use Rattle.codes.specs.Refusals.{refusal_number, number_by, number};

use crate::Refusal;

// What has a number: an error, and an answer that may be one.
pub trait Numbered {
    ghost number: { Self → ℕ };

    fn number(self) -> u32
        ensures { result ≡ number self };
}

// Document 01's number, 1 to 8: the place in its order.
impl Numbered for Refusal {
    ghost number = { refusal_number };

    fn number(self) -> u32 {
        self as u32
    }
}

// 0 where there is no error, or the error's number.
impl<T: Copy, E: Numbered + Copy> Numbered for Result<T, E> {
    ghost number = { number_by E.number };

    fn number(self) -> u32 {
        match self {
            Ok(_) => 0,
            Err(error) => error.number(),
        }
    }
}
