// What waits, cut down to what the bench chose.
ghost use Rattle.std.specs.Prelude.{◌≡◌, ◌<◌};
ghost use Rattle.codes.specs.Status.{on};
ghost use Rattle.cuts.specs.Cuts.{chosen, cut_latch, cut_status, cut_waits, cut_down};
ghost use Rattle.laws.specs.Pick.{pick};

use crate::Choice;
use chip::{Core, Kind, Waiting};
use codes::{bp0_of, bp1_of, srwd_of, status_byte};
use latch::Latch;
use std::array;

// Mark i, of the first word.
fn chosen(choice: Choice, i: u32) -> bool
    requires { i < 64 }
    ensures { result ≡ chosen choice i }
{
    choice.words[0] >> i & 1 == 1
}

// Of the marked cells those that were chosen.
fn cut_latch(latch: Latch, choice: Choice) -> Latch
    ensures { result ≡ cut_latch choice latch }
{
    Latch {
        bytes: latch.bytes,
        marks: array::from_fn(|k| latch.marks[k] & choice.words[k]),
    }
}

fn choose(test: bool, taken: u8, old: u8) -> bool
    ensures { result ≡ pick test (on taken) (on old) }
{
    if test { taken == 1 } else { old == 1 }
}

// Each writable bit from the waiting status value where it was chosen, else from the record.
fn cut_status(core: Core, choice: Choice, value: u8) -> u8
    ensures { result ≡ cut_status choice value core }
{
    let srwd = choose(chosen(choice, 7), srwd_of(value), core.srwd);
    let bp1 = choose(chosen(choice, 3), bp1_of(value), core.bp1);
    let bp0 = choose(chosen(choice, 2), bp0_of(value), core.bp0);
    status_byte(srwd, bp1, bp0, false, false)
}

// Of a status value each bit, of latched bytes each cell. A lock that was not chosen no longer waits.
fn cut_waits(core: Core, choice: Choice) -> Waiting
    ensures { result ≡ cut_waits choice core }
{
    let mut waits = core.waits;
    if waits.has(Kind::Status) {
        waits.status = cut_status(core, choice, waits.status);
        return waits;
    }
    if waits.has(Kind::Lock) & !chosen(choice, 0) {
        return Waiting::nothing();
    }
    waits.latch = cut_latch(waits.latch, choice);
    waits
}

pub(crate) fn cut_down(mut core: Core, choice: Choice) -> Core
    ensures { result ≡ cut_down choice core }
{
    core.waits = cut_waits(core, choice);
    core
}
