// The two proved models against each other, as each part, on random lists of frames, clock readings and levels of
// Write Protect: the frame model takes whole frames, some with clock readings inside, the pin model the same frames
// drawn as single pin changes, some of them deselected in Hold. The gate compares the summary with the file stdout; the
// first difference would stand before it, with its round and act, and end the run.
#![tactic(auto)]

use crate::rounds::round;
use crate::run::Run;
use std::io;

mod cells;
mod chance;
mod compared;
mod differing;
mod drawn;
mod held;
mod identified;
mod made;
mod rounds;
mod run;
mod schedules;

// No round after a difference.
fn duel(run: &mut Run) {
    for _ in 0..160 {
        if run.first.is_none() {
            round(run);
        }
    }
}

fn main(rt: HostRuntime) -> io::Result<()> {
    let mut run = Run::begun();
    duel(&mut run);
    run.summary(&mut io::writer(&rt))
}
