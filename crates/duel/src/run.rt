// What a run holds: its chance, what it knows of the frame in hand, its counts and the first difference. Also the
// summary.
use crate::chance::Chance;
use crate::differing::Differing;
use console::say;
use std::io;
use std::io::Write;

// The counts but those of Hold and of readings inside frames.
#[derive(Clone, Copy, Default)]
pub struct Counts {
    pub rounds: u64,
    pub rounds_d: u64,
    pub rounds_m01: u64,
    pub acts: u64,
    pub frames: u64,
    pub readings: u64,
    pub levels: u64,
    pub mode_3: u64,
    pub partial: u64,
    pub long: u64,
    pub pauses: u64,
    pub changes: u64,
    pub clocks: u64,
    pub driven: u64,
    pub shown: u64,
    pub pages: u64,
    pub upper: u64,
    pub statuses: u64,
    pub identified: u64,
    pub locks: u64,
    pub lock_32: u64,
    pub lock_40: u64,
    pub lock_48: u64,
    pub locked: u64,
    pub cleared: u64,
    pub ended: u64,
    pub ended_no_wel: u64,
    pub cells: u64,
    pub differences: u64,
}

// Deselects in Hold: all, and of the WRITEs all, by their count, by what stops them, and those that begin a cycle.
#[derive(Clone, Copy, Default)]
pub struct Held {
    pub all: u64,
    pub writes: u64,
    pub one: u64,
    pub odd: u64,
    pub two: u64,
    pub no_wel: u64,
    pub protected: u64,
    pub begun: u64,
}

// Clock readings inside frames: the frames, the readings by their place, the ends of cycles, the polls that saw one.
#[derive(Clone, Copy, Default)]
pub struct Inside {
    pub frames: u64,
    pub readings: u64,
    pub at_start: u64,
    pub at_end: u64,
    pub at_same: u64,
    pub round: u64,
    pub ended: u64,
    pub falls: u64,
    pub falls_3: u64,
}

// The first difference: its round and act, what differs, which clock or cell it is, and the number of each model.
#[derive(Clone, Copy)]
pub struct Difference {
    round: u64,
    act: u64,
    what: Differing,
    at: usize,
    frame_side: u64,
    pin_side: u64,
}

#[derive(Drop)]
pub struct Run {
    pub chance: Chance,
    // of the frame in hand: in how many of a hundred places pin changes stray, and how many leading bits the frame
    // model left undriven
    pub lively: u64,
    pub undriven: usize,
    pub counts: Counts,
    pub held: Held,
    pub inside: Inside,
    pub first: Option<Difference>,
}

// One more.
pub fn count(number: &mut u64) {
    *number = number.saturating_add(1);
}

impl Run {
    pub fn begun() -> Run {
        Run {
            chance: Chance::begun(),
            lively: 0,
            undriven: 0,
            counts: Counts::default(),
            held: Held::default(),
            inside: Inside::default(),
            first: None,
        }
    }

    // Here and there in the frame in hand.
    pub fn strays(&mut self) -> bool {
        let lively = self.lively;
        self.chance.percent(lively)
    }

    // A number of each model; `at` says which clock or cell it is. The first difference is kept, and printed before the
    // summary: no other is, and no act follows it.
    pub fn same_at(
        &mut self,
        what: Differing,
        at: usize,
        frame_side: impl Into<u64>,
        pin_side: impl Into<u64>,
    ) {
        let frame_side = frame_side.into();
        let pin_side = pin_side.into();
        if frame_side == pin_side {
            return;
        }
        if self.first.is_none() {
            self.first = Some(Difference {
                round: self.counts.rounds,
                act: self.counts.acts,
                what,
                at,
                frame_side,
                pin_side,
            });
        }
        count(&mut self.counts.differences);
    }

    pub fn same(&mut self, what: Differing, frame_side: impl Into<u64>, pin_side: impl Into<u64>) {
        self.same_at(what, 0, frame_side, pin_side);
    }

    // The same of whole lists.
    pub fn same_each<T: Into<u64> + Copy>(
        &mut self,
        what: Differing,
        frame_side: &[T],
        pin_side: &[T],
    ) {
        for (at, (x, y)) in frame_side.iter().zip(pin_side).enumerate() {
            self.same_at(what, at, *x, *y);
        }
    }

    // The first difference, where there is one.
    fn say_difference(&self, to: &mut impl Write) -> io::Result<()> {
        let Some(first) = self.first else {
            return Ok(());
        };
        say(to, b"difference in round", first.round)?;
        say(to, b"act", first.act)?;
        say_rows(to, &[(first.what.label(), first.at as u64)])?;
        say(to, b"the frame model's", first.frame_side)?;
        say(to, b"the pin model's", first.pin_side)
    }

    fn say_counts(&self, to: &mut impl Write) -> io::Result<()> {
        let counts = self.counts;
        say_rows(
            to,
            &[
                ("rounds", counts.rounds),
                ("rounds with M95512-D", counts.rounds_d),
                ("rounds with M95M01", counts.rounds_m01),
                ("acts", counts.acts),
                ("frames", counts.frames),
                ("clock readings", counts.readings),
                ("levels of W", counts.levels),
                ("frames in mode 3", counts.mode_3),
                ("with part of a byte", counts.partial),
                ("with over a page", counts.long),
                ("pauses", counts.pauses),
                ("pin changes", counts.changes),
                ("counted clocks", counts.clocks),
                ("driven bits", counts.driven),
                ("83h that drove Q", counts.shown),
                ("page cycles begun", counts.pages),
                ("begun above FFFFh", counts.upper),
                ("status cycles begun", counts.statuses),
                ("identification begun", counts.identified),
                ("lock cycles begun", counts.locks),
                ("82h to lock, 32 bits", counts.lock_32),
                ("82h to lock, 40 bits", counts.lock_40),
                ("82h to lock, 48 bits", counts.lock_48),
                ("82h stopped by lock", counts.locked),
                ("WEL cleared in cycle", counts.cleared),
                ("cycles ended", counts.ended),
                ("ended with WEL 0", counts.ended_no_wel),
                ("cells changed", counts.cells),
            ],
        )
    }

    fn say_held(&self, to: &mut impl Write) -> io::Result<()> {
        let held = self.held;
        say_rows(
            to,
            &[
                ("deselected in Hold", held.all),
                ("WRITEs among them", held.writes),
                ("with one data byte", held.one),
                ("and one bit more", held.odd),
                ("with two data bytes", held.two),
                ("without WEL", held.no_wel),
                ("to a protected cell", held.protected),
                ("begun in Hold", held.begun),
            ],
        )
    }

    fn say_inside(&self, to: &mut impl Write) -> io::Result<()> {
        let inside = self.inside;
        say_rows(
            to,
            &[
                ("frames with readings", inside.frames),
                ("readings in frames", inside.readings),
                ("at position 0", inside.at_start),
                ("at the last boundary", inside.at_end),
                ("where the last was", inside.at_same),
                ("round the counter", inside.round),
                ("cycles ended inside", inside.ended),
                ("RDSR saw WIP fall", inside.falls),
                ("of these in mode 3", inside.falls_3),
            ],
        )
    }

    // The first difference and the counts.
    pub fn summary(&self, to: &mut impl Write) -> io::Result<()> {
        self.say_difference(to)?;
        self.say_counts(to)?;
        self.say_held(to)?;
        self.say_inside(to)?;
        say_rows(to, &[("differences", self.counts.differences)])
    }
}

// A line for each: a label, to 20 characters, a tab and a number.
fn say_rows(to: &mut impl Write, rows: &[(&str, u64)]) -> io::Result<()> {
    for (label, number) in rows {
        writeln!(to, "{label:<20}\t{number}")?;
    }
    Ok(())
}
