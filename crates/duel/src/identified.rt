// Frames with 82h and 83h: those to the lock by their count, those that the lock stops, and those that show the page or
// the lock.
use crate::made::{Head, one_byte};
use crate::run::{Run, count};
use chip::Core;
use codes::{RDID, WRID, identified, picks_lock};

// The count of 82h: exactly the bits of one data byte for the lock, for the page these and more in whole bytes.
fn count_fits(part: u8, locks: bool, bits: usize) -> bool {
    let one = one_byte(part);
    if locks {
        return bits == one;
    }
    bits >= one && bits % 8 == 0
}

// Neither WEL nor a cycle nor the count stops it, but the lock.
fn count_locked(before: Core, locks: bool, bits: usize, run: &mut Run) {
    let fits = count_fits(before.part, locks, bits);
    if fits && before.lock == 1 && before.wel == 1 && before.left == 0 {
        count(&mut run.counts.locked);
    }
}

// An 82h to the lock that neither WEL nor a cycle stops.
fn count_lock(before: Core, bits: usize, run: &mut Run) {
    if before.wel == 0 || before.left > 0 {
        return;
    }
    match bits {
        32 => count(&mut run.counts.lock_32),
        40 => count(&mut run.counts.lock_40),
        48 => count(&mut run.counts.lock_48),
        _ => {}
    }
}

fn count_wrid(before: Core, locks: bool, bits: usize, run: &mut Run) {
    count_locked(before, locks, bits, run);
    if locks {
        count_lock(before, bits, run);
    }
}

// A frame with so many leading bits undriven, from the record before it.
pub fn count_identified(before: Core, head: Head, undriven: usize, run: &mut Run) {
    if head.code == WRID && identified(before.part) {
        count_wrid(before, picks_lock(head.address), head.bits, run);
    }
    if head.code == RDID && undriven < head.bits {
        count(&mut run.counts.shown);
    }
}
