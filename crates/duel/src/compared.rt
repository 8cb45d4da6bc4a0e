// What is compared of a frame: Q at each counted clock, then the records.
use crate::differing::Differing;
use crate::run::{Run, count};
use chip::{Core, Waiting};
use edges::Level;
use pins::Device;

// Bit k of a run of bytes, the high bit of the first byte being bit 0; 1 past the end.
pub fn bit_at(bytes: &[u8], k: usize) -> bool {
    match bytes.get(k / 8) {
        Some(byte) => *byte >> (7 - k % 8) & 1 == 1,
        None => true,
    }
}

// Just before counted clock k: Q at the pins against the bit that the frame model has there. Z reads as 1.
pub fn clock(q: Level, bit: bool, k: usize, run: &mut Run) {
    let shows = run.undriven <= k;
    let drives = q != Level::Z;
    run.same_at(Differing::Q, k, bit, q != Level::Zero);
    run.same_at(Differing::QDriven, k, shows, drives);
    count(&mut run.counts.clocks);
    if drives {
        count(&mut run.counts.driven);
    }
}

// The output's bits past the count are 1.
pub fn padding(out: &[u8], bits: usize, run: &mut Run) {
    let at = bits / 8;
    let ones = 255u8 >> (bits % 8);
    if bits % 8 == 0 {
        return;
    }
    if let Some(last) = out.get(at) {
        run.same_at(Differing::PastCount, at, *last & ones, ones);
    }
}

fn waits(frame_side: Waiting, pin_side: Waiting, run: &mut Run) {
    let a = frame_side.latch;
    let b = pin_side.latch;
    run.same(Differing::Waits, frame_side.kind, pin_side.kind);
    run.same(Differing::StatusWaits, frame_side.status, pin_side.status);
    run.same(Differing::PageWaits, frame_side.page, pin_side.page);
    run.same_each(Differing::Latched, &a.bytes, &b.bytes);
    run.same_each(Differing::Marks, &a.marks, &b.marks);
}

// The cycle's times, the last reading and the number of blank cells.
fn numbers(frame_side: Core, pin_side: Core, run: &mut Run) {
    run.same(Differing::Cycle, frame_side.cycle, pin_side.cycle);
    run.same(Differing::Left, frame_side.left, pin_side.left);
    run.same(Differing::Last, frame_side.last, pin_side.last);
    run.same(Differing::Blank, frame_side.blank, pin_side.blank);
}

// The whole core records: SRWD, BP1, BP0, WEL and WIP are the bits of the status byte.
pub fn records(frame_side: Core, pin_side: Device, run: &mut Run) {
    let core = pin_side.core;
    let status = pin_side.status().unwrap_or(0);
    run.same(Differing::Status, frame_side.status(), status);
    run.same(Differing::Part, frame_side.part, core.part);
    run.same(Differing::Lock, frame_side.lock, core.lock);
    numbers(frame_side, core, run);
    waits(frame_side.waits, core.waits, run);
}
