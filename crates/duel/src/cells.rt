// The memories and the identification pages: how a round fills them, and what it changed. Each array has the cells of
// the largest part; a part is lent the first of them, as many as it has.
use crate::run::{Run, count};
use codes::LARGE_SIZE;
use latch::ROOM;
use std::array;

pub type Memory = [u8; LARGE_SIZE];

// The identification page.
pub type Page = [u8; ROOM];

// What a cell holds at the start: FFh as delivered, or a pattern that tells the halves of the largest memory apart.
fn filling(patterned: bool, cell: usize) -> u8 {
    if patterned {
        let n = cell % LARGE_SIZE;
        return ((37 * n + 11 * (n / 128) + 5 * (n / 65536)) % 256) as u8;
    }
    255
}

// A memory at the start.
pub fn filled(patterned: bool) -> Memory {
    array::from_fn(|cell| filling(patterned, cell))
}

// An identification page at the start. Its pattern is that of the largest memory's last page.
pub fn filled_page(patterned: bool) -> Page {
    array::from_fn(|cell| filling(patterned, LARGE_SIZE - ROOM + cell))
}

// The first n cells scanned: how many hold FFh.
pub fn blanks(memory: &Memory, n: usize) -> usize {
    memory.iter().take(n).filter(|cell| **cell == 255).count()
}

// The cells that are not as the round filled them.
pub fn count_changed(memory: &Memory, patterned: bool, run: &mut Run) {
    for (cell, byte) in memory.iter().enumerate() {
        if *byte != filling(patterned, cell) {
            count(&mut run.counts.cells);
        }
    }
}
