// The public calls: export, import, and where a text is not good.
ghost use Rattle.std.specs.Prelude.{◌≡◌, not, ◌&&◌, ◌≤◌, eqb, length, take, Ok, Err};
ghost use Rattle.laws.specs.Pick.{pick};
ghost use Rattle.codes.specs.Part.{m95512, part_of};
ghost use Rattle.codes.specs.declared.Refusal.TheVariants.{MemoryLength, RecordRange};
ghost use Rattle.chip.specs.Records.{own_part, with_blank};
ghost use Rattle.chip.specs.Ranges.{in_ranges};
ghost use Rattle.blanks.specs.Blanks.{blanks};
ghost use Rattle.intel_hex.specs.declared.HexError.TheVariants.{NotTaken, Refused};
ghost use Rattle.intel_hex.specs.Writing.{end_line};
ghost use Rattle.intel_hex.specs.Reading.{same_bytes, is_good, first_bad};
ghost use Rattle.intel_hex.specs.Numbers.{hex_number};
ghost use Rattle.intel_hex.specs.Answers.{imaged, export_reply, export_number, export_output};
ghost use Rattle.intel_hex.specs.Answers.{import_choice, import_answer, import_number};
ghost use Rattle.intel_hex.specs.Answers.{imported_cells, import_memory};

use crate::reading::{Digits, END_LINE, is_end};
use crate::storing::store;
use crate::writing::put_image;
use crate::{HexError, TEXT_SIZE};
use chip::{Answered, Core};
use codes::{M95512, Refusal, size_of};

// The part's memory has an image's cells.
fn imaged(part: u8) -> bool
    ensures { result ≡ eqb (part_of part).size m95512.size }
{
    size_of(part) == size_of(M95512)
}

// Refusals 1 for a memory of another length than the part's, 2 for a record outside its ranges.
fn check_record(core: Core, cells: usize) -> Result<(), Refusal>
    ensures { result
        ≡ pick (eqb cells (own_part core).size)
        (pick (in_ranges (own_part core) core) (Ok tt) (Err RecordRange))
        (Err MemoryLength) }
{
    if cells != size_of(core.part) {
        return Err(Refusal::MemoryLength);
    }
    core.checked()
}

// Those refusals, and 12 for a record of a part without such images.
fn check_image(core: Core, cells: usize) -> Result<(), HexError>
    ensures { result
        ≡ pick (eqb cells (own_part core).size)
        (pick (in_ranges (own_part core) core)
        (pick (imaged m95512 core) (Ok tt) (Err NotTaken)) (Err (Refused RecordRange)))
        (Err (Refused MemoryLength)) }
{
    check_record(core, cells)?;
    if !imaged(core.part) {
        return Err(HexError::NotTaken);
    }
    Ok(())
}

// All cells as a text, as stored, in a cycle too. Refusals 1 for a memory of another length than the part's, 2 for a
// record outside its ranges, 12 for a record of an M95M01, 5 for an output that is not of 180,236 bytes, each with the
// output as it was.
pub fn export(core: Core, memory: &[u8], out: &mut [u8]) -> Result<(), HexError>
    ensures value { result ≡ export_reply m95512 core memory.now (length out.old) }
    ensures as_number { hex_number result ≡ export_number m95512 core memory.now (length out.old) }
    ensures out_after { out.new ≡ export_output m95512 core memory.now out.old }
{
    check_image(core, memory.len())?;
    if out.len() != TEXT_SIZE {
        return Err(HexError::Refused(Refusal::OutputLength));
    }
    put_image(out, memory);
    Ok(())
}

// The text is checked whole before a cell changes.
fn take_text(running: bool, memory: &mut [u8], text: &[u8]) -> Result<(), HexError>
    requires { length memory.old ≡ m95512.size }
    ensures value { result ≡ pick (not running && is_good m95512 text.now) (Ok tt) (Err NotTaken) }
    ensures memory_after { memory.new ≡ pick (not running && is_good m95512 text.now)
        (imported_cells m95512 memory.old text.now) memory.old }
{
    if running {
        return Err(HexError::NotTaken);
    }
    let digits = Digits::new();
    let checked = digits.check(text);
    if !is_end(&text[checked.at..]) {
        return Err(HexError::NotTaken);
    }
    store(memory, text, checked.at, &digits);
    Ok(())
}

// The record after the text is taken, its blank cells counted afresh.
fn imported(core: Core, memory: &mut [u8], text: &[u8]) -> Result<Core, HexError>
    ensures value { result
        ≡ import_choice m95512 core memory.old text.now
        (Err (Refused MemoryLength)) (Err (Refused RecordRange)) (Err NotTaken)
        (Ok (with_blank (blanks (imported_cells m95512 memory.old text.now)) core)) }
    ensures memory_after { memory.new ≡ import_memory m95512 core memory.old text.now }
{
    check_image(core, memory.len())?;
    take_text(core.running(), memory, text)?;
    Ok(core.counted(memory))
}

// The cells that a text names, a later record over an earlier one; the blank cells are then counted afresh. Refusals 1
// for a memory of another length than the part's, 2 for a record outside its ranges, 12 for a record of an M95M01, for
// a text that is not good or while a cycle runs, each with the memory and the record as they were.
pub fn import(core: Core, memory: &mut [u8], text: &[u8]) -> Answered<(), HexError>
    ensures value { result ≡ import_answer m95512 core memory.old text.now }
    ensures as_number { hex_number result.answer ≡ import_number m95512 core memory.old text.now }
    ensures memory_after { memory.new ≡ import_memory m95512 core memory.old text.now }
{
    match imported(core, memory, text) {
        Ok(next) => Answered {
            answer: Ok(()),
            core: next,
        },
        Err(error) => Answered {
            answer: Err(error),
            core,
        },
    }
}

// How many lines after the records the first bad line is: 2 where the first is the closing one and more follows it.
fn lines_on(rest: &[u8]) -> usize
    ensures { (result ≡ pick (same_bytes (take 12 rest.now) end_line) 2 1) × (result ≤ 2) }
{
    if rest.starts_with(&END_LINE) { 2 } else { 1 }
}

// The number of the first line of a text that is bad, 0 where the text is good (clause over `first_bad`). A text that
// ends too early is bad in the line after its last.
pub fn bad_line(text: &[u8]) -> usize
    ensures { result ≡ first_bad m95512 text.now }
{
    let digits = Digits::new();
    let checked = digits.check(text);
    let rest = &text[checked.at..];
    if is_end(rest) {
        return 0;
    }
    checked.lines + lines_on(rest)
}
