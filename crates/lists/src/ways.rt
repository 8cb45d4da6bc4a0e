// What an event moves of a device that a list holds in its parts. Most events move a few numbers. Left to the whole
// device are those that may begin a write cycle, those that end one, and those that load a byte of 83h.
ghost use Rattle.std.specs.Prelude.{◌≡◌, List, Bool, true, false, ℕ, ◌+◌, ◌*◌};
ghost use Rattle.laws.specs.Pick.{pick};
ghost use Rattle.codes.specs.Part.{Part, part_of};
ghost use Rattle.codes.specs.Status.{on};
ghost use Rattle.codes.specs.Verdicts.{verdict, is_executed};
ghost use Rattle.latch.specs.declared.Latch.{Latch};
ghost use Rattle.chip.specs.declared.Waiting.{Waiting};
ghost use Rattle.chip.specs.declared.Core.{Core};
ghost use Rattle.chip.specs.Lents.{Lent, lent};
ghost use Rattle.chip.specs.Records.{own_part, running};
ghost use Rattle.chip.specs.Time.{timed_cells};
ghost use Rattle.edges.specs.Frames.{with_address, with_bits, with_byte, with_value};
ghost use Rattle.edges.specs.Rising.{address_byte, identification_data, latch_byte, taking, whole_byte};
ghost use Rattle.pins.specs.declared.Event.TheVariants.{S, C, Hold, Time};
ghost use Rattle.pins.specs.Events.{on_s, on_c, on_hold, on_time, stepped, stepped_cells};
ghost use Rattle.lists.specs.declared.Front.{Front};
ghost use Rattle.lists.specs.Ways.{whole, risen_to, after_way, after_way_cells};

use crate::{Front, Way};
use chip::{Core, elapsed, left_after};
use codes::{Deselect, Instruction, address_bytes_of, head_of, picks_lock};
use edges::{address_with, bit, cell, next_address, one_more, one_up, outputs, shifted_in};
use pins::Event;

// ---- C rises

impl Front {
    // C at 1, so many bits taken of a byte, and nothing else.
    fn with_bits(self, bits: u8, partial: u8) -> Way
        ensures { (P : Part) (m : Lent) (l : Latch) (k : Core) → after_way P m (C true) result (whole self l k)
            ≡ risen_to (with_bits bits partial (whole self l k).frame) (whole self l k) }
    {
        Way::Rise {
            taken: self.taken,
            bits,
            partial,
            code: self.code,
            ran: self.ran,
            value: self.value,
            address: self.address,
        }
    }

    // One whole byte more, with the value and the address that it leaves.
    fn byte_taken(self, part: u8, value: u8, address: u32) -> Way
        ensures { (m : Lent) (l : Latch) (k : Core) → after_way (part_of part) m (C true) result (whole self l k)
            ≡ risen_to (with_value value (with_address address (with_byte (part_of part) (whole self l k).frame)))
            (whole self l k) }
    {
        Way::Rise {
            taken: one_more(part, self.taken),
            bits: 0,
            partial: 0,
            code: self.code,
            ran: self.ran,
            value,
            address,
        }
    }

    // A byte that nothing keeps.
    fn unkept(self, part: u8) -> Way
        ensures { (m : Lent) (l : Latch) (k : Core) → after_way (part_of part) m (C true) result (whole self l k)
            ≡ risen_to (with_byte (part_of part) (whole self l k).frame) (whole self l k) }
    {
        self.byte_taken(part, self.value, self.address)
    }

    fn address_byte(self, part: u8, byte: u8) -> Way
        ensures { (m : Lent) (l : Latch) (k : Core) → after_way (part_of part) m (C true) result (whole self l k)
            ≡ risen_to (address_byte (part_of part) self.taken byte (with_byte (part_of part) (whole self l k).frame))
            (whole self l k) }
    {
        let address = address_with(part, self.address, self.taken, byte);
        self.byte_taken(part, self.value, address)
    }

    fn latch_byte(self, part: u8, byte: u8) -> Way
        ensures { (m : Lent) (l : Latch) (k : Core) → after_way (part_of part) m (C true) result (whole self l k)
            ≡ risen_to (latch_byte (part_of part) byte (with_byte (part_of part) (whole self l k).frame))
            (whole self l k) }
    {
        let taken = one_more(part, self.taken);
        let address = next_address(part, self.address);
        Way::Latched {
            taken,
            byte,
            address,
        }
    }

    fn value_byte(self, part: u8, byte: u8) -> Way
        ensures { (m : Lent) (l : Latch) (k : Core) → after_way (part_of part) m (C true) result (whole self l k)
            ≡ risen_to (with_value byte (with_byte (part_of part) (whole self l k).frame)) (whole self l k) }
    {
        self.byte_taken(part, byte, self.address)
    }

    // A data byte of 82h: the lock's, of which the first stays, or one of the identification page.
    fn identification_data(self, part: u8, byte: u8) -> Way
        ensures { (m : Lent) (l : Latch) (k : Core) → after_way (part_of part) m (C true) result (whole self l k)
            ≡ risen_to (identification_data (part_of part) self.taken byte
            (with_byte (part_of part) (whole self l k).frame)) (whole self l k) }
    {
        if picks_lock(self.address) {
            if self.taken == head_of(part) {
                return self.value_byte(part, byte);
            }
            return self.unkept(part);
        }
        self.latch_byte(part, byte)
    }

    // What a whole byte is for, by the instruction and by the whole bytes before it.
    fn taking(self, part: u8, i: Instruction, byte: u8) -> Way
        ensures { (m : Lent) (l : Latch) (k : Core) → after_way (part_of part) m (C true) result (whole self l k)
            ≡ risen_to (taking (part_of part) i self.taken byte (with_byte (part_of part) (whole self l k).frame))
            (whole self l k) }
    {
        let before = self.taken;
        match i {
            Instruction::Wrsr if before == 1 => self.value_byte(part, byte),
            Instruction::Read | Instruction::Write | Instruction::Rdid | Instruction::Wrid
                if before <= address_bytes_of(part) => { self.address_byte(part, byte) }
            Instruction::Write => self.latch_byte(part, byte),
            Instruction::Wrid => self.identification_data(part, byte),
            _ => self.unkept(part),
        }
    }

    // The first whole byte is the code; every later one is the instruction's.
    fn whole_byte(self, part: u8, cycle: bool, byte: u8) -> Way
        ensures { (m : Lent) (l : Latch) (k : Core) → after_way (part_of part) m (C true) result (whole self l k)
            ≡ risen_to (whole_byte (part_of part) cycle byte (whole self l k).frame) (whole self l k) }
    {
        if self.taken == 0 {
            let taken = one_more(part, self.taken);
            let ran = bit(cycle);
            return Way::Rise {
                taken,
                bits: 0,
                partial: 0,
                code: byte,
                ran,
                value: self.value,
                address: self.address,
            };
        }
        self.taking(part, codes::decode(part, self.code), byte)
    }

    // A rising edge: not counted, one more bit, or a whole byte.
    fn rising(self, part: u8, cycle: bool) -> Way
        requires { self.c ≡ 1 → ⊥ }
        ensures { (m : Lent) (l : Latch) (k : Core) → running k ≡ cycle
            → after_way (part_of part) m (C true) result (whole self l k) ≡ on_c (part_of part) true m (whole self l k) }
    {
        let bits = self.bits;
        let partial = self.partial;
        if (self.s != 1) & (self.held != 1) {
            let byte = shifted_in(partial, self.d);
            if bits < 7 {
                let more = bits + 1;
                return self.with_bits(more, byte);
            }
            return self.whole_byte(part, cycle, byte);
        }
        self.with_bits(bits, partial)
    }
}

// ---- C falls

impl Front {
    // A falling edge: the same bit, the next bit, or the next byte of a READ or an RDSR.
    fn falling(self, memory: &[u8], core: Core) -> Way
        requires { self.c ≡ 0 → ⊥ }
        ensures { (i : List ℕ) (l : Latch)
            → after_way (own_part core) (lent memory.now i) (C false) result (whole self l core)
            ≡ on_c (own_part core) false (lent memory.now i) (whole self l core) }
    {
        let counted = (self.s != 1) & (self.held != 1);
        let i = codes::decode(core.part, self.code);
        let drives = outputs(core.part, i, self.taken, self.ran == 1);
        let held = bit((self.s != 1) & (self.hold != 1));
        let shown = self.shown;
        if counted & drives {
            if (1 <= shown) & (shown < 8) {
                let next = shown + 1;
                return Way::Fall {
                    held,
                    out: self.out,
                    shown: next,
                    address: self.address,
                };
            }
            return match i {
                Instruction::Read => Way::Fall {
                    held,
                    out: cell(memory, self.address),
                    shown: 1,
                    address: one_up(core.part, self.address),
                },
                Instruction::Rdsr => Way::Fall {
                    held,
                    out: core.status(),
                    shown: 1,
                    address: self.address,
                },
                _ => Way::Whole,
            };
        }
        Way::Fall {
            held,
            out: self.out,
            shown,
            address: self.address,
        }
    }

    fn clocked(self, level: bool, memory: &[u8], core: Core) -> Way
        ensures { (i : List ℕ) (l : Latch)
            → after_way (own_part core) (lent memory.now i) (C level) result (whole self l core)
            ≡ on_c (own_part core) level (lent memory.now i) (whole self l core) }
    {
        if self.c == bit(level) {
            return Way::Whole;
        }
        if level {
            return self.rising(core.part, 0 < core.left);
        }
        self.falling(memory, core)
    }
}

// ---- S

impl Front {
    // WEL after a WREN or a WRDI, which WEL, W and protection do not stop.
    fn wel_after(self, part: u8, i: Instruction, wel: u8, old: u8) -> u8
        ensures { result ≡ pick (is_executed (verdict (part_of part) i self.address self.value
            (8 * self.taken + self.bits) (on self.ran) true false false (on self.held))) wel old }
    {
        let verdict = codes::judge(
            part,
            i,
            self.address,
            self.value,
            Deselect {
                bits: 8 * self.taken as usize + self.bits as usize,
                ran: self.ran == 1,
                wel: true,
                locked: false,
                protected: false,
                held: self.held == 1,
            },
        );
        if verdict.is_executed() { wel } else { old }
    }

    // S rises: a WRSR, a WRITE or 82h may begin a cycle, any other frame moves WEL at most.
    fn deselecting(self, core: Core) -> Way
        requires { self.s ≡ 1 → ⊥ }
        ensures { (m : Lent) (l : Latch) → after_way (own_part core) m (S true) result (whole self l core)
            ≡ on_s (own_part core) true (whole self l core) }
    {
        let i = codes::decode(core.part, self.code);
        match i {
            Instruction::Wren => Way::Clear(1, 0, self.wel_after(core.part, i, 1, core.wel)),
            Instruction::Wrdi => Way::Clear(1, 0, self.wel_after(core.part, i, 0, core.wel)),
            Instruction::Wrsr | Instruction::Write | Instruction::Wrid => Way::Whole,
            _ => Way::Clear(1, 0, core.wel),
        }
    }

    fn selecting(self, level: bool, core: Core) -> Way
        ensures { (m : Lent) (l : Latch) → after_way (own_part core) m (S level) result (whole self l core)
            ≡ on_s (own_part core) level (whole self l core) }
    {
        if self.s == bit(level) {
            return Way::Whole;
        }
        if level {
            return self.deselecting(core);
        }
        let held = bit((self.c != 1) & (self.hold != 1));
        Way::Clear(0, held, core.wel)
    }
}

// ---- HOLD and time

impl Front {
    // Held keeps its value while C is high.
    fn pausing(self, part: u8, level: bool) -> Way
        ensures { (m : Lent) (l : Latch) (k : Core) → after_way (part_of part) m (Hold level) result (whole self l k)
            ≡ on_hold level (whole self l k) }
    {
        let hold = bit(level);
        if self.c == 1 {
            return Way::Set {
                w: self.w,
                hold,
                held: self.held,
            };
        }
        let held = bit((self.s != 1) & (hold != 1));
        Way::Set {
            w: self.w,
            hold,
            held,
        }
    }
}

// A reading that ends no cycle moves the clock alone.
fn passing(reading: u32, core: Core) -> Way
    ensures core_value { (m : Lent) (f : Front) (l : Latch) → after_way (own_part core) m (Time reading) result (whole f l core)
        ≡ on_time (own_part core) reading m.memory (whole f l core) }
    ensures m_value { (theirs : Waiting → Bool) (m : List ℕ) (f : Front) (l : Latch)
        → after_way_cells theirs (own_part core) (Time reading) result (whole f l core) m
        ≡ timed_cells theirs (own_part core) reading core m }
{
    let passed = elapsed(core.last, reading);
    if core.ends(passed) {
        return Way::Whole;
    }
    let left = left_after(core.left, passed);
    Way::Pass { reading, left }
}

impl Front {
    // What an event moves, whatever the identification page holds.
    pub(crate) fn way_for(self, event: Event, memory: &[u8], core: Core) -> Way
        ensures by_index { (i : List ℕ) (l : Latch)
            → after_way (own_part core) (lent memory.now i) event result (whole self l core)
            ≡ stepped (own_part core) (lent memory.now i) event (whole self l core) }
        ensures m_value { (theirs : Waiting → Bool) (l : Latch) (m : List ℕ)
            → after_way_cells theirs (own_part core) event result (whole self l core) m
            ≡ stepped_cells theirs (own_part core) event (whole self l core) m }
    {
        match event {
            Event::S(level) => self.selecting(level, core),
            Event::C(level) => self.clocked(level, memory, core),
            Event::D(level) => Way::Data(bit(level)),
            Event::W(level) => {
                let w = bit(level);
                Way::Set {
                    w,
                    hold: self.hold,
                    held: self.held,
                }
            }
            Event::Hold(level) => self.pausing(core.part, level),
            Event::Time(reading) => passing(reading, core),
        }
    }
}
