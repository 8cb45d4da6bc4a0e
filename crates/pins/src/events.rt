// The events, with no refusal: each hands back the device that follows.
ghost use Rattle.std.specs.Prelude.{◌≡◌, not};
ghost use Rattle.codes.specs.Status.{on};
ghost use Rattle.chip.specs.Lents.{lent};
ghost use Rattle.chip.specs.Time.{timed_memory, timed_identification};
ghost use Rattle.pins.specs.Devices.{device_part};
ghost use Rattle.pins.specs.Events.{selecting, judged_now, executed_now, decided, deselecting, on_s, renewed};
ghost use Rattle.pins.specs.Events.{raising, lowering, on_c, on_d, on_w, on_hold, on_time, stepped, stepped_memory};
ghost use Rattle.pins.specs.Events.{stepped_identification};

use crate::{Device, Event};
use chip::Core;
use codes::{Deselect, Instruction, Verdict, judge, page_number};
use edges::{Frame, bit, outputs, shifted_in};

impl Device {
    // S falling selects and starts an empty frame; with C low and HOLD low it starts held.
    fn selecting(mut self) -> Device
        ensures { result ≡ selecting self }
    {
        let held = bit((self.pins.c != 1) & (self.pins.hold != 1));
        let empty = Frame::none();
        self.pins.s = 0;
        self.held = held;
        self.frame = empty;
        self
    }

    fn verdict_now(self) -> Verdict
        ensures { result ≡ judged_now (device_part self) self }
    {
        let core = self.core;
        let i = codes::decode(core.part, self.frame.code);
        judge(
            core.part,
            i,
            self.frame.address,
            self.frame.value,
            Deselect {
                bits: 8 * self.frame.taken as usize + self.frame.bits as usize,
                ran: self.frame.ran == 1,
                wel: core.wel == 1,
                locked: (core.srwd == 1) & (self.pins.w != 1),
                protected: core.barred(i, self.frame.address),
                held: self.held == 1,
            },
        )
    }

    fn executed_now(self) -> Core
        ensures { result ≡ executed_now (device_part self) self }
    {
        let core = self.core;
        let latch = self.frame.latch;
        match codes::decode(self.core.part, self.frame.code) {
            Instruction::Wren => core.with_wel(1),
            Instruction::Wrdi => core.with_wel(0),
            Instruction::Wrsr => core.begin_status(self.frame.value),
            Instruction::Write => core.begin_page(
                page_number(self.core.part, self.frame.address as usize) as u32,
                latch,
            ),
            Instruction::Wrid => core.begin_identification(self.frame.address, latch),
            _ => core,
        }
    }

    // What deselect decides.
    fn decided(self) -> Core
        ensures { result ≡ decided (device_part self) self }
    {
        let core = self.core;
        if self.verdict_now().is_executed() {
            return self.executed_now();
        }
        core
    }

    // S rising ends the frame and decides execution.
    fn deselecting(mut self) -> Device
        ensures { result ≡ deselecting (device_part self) self }
    {
        let core = self.decided();
        let empty = Frame::none();
        self.pins.s = 1;
        self.held = 0;
        self.frame = empty;
        self.core = core;
        self
    }

    pub(crate) fn on_s(self, level: bool) -> Device
        ensures { result ≡ on_s (device_part self) level self }
    {
        if self.pins.s == bit(level) {
            return self;
        }
        if level {
            return self.deselecting();
        }
        self.selecting()
    }

    // Held follows "HOLD is low" while C is low.
    fn renewed(self) -> Device
        ensures { result ≡ renewed self }
    {
        self.with_held((self.pins.s != 1) & (self.pins.hold != 1))
    }

    // A counted edge takes the bit on D. Seven of eight only move two fields, and the record is not copied for them.
    fn raising(mut self) -> Device
        ensures { result ≡ raising (device_part self) self }
    {
        let counted = (self.pins.s != 1) & (self.held != 1);
        let part = self.core.part;
        let running = 0 < self.core.left;
        let bits = self.frame.bits;
        let byte = shifted_in(self.frame.partial, self.pins.d);
        self.pins.c = 1;
        if counted {
            if bits < 7 {
                let more = bits + 1;
                self.frame.bits = more;
                self.frame.partial = byte;
                return self;
            }
            let frame = self.frame;
            self.frame = frame.whole_byte(part, running, byte);
            return self;
        }
        self
    }

    // A falling edge acts first by the old held value, then held is renewed.
    fn lowering(mut self, memory: &[u8], identification: &[u8]) -> Device
        ensures { result
            ≡ lowering (device_part self) (lent memory.now identification.now) self }
    {
        let counted = (self.pins.s != 1) & (self.held != 1);
        let i = codes::decode(self.core.part, self.frame.code);
        let shown = self.frame.shown;
        let drives = outputs(self.core.part, i, self.frame.taken, self.frame.ran == 1);
        let held = bit((self.pins.s != 1) & (self.pins.hold != 1));
        self.pins.c = 0;
        self.held = held;
        if counted & drives {
            if (1 <= shown) & (shown < 8) {
                let more = shown + 1;
                self.frame.shown = more;
                return self;
            }
            let frame = self.frame;
            let core = self.core;
            self.frame = frame.loading(memory, identification, core, i);
            return self;
        }
        self
    }

    pub(crate) fn on_c(self, level: bool, memory: &[u8], identification: &[u8]) -> Device
        ensures { result
            ≡ on_c (device_part self) level (lent memory.now identification.now) self }
    {
        if self.pins.c == bit(level) {
            return self;
        }
        if level {
            return self.raising();
        }
        self.lowering(memory, identification)
    }

    pub(crate) fn on_d(mut self, level: bool) -> Device
        ensures { result ≡ on_d level self }
    {
        let d = bit(level);
        self.pins.d = d;
        self
    }

    pub(crate) fn on_w(mut self, level: bool) -> Device
        ensures { result ≡ on_w level self }
    {
        let w = bit(level);
        self.pins.w = w;
        self
    }

    // Held keeps its value while C is high.
    pub(crate) fn on_hold(mut self, level: bool) -> Device
        ensures { result ≡ on_hold level self }
    {
        let hold = bit(level);
        self.pins.hold = hold;
        if self.pins.c == 1 {
            return self;
        }
        self.renewed()
    }

    // Time passes always: selected, held or not.
    pub(crate) fn on_time(
        mut self,
        reading: u32,
        memory: &mut [u8],
        identification: &mut [u8],
    ) -> Device
        ensures value { result ≡ on_time (device_part self) reading memory.old self }
        ensures memory_after { memory.new
            ≡ timed_memory (device_part self) reading self.core memory.old }
        ensures identification_after { identification.new
            ≡ timed_identification (device_part self) reading self.core identification.old }
    {
        let core = self.core;
        let next = core.timed(reading, memory, identification);
        self.core = next;
        self
    }

    // One event of any kind.
    pub fn stepped(self, event: Event, memory: &mut [u8], identification: &mut [u8]) -> Device
        ensures value { result
            ≡ stepped (device_part self) (lent memory.old identification.old) event self }
        ensures memory_after { memory.new ≡ stepped_memory (device_part self) event self memory.old }
        ensures identification_after { identification.new
            ≡ stepped_identification (device_part self) event self identification.old }
    {
        match event {
            Event::S(level) => self.on_s(level),
            Event::C(level) => self.on_c(level, memory, identification),
            Event::D(level) => self.on_d(level),
            Event::W(level) => self.on_w(level),
            Event::Hold(level) => self.on_hold(level),
            Event::Time(reading) => self.on_time(reading, memory, identification),
        }
    }
}
