// Both models, supply cuts, the driver, the split, laying and HEX texts as C programs call them: numbers, records of
// numbers and lent bytes in, the same out. bench/cartvesper.h documents each call; the crate bench_c exports them.
//
// Each function takes the numbers that C hands over, calls the proved public call and puts its answer together: the
// record crosses as it is, so nothing is lost on the way. A level or a flag that is not 0 or 1 gets refusal 2.
#![tactic(auto)]

mod core_calls;
mod cut_calls;
mod device_calls;
mod driver_call;
mod frame_call;
mod hex_calls;
mod lay_call;
mod part_calls;
mod timed_call;
mod values;

use chip::Core;
pub use core_calls::{
    cartvesper_clock_reading, cartvesper_core_in_ranges, cartvesper_core_lowest_protected,
    cartvesper_core_protected, cartvesper_core_status, cartvesper_core_touched,
    cartvesper_power_up,
};
pub use cut_calls::{cartvesper_cut, cartvesper_device_cut};
pub use device_calls::{
    cartvesper_device_in_ranges, cartvesper_device_play, cartvesper_device_power_up,
    cartvesper_device_q, cartvesper_device_read_clock, cartvesper_device_set_c,
    cartvesper_device_set_d, cartvesper_device_set_hold, cartvesper_device_set_s,
    cartvesper_device_set_w, cartvesper_device_status, cartvesper_device_touched,
};
pub use driver_call::cartvesper_write;
pub use frame_call::cartvesper_frame;
pub use hex_calls::{cartvesper_hex_export, cartvesper_hex_import};
use latch::Latch;
pub use lay_call::cartvesper_lay;
pub use part_calls::{
    cartvesper_part_address, cartvesper_part_count, cartvesper_part_length, cartvesper_part_refusal,
};
use pins::Device;
pub use timed_call::cartvesper_timed_frame;

// An answer's number and the record that it leaves.
#[repr(C)]
#[derive(Clone, Copy)]
pub struct CoreAnswer {
    pub number: u32,
    pub core: Core,
}

// Of a frame: also how many leading bits were undriven.
#[repr(C)]
#[derive(Clone, Copy)]
pub struct FrameAnswer {
    pub number: u32,
    pub undriven: u64,
    pub core: Core,
}

// Of an event, a list of events or power-up of the pin model.
#[repr(C)]
#[derive(Clone, Copy)]
pub struct DeviceAnswer {
    pub number: u32,
    pub device: Device,
}

// Of a page write laid over another.
#[repr(C)]
#[derive(Clone, Copy)]
pub struct LatchAnswer {
    pub number: u32,
    pub latch: Latch,
}

// Of a run of the driver: also pages done and frames sent.
#[repr(C)]
#[derive(Clone, Copy)]
pub struct DriverAnswer {
    pub number: u32,
    pub pages: u32,
    pub frames: u32,
    pub core: Core,
}

// A question's number and its value, 0 in a refusal.
#[repr(C)]
#[derive(Clone, Copy)]
pub struct Value {
    pub number: u32,
    pub value: u32,
}
