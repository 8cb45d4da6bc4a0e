// Images as Intel HEX for C.
ghost use Rattle.std.specs.Prelude.{◌≡◌, length};
ghost use Rattle.codes.specs.Part.{m95512};
ghost use Rattle.intel_hex.specs.Answers.{export_number, export_output, import_memory};
ghost use Rattle.bench.specs.Calls.{import_call};

use crate::CoreAnswer;
use chip::Core;
use codes::Numbered;

// All cells as a text, into an output of 180,236 bytes. Refusals 1, 2, 12 for an M95M01, 5.
pub fn cartvesper_hex_export(core: Core, memory: &[u8], out: &mut [u8]) -> u32
    ensures value { result ≡ export_number m95512 core memory.now (length out.old) }
    ensures out_after { out.new ≡ export_output m95512 core memory.now out.old }
{
    intel_hex::export(core, memory, out).number()
}

// The cells that a text names. Refusals 1, 2, and 12 for a text that is not good, while a cycle runs, or for an M95M01.
pub fn cartvesper_hex_import(core: Core, memory: &mut [u8], text: &[u8]) -> CoreAnswer
    ensures value { result ≡ import_call m95512 core memory.old text.now }
    ensures memory_after { memory.new ≡ import_memory m95512 core memory.old text.now }
{
    CoreAnswer::from(intel_hex::import(core, memory, text))
}
