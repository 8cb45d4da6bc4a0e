// The four numbers of the split, for C, of a chip by its part's number. The split's own archive exports them as
// cartvesper_split_*: other names here, so that both can be linked.
ghost use Rattle.std.specs.Prelude.{◌≡◌};
ghost use Rattle.codes.specs.Part.{part_of};
ghost use Rattle.split.specs.Split.{split_refusal, split_parts, split_address, split_length};

// 7 where the run leaves the memory or has no such part, else 0.
#[unsafe(no_mangle)]
pub extern "C" fn cartvesper_part_refusal(chip: u8, address: u64, length: u64, part: u64) -> u64
    ensures { result ≡ split_refusal (part_of chip).size (part_of chip).page address length part }
{
    bench::cartvesper_part_refusal(chip, address, length, part)
}

// How many page parts the run has; 0 where the refusal is 7.
#[unsafe(no_mangle)]
pub extern "C" fn cartvesper_part_count(chip: u8, address: u64, length: u64, part: u64) -> u64
    ensures { result ≡ split_parts (part_of chip).size (part_of chip).page address length part }
{
    bench::cartvesper_part_count(chip, address, length, part)
}

// Where part k starts; 0 where the refusal is 7.
#[unsafe(no_mangle)]
pub extern "C" fn cartvesper_part_address(chip: u8, address: u64, length: u64, part: u64) -> u64
    ensures { result ≡ split_address (part_of chip).size (part_of chip).page address length part }
{
    bench::cartvesper_part_address(chip, address, length, part)
}

// How long part k is; 0 where the refusal is 7.
#[unsafe(no_mangle)]
pub extern "C" fn cartvesper_part_length(chip: u8, address: u64, length: u64, part: u64) -> u64
    ensures { result ≡ split_length (part_of chip).size (part_of chip).page address length part }
{
    bench::cartvesper_part_length(chip, address, length, part)
}
