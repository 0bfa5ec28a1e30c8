//! How many entries a histogram may have.

ghost use Rattle.std.specs.Prelude.{◌≡◌};
ghost use Rattle.trace_trigger.specs.HistSizes.{rounded_size as spec_rounded_size, first_from as spec_first_from};

/// The numbers of entries that there may be: the powers of two from 2^7 to 2^17.
const SIZES: [u32; 11] = [
    128, 256, 512, 1024, 2048, 4096, 8192, 16_384, 32_768, 65_536, 131_072,
];

/// The first of rising sizes that is not below a number.
fn first_from(sizes: &[u32], entries: u64) -> Option<u32>
    ensures { result ≡ spec_first_from sizes.now entries }
{
    for size in sizes {
        if entries <= u64::from(*size) {
            return Some(*size);
        }
    }
    None
}

/// The number of entries that is asked for, rounded up to a power of two, if that is from 128 to 131,072.
pub(crate) fn rounded_size(entries: u64) -> Option<u32>
    ensures { result ≡ spec_rounded_size entries }
{
    if entries <= 64 {
        None
    } else {
        first_from(&SIZES, entries)
    }
}
