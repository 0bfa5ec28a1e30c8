//! What a tracer was made with, as these files show it.

ghost use Rattle.std.specs.Prelude.{◌≡◌, ◌*◌, ◌≤◌, ◌<◌, ◌^◌};
ghost use Rattle.mount_stub_files.specs.ToolTexts.{cpu_mask as mask, ring_kilobytes as kilobytes};

use trace_command::Config;

/// How many kilobytes the ring of a CPU has: its pages without the one that is being read, rounded down, as a kernel counts them.
pub(crate) fn ring_kilobytes(config: &Config) -> u64
    ensures value { result ≡ kilobytes config.now }
    ensures bound { result < 2 ^ 54 }
{
    u64::from(config.pages) * u64::from(config.page_bytes) / 1024
}

/// How many kilobytes the rings of so many CPUs have.
pub(crate) fn total_kilobytes(config: &Config, cpus: u8) -> u64
    ensures { result ≡ kilobytes config.now * cpus }
{
    ring_kilobytes(config) * u64::from(cpus)
}

/// So many CPUs as a mask, in hexadecimal.
pub(crate) fn cpu_mask(cpus: u8) -> &'static str
    requires { cpus ≤ 8 }
    ensures { result.now ≡ mask cpus }
{
    match cpus {
        0 => "0",
        1 => "1",
        2 => "3",
        3 => "7",
        4 => "f",
        5 => "1f",
        6 => "3f",
        7 => "7f",
        _ => "ff",
    }
}
