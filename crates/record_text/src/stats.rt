//! The text of a `stats` file.
//!
//! It is short, so it is written from its last line to its first into an array: the digits of a number come out last first, and so each lands where it
//! belongs. Then it is copied once.

ghost use Rattle.std.specs.Prelude.{◌≡◌, ℕ, ◌+◌, ◌≤◌, ◌++◌, length, drop, IfOk};
ghost use Rattle.record_text.specs.StatsText as texts;

use crate::append::{put_before, put_number_before};
use page_ring::RingStats;
use std::alloc::{AllocError, Global};
use trace_format::Text;

/// The most bytes that the text has: 95 of labels, and in each of the eight lines at most 20 digits and a newline.
const MOST_BYTES: usize = 263;

/// Writes a label, a number and the end of the line so that they end at `end`, and returns where they begin.
#[inline(always)]
#[tactic(auto, unfolding(crate::specs::StatsText::stats_line))]
fn put_line_before(bytes: &mut [u8], end: usize, label: &[u8], n: u64) -> usize
    requires room { length label.now + 21 ≤ end }
    requires inside { end ≤ length bytes.old }
    ensures room { end ≤ result + length label.now + 21 }
    ensures inside { result ≤ length bytes.new }
    ensures line { drop result bytes.new ≡ texts.stats_line label.now n ++ drop end bytes.old }
{
    let at = put_before(bytes, end, b"\n");
    let at = put_number_before(bytes, at, n);
    put_before(bytes, at, label)
}

/// Writes all lines so that they end where the bytes do, and returns where they begin.
fn put_lines(bytes: &mut [u8], stats: RingStats, now: u64) -> usize
    requires { length bytes.old ≡ MOST_BYTES }
    ensures inside { result ≤ length bytes.new }
    ensures text { drop result bytes.new ≡ texts.stats_text stats now }
{
    let at = put_line_before(bytes, MOST_BYTES, b"read events: ", stats.read);
    let at = put_line_before(bytes, at, b"dropped events: ", stats.dropped);
    let at = put_line_before(bytes, at, b"now ts: ", now);
    let at = put_line_before(bytes, at, b"oldest event ts: ", stats.oldest);
    let at = put_line_before(bytes, at, b"bytes: ", stats.bytes);
    let at = put_line_before(bytes, at, b"commit overrun: ", 0);
    let at = put_line_before(bytes, at, b"overrun: ", stats.overrun);
    put_line_before(bytes, at, b"entries: ", stats.entries)
}

/// The text of `per_cpu/cpuN/stats` ("The File System" of ftrace.rst): the statistics of a CPU's ring and the clock, a line each.
/// `bytes` adds up the sizes of the kept records; `oldest` and `now` are ticks of the clock, which counts emissions.
pub fn stats_text(alloc: Global, stats: RingStats, now: u64) -> Result<Text, AllocError>
    ensures { IfOk result (λ text. text ≡ texts.stats_text stats now) }
{
    let mut bytes = [0; MOST_BYTES];
    let at = put_lines(&mut bytes, stats, now);
    Text::from_slice(alloc, &bytes[at..])
}
