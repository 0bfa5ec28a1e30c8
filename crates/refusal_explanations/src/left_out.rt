//! What a kernel's tracer has and this one leaves out, and what to use instead: a table for each place where it may be written. A row has a name, and
//! the sentence on it.

ghost use Rattle.std.specs.Prelude.{◌≡◌, map};
ghost use Rattle.std.specs.Str.{bytes_eq};
ghost use Rattle.refusal_explanations.specs.LeftOut as left_out;

use crate::cut::up_to;
use trace_lex::is_name_byte;

/// Attributes of a hist trigger.
pub const ATTRIBUTES: [(&[u8], &str); 5] = [
    (
        b"onmatch",
        "`onmatch` is left out: emit an event that has the fields of both",
    ),
    (
        b"onmax",
        "`onmax` is left out: `keys=FIELD:sort=FIELD.descending` has the maximum first",
    ),
    (
        b"onchange",
        "`onchange` is left out: `snapshot if FILTER` keeps what led to it",
    ),
    (
        b"nohitcount",
        "`nohitcount` is left out: each entry has its count",
    ),
    (b"NOHC", "`NOHC` is left out: each entry has its count"),
];

/// Fields that each event of a kernel has.
pub const FIELDS: [(&[u8], &str); 7] = [
    (
        b"common_timestamp",
        "there is no time, as the clock counts emissions: declare a field for it, as `u64 us`",
    ),
    (b"common_stacktrace", "stacks are left out"),
    (b"stacktrace", "stacks are left out"),
    (
        b"common_comm",
        "processes have no names: declare a field for it, as `char comm[16]`",
    ),
    (
        b"common_type",
        "each event has `common_pid` and `common_cpu`, no more",
    ),
    (
        b"common_flags",
        "each event has `common_pid` and `common_cpu`, no more",
    ),
    (
        b"common_preempt_count",
        "each event has `common_pid` and `common_cpu`, no more",
    ),
];

/// Triggers.
pub const TRIGGERS: [(&[u8], &str); 7] = [
    (
        b"traceon",
        "`traceon` is left out: write `1` to `tracing_on`",
    ),
    (
        b"traceoff",
        "`traceoff` is left out: `snapshot:1 if FILTER` keeps what led to it",
    ),
    (b"stacktrace", "stacks are left out"),
    (
        b"enable_event",
        "`enable_event` is left out: write `1` to the event's `enable`",
    ),
    (
        b"disable_event",
        "`disable_event` is left out: write `0` to the event's `enable`",
    ),
    (
        b"enable_hist",
        "`enable_hist` is left out: append `hist:..:continue`",
    ),
    (
        b"disable_hist",
        "`disable_hist` is left out: append `hist:..:pause`",
    ),
];

/// Files: those of a mounted tracer, which scripts don't know, and those of a kernel alone.
pub const FILES: [(&[u8], &str); 39] = [
    (b"inject", "only a mounted tracer has `inject`: use `emit`"),
    (
        b"set_event",
        "only a mounted tracer has `set_event`: write the `enable` of an event, or `events/enable`",
    ),
    (
        b"error_log",
        "only a mounted tracer has `error_log`: `--explain` says what is wrong",
    ),
    (
        b"id",
        "only a mounted tracer has `id`: the event's `format` has its ID",
    ),
    (
        b"available_events",
        "only a mounted tracer has `available_events`: read `synthetic_events`",
    ),
    (
        b"buffer_size_kb",
        "only a mounted tracer has `buffer_size_kb`: `--pages` and `--page-bytes` size the rings",
    ),
    (
        b"buffer_total_size_kb",
        "only a mounted tracer has `buffer_total_size_kb`: `--pages` and `--page-bytes` size the rings",
    ),
    (
        b"tracing_cpumask",
        "only a mounted tracer has `tracing_cpumask`: filter by `common_cpu`",
    ),
    (
        b"trace_clock",
        "only a mounted tracer has `trace_clock`: there is one clock, which counts emissions",
    ),
    (
        b"timestamp_mode",
        "only a mounted tracer has `timestamp_mode`: there is one clock, which counts emissions",
    ),
    (
        b"current_tracer",
        "only a mounted tracer has `current_tracer`: there is one, which records events",
    ),
    (
        b"available_tracers",
        "only a mounted tracer has `available_tracers`: there is one, which records events",
    ),
    (b"README", "only a mounted tracer has `README`"),
    (
        b"saved_cmdlines",
        "only a mounted tracer has `saved_cmdlines`",
    ),
    (
        b"printk_formats",
        "only a mounted tracer has `printk_formats`",
    ),
    (
        b"tracing_thresh",
        "only a mounted tracer has `tracing_thresh`",
    ),
    (
        b"trace_pipe_raw",
        "only a mounted tracer has `trace_pipe_raw`: read `trace_pipe`",
    ),
    (b"header_page", "only a mounted tracer has `header_page`"),
    (b"header_event", "only a mounted tracer has `header_event`"),
    (
        b"trace_marker",
        "`trace_marker` is left out: declare an event with a `char` field, and `emit` it",
    ),
    (
        b"trace_marker_raw",
        "`trace_marker_raw` is left out: declare an event, and `emit` it",
    ),
    (
        b"snapshot_raw",
        "`snapshot_raw` is left out: read `snapshot`",
    ),
    (
        b"hist_debug",
        "`hist_debug` is left out: read `hist` and `trigger`",
    ),
    (
        b"set_event_pid",
        "`set_event_pid` is left out: filter by `common_pid`",
    ),
    (
        b"set_event_notrace_pid",
        "`set_event_notrace_pid` is left out: filter by `common_pid`",
    ),
    (
        b"set_ftrace_pid",
        "functions are left out: only events are traced",
    ),
    (
        b"set_ftrace_filter",
        "functions are left out: only events are traced",
    ),
    (
        b"set_ftrace_notrace",
        "functions are left out: only events are traced",
    ),
    (
        b"set_graph_function",
        "functions are left out: only events are traced",
    ),
    (
        b"available_filter_functions",
        "functions are left out: only events are traced",
    ),
    (
        b"function_profile_enabled",
        "functions are left out: only events are traced",
    ),
    (
        b"kprobe_events",
        "probes are left out: declare an event in `synthetic_events`, and `emit` it",
    ),
    (
        b"uprobe_events",
        "probes are left out: declare an event in `synthetic_events`, and `emit` it",
    ),
    (
        b"dynamic_events",
        "`dynamic_events` is left out: declare events in `synthetic_events`",
    ),
    (
        b"tracing_max_latency",
        "`tracing_max_latency` is left out: `keys=FIELD:sort=FIELD.descending` has the maximum first",
    ),
    (b"stack_trace", "stacks are left out"),
    (
        b"free_buffer",
        "`free_buffer` is left out: `echo > trace` empties the rings",
    ),
    (
        b"buffer_percent",
        "`buffer_percent` is left out: a `trace_pipe` is read to its end",
    ),
    (
        b"buffer_subbuf_size_kb",
        "`buffer_subbuf_size_kb` is left out: `--page-bytes` sizes the pages",
    ),
];

fn is_same(name: &[u8], other: &[u8]) -> bool
    ensures { result ≡ bytes_eq name.now other.now }
{
    name == other
}

/// The sentence in the row of this name, or, if there is none, the other one.
pub(crate) fn told_of(
    mut table: &[(&[u8], &'static str)],
    name: &[u8],
    other: &'static str,
) -> &'static str
    ensures { result.now ≡ left_out.told_of (map (λ row. (row.0.now, row.1.now)) table.entry.now) name.now other.now }
{
    while let [row, rest @ ..] = table {
        if is_same(row.0, name) {
            return row.1;
        }
        table = rest;
    }
    other
}

/// The letters, digits and `_` that a string begins with.
pub(crate) fn name_at(text: &[u8]) -> &[u8]
    ensures { result.now ≡ left_out.name_at text.now }
{
    up_to(name_len(text), text)
}

fn name_len(text: &[u8]) -> usize
    ensures { result ≡ left_out.name_len text.now }
{
    text.iter().take_while(|byte| is_name_byte(**byte)).count()
}
