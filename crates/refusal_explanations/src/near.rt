//! What is near a string, for `did you mean ..?`: a name, or the path of a file that is always there or of an event that is declared.

use crate::cut::{after, begins, joined, up_to};
use std::alloc::{AllocError, Global};
use trace_format::EventDef;
use trace_lex::len_before;

/// How many bytes two strings begin with alike.
fn common_len(a: &[u8], b: &[u8]) -> usize {
    a.iter()
        .zip(b)
        .take_while(|pair| *pair.0 == *pair.1)
        .count()
}

/// Whether the first two bytes are exchanged.
fn is_swapped(a: &[u8], b: &[u8]) -> bool {
    match (a, b) {
        ([first, second, rest @ ..], [other, next, tail @ ..]) => {
            *first == *next && *second == *other && rest == tail
        }
        _ => false,
    }
}

/// Whether so many bytes in a row are others, there too much, or left out.
fn is_off_by(len: usize, a: &[u8], b: &[u8]) -> bool {
    after(len, a) == after(len, b) || after(len, a) == b || a == after(len, b)
}

/// Whether a string is a name but for a byte, or two that are exchanged, or, if it is longer, two in a row.
pub(crate) fn is_near(given: &[u8], name: &[u8]) -> bool {
    let common = common_len(given, name);
    let a = after(common, given);
    let b = after(common, name);
    given != name
        && (given.len() >= 3 && (is_off_by(1, a, b) || is_swapped(a, b))
            || given.len() >= 6 && is_off_by(2, a, b))
}

/// Whether a string is near a path, or is the path without some bytes in a row. The path of a folder is none.
fn is_near_path(given: &[u8], path: &[u8]) -> bool {
    let common = common_len(given, path);
    let is_shortened = match after(common, given) {
        [] => !after(given.len().saturating_sub(1), path).contains(&b'/'),
        left => after(common, path).ends_with(left),
    };
    is_near(given, path) || (given != path && given.len() >= 4 && is_shortened)
}

/// The first of these names that is near; empty, if none is.
pub(crate) fn first_near(given: &[u8], names: &[&'static str]) -> &'static str {
    let near = names.iter().find(|name| is_near(given, name.as_bytes()));
    near.copied().unwrap_or("")
}

/// The first of these paths that is near; empty, if none is.
fn first_near_path(given: &[u8], paths: &[&'static str]) -> &'static str {
    let near = paths
        .iter()
        .find(|path| is_near_path(given, path.as_bytes()));
    near.copied().unwrap_or("")
}

// ---- files

/// The files of no event: the one that is at the top alone, those of any instance, and those of its first CPU.
const FILES: [&str; 13] = [
    "synthetic_events",
    "trace",
    "trace_pipe",
    "tracing_on",
    "trace_options",
    "snapshot",
    "options/overwrite",
    "events/enable",
    "events/synthetic/enable",
    "events/synthetic/filter",
    "per_cpu/cpu0/stats",
    "per_cpu/cpu0/trace",
    "per_cpu/cpu0/trace_pipe",
];

/// What follows `instances/NAME/` in a path; all of it, where it is of the top.
fn below_instance(path: &[u8]) -> &[u8] {
    match path.strip_prefix(b"instances/".as_slice()) {
        Some([b'/', ..]) | None => path,
        Some(rest) if rest.contains(&b'/') => after(len_before(b'/', rest).saturating_add(1), rest),
        Some(_) => path,
    }
}

/// Whether a path is of a CPU whose number begins with `0` and goes on, so that another CPU may be meant.
fn is_other_cpu(given: &[u8]) -> bool {
    begins(b"per_cpu/cpu0", given) && matches!(after(12, given), [b'0'..=b'9', ..])
}

/// The first file, but of no event, whose path is near; empty, if none is.
fn near_fixed_file(is_top: bool, given: &[u8]) -> &'static str {
    // The name of what a file turns on, for turning it off.
    if begins(b"options/no", given) || begins(b"tracing_of", given) {
        return "";
    }
    let first = if is_top { 0 } else { 1 };
    let end = if is_other_cpu(given) { 10 } else { 13 };
    first_near_path(given, &FILES[first..end])
}

/// The first file of an event whose path is near; empty, if none is.
fn near_file_of(alloc: Global, given: &[u8], event: &[u8]) -> Result<Vec<u8>, AllocError> {
    for file in &["enable", "filter", "trigger", "hist", "format"] {
        let mut path = joined(alloc, &[b"events/synthetic/", event, b"/"])?;
        path.extend_from_slice(file.as_bytes())?;
        if is_near_path(given, &path) {
            return Ok(path);
        }
    }
    Ok(Vec::new(alloc))
}

/// The first file whose path is near, those of the events last; empty, if none is.
fn near_file(
    alloc: Global,
    events: &[EventDef],
    is_top: bool,
    given: &[u8],
) -> Result<Vec<u8>, AllocError> {
    let file = near_fixed_file(is_top, given);
    if !file.is_empty() {
        return Vec::from_slice(alloc, file.as_bytes());
    }
    for event in events {
        let path = near_file_of(alloc, given, event.name())?;
        if !path.is_empty() {
            return Ok(path);
        }
    }
    Ok(Vec::new(alloc))
}

/// The first path that is near; empty, if none is.
pub(crate) fn near_path(
    alloc: Global,
    events: &[EventDef],
    path: &[u8],
) -> Result<Vec<u8>, AllocError> {
    let mounted = b"/sys/kernel/tracing/".as_slice();
    let below = path.strip_prefix(mounted).unwrap_or(path);
    let given = below_instance(below);
    let file = near_file(alloc, events, given.len() == below.len(), given)?;
    if file.is_empty() {
        return Ok(file);
    }
    let front = up_to(path.len().saturating_sub(given.len()), path);
    let mut near = Vec::from_slice(alloc, front)?;
    near.extend_from_slice(&file)?;
    Ok(near)
}
