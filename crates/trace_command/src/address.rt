//! The instance and the file that a path names.

ghost use Rattle.std.specs.Prelude.{◌≡◌, [], ◌∷◌, Some, None, IfNone};
ghost use Rattle.std.specs.Option.{option_map};
ghost use Rattle.trace_command.specs.Paths as paths;
ghost use Rattle.trace_command.specs.FileNames.{address_at, bytes_now, cpu_at, file_at, parts_of};

use crate::file_name::{
    FileName, cpu_file, event_file, events_file, is, option_file, system_file, top_file,
};
use trace_lex::{all_digits, has_leading_zero, is_name, len_before};

// What is before the first slash, and what is after it.
#[tactic(auto, using(crate::proofs::PathLemmas::parts_none))]
fn cut(path: &[u8]) -> (&[u8], Option<&[u8]>)
    ensures parts { paths.parts path.now ≡ result.0.now ∷ parts_of result.1 }
    ensures whole { IfNone result.1 (result.0.now ≡ path.now) }
{
    let len = len_before(b'/', path);
    if len == path.len() {
        return (path, None);
    }
    (&path[..len], Some(&path[len + 1..]))
}

/// Where a path leads: to an instance, by its name (none is the top one), and there to a file, if the rest of the path names one.
#[derive(Clone, Copy)]
pub struct Address<'a> {
    pub instance: Option<&'a [u8]>,
    pub file: Option<FileName<'a>>,
}

/// The instance and the file that a path names (ftrace.rst, "The File System", "Instances"). Whether the instance, the CPU and the event are
/// there is not looked at. A path may begin with the mount point `/sys/kernel/tracing/`.
#[tactic(auto, unfolding(crate::specs::Paths::address_of), using(crate::proofs::PathLemmas::top_file_alone))]
pub fn address_of(path: &[u8]) -> Address<'_>
    ensures { address_at result ≡ paths.address_of path.now }
{
    let path = below_mount_point(path);
    // Most paths are a name at the top, which has no slash to look for.
    let file = top_file(path);
    if file.is_some() {
        return at_top(file);
    }
    let (first, rest) = cut(path);
    match rest {
        None => at_top(None),
        Some(rest) => address_below(first, rest),
    }
}

/// The name of the instance that a path is to make or to remove: the NAME of `instances/NAME`.
#[tactic(auto, unfolding(crate::specs::Paths::instance_of))]
pub fn instance_of(path: &[u8]) -> Option<&[u8]>
    ensures { option_map bytes_now result ≡ paths.instance_of path.now }
{
    name_of(below_mount_point(path))
}

fn name_of(path: &[u8]) -> Option<&[u8]>
    ensures { option_map bytes_now result ≡ paths.instance_in (paths.parts path.now) }
{
    let (first, rest) = cut(path);
    name_below(first, rest?)
}

fn name_below<'a>(first: &[u8], rest: &'a [u8]) -> Option<&'a [u8]>
    ensures { option_map bytes_now result ≡ paths.instance_in (first.now ∷ paths.parts rest.now) }
{
    let (name, rest) = cut(rest);
    match rest {
        None => name_in(first, name),
        Some(_) => None,
    }
}

fn name_in<'a>(first: &[u8], name: &'a [u8]) -> Option<&'a [u8]>
    ensures { option_map bytes_now result ≡ paths.instance_in (first.now ∷ name.now ∷ []) }
{
    if is_instance(first, name) {
        Some(name)
    } else {
        None
    }
}

// What is left of a path without the mount point.
#[tactic(auto, unfolding(crate::specs::Paths::below_mount_point, crate::specs::Paths::mount_point))]
fn below_mount_point(path: &[u8]) -> &[u8]
    ensures { result.now ≡ paths.below_mount_point path.now }
{
    match path.strip_prefix(b"/sys/kernel/tracing/".as_slice()) {
        Some(rest) => rest,
        None => path,
    }
}

fn is_instance(first: &[u8], name: &[u8]) -> bool
    ensures { result ≡ paths.is_instance first.now name.now }
{
    is(first, b"instances") && !name.is_empty()
}

fn at_top(file: Option<FileName<'_>>) -> Address<'_>
    ensures { address_at result ≡ record { instance = None; file = option_map file_at file.entry } }
{
    Address {
        instance: None,
        file,
    }
}

fn address_below<'a>(first: &[u8], rest: &'a [u8]) -> Address<'a>
    ensures { address_at result ≡ paths.address_in (first.now ∷ paths.parts rest.now) }
{
    let (second, rest) = cut(rest);
    match rest {
        None => at_top(file_in_two(first, second)),
        Some(rest) => address_below_two(first, second, rest),
    }
}

fn address_below_two<'a>(first: &[u8], second: &'a [u8], rest: &'a [u8]) -> Address<'a>
    ensures { address_at result ≡ paths.address_in (first.now ∷ second.now ∷ paths.parts rest.now) }
{
    if is_instance(first, second) {
        in_instance(second, file_of(rest))
    } else {
        at_top(file_below_two(first, second, rest))
    }
}

fn in_instance<'a>(name: &'a [u8], file: Option<FileName<'a>>) -> Address<'a>
    ensures { address_at result ≡ record { instance = Some name.now; file = paths.file_of_instance (option_map file_at file.entry) } }
{
    Address {
        instance: Some(name),
        file: file_of_instance(file),
    }
}

// Events are declared at the top.
fn file_of_instance(file: Option<FileName<'_>>) -> Option<FileName<'_>>
    ensures { option_map file_at result ≡ paths.file_of_instance (option_map file_at file.entry) }
{
    match file? {
        FileName::SyntheticEvents => None,
        other => Some(other),
    }
}

// The file that the parts of a path name, if they name one.
fn file_of(path: &[u8]) -> Option<FileName<'_>>
    ensures { option_map file_at result ≡ paths.file_in (paths.parts path.now) }
{
    let (first, rest) = cut(path);
    match rest {
        None => top_file(first),
        Some(rest) => file_below(first, rest),
    }
}

fn file_in_two<'a>(first: &[u8], name: &[u8]) -> Option<FileName<'a>>
    ensures { option_map file_at result ≡ paths.file_in (first.now ∷ name.now ∷ []) }
{
    if is(first, b"options") {
        return Some(FileName::OfInstance(option_file(name)?));
    }
    if is(first, b"events") {
        return Some(FileName::OfInstance(events_file(name)?));
    }
    None
}

fn file_below<'a>(first: &[u8], rest: &'a [u8]) -> Option<FileName<'a>>
    ensures { option_map file_at result ≡ paths.file_in (first.now ∷ paths.parts rest.now) }
{
    let (second, rest) = cut(rest);
    match rest {
        None => file_in_two(first, second),
        Some(rest) => file_below_two(first, second, rest),
    }
}

fn file_below_two<'a>(first: &[u8], second: &'a [u8], rest: &'a [u8]) -> Option<FileName<'a>>
    ensures { option_map file_at result ≡ paths.file_in (first.now ∷ second.now ∷ paths.parts rest.now) }
{
    let (third, rest) = cut(rest);
    match rest {
        None => file_in_three(first, second, third),
        Some(rest) => file_below_three(first, second, third, rest),
    }
}

fn file_below_three<'a>(
    first: &[u8],
    second: &[u8],
    third: &'a [u8],
    rest: &'a [u8],
) -> Option<FileName<'a>>
    ensures { option_map file_at result
        ≡ paths.file_in (first.now ∷ second.now ∷ third.now ∷ paths.parts rest.now) }
{
    let (fourth, rest) = cut(rest);
    match rest {
        None => file_in_four(first, second, third, fourth),
        Some(_) => None,
    }
}

fn file_in_three<'a>(first: &[u8], second: &'a [u8], name: &[u8]) -> Option<FileName<'a>>
    ensures { option_map file_at result ≡ paths.file_in (first.now ∷ second.now ∷ name.now ∷ []) }
{
    if is(first, b"per_cpu") {
        return Some(FileName::OfCpu(cpu_digits(second)?, cpu_file(name)?));
    }
    if is(first, b"events") && is(second, b"synthetic") {
        return Some(FileName::OfInstance(system_file(name)?));
    }
    None
}

// The digits in `cpuN`.
fn cpu_digits(part: &[u8]) -> Option<&[u8]>
    ensures number { option_map cpu_at result ≡ paths.cpu_number part.now }
{
    let digits = part.strip_prefix(b"cpu".as_slice())?;
    if digits.is_empty() || has_leading_zero(digits) || !all_digits(digits) {
        return None;
    }
    Some(digits)
}

fn file_in_four<'a>(
    first: &[u8],
    second: &[u8],
    event: &'a [u8],
    name: &[u8],
) -> Option<FileName<'a>>
    ensures { option_map file_at result ≡ paths.file_in (first.now ∷ second.now ∷ event.now ∷ name.now ∷ []) }
{
    if !is(first, b"events") || !is(second, b"synthetic") || !is_name(event) {
        return None;
    }
    Some(FileName::OfEvent(event, event_file(name)?))
}
