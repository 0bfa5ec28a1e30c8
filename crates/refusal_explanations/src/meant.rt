//! What was meant, if something that is near is there.

use crate::cut::{after, begins, part_before, up_to};
use crate::left_out::told_of;
use crate::near::{first_near, is_near, near_path};
use crate::place::mark_len;
use crate::subject::{Subject, command_subject, event_of, path_of, written_in};
use std::alloc::{AllocError, Global};
use trace_command::{Command, Refusal};
use trace_filter::FilterCause;
use trace_format::{DeclarationCause, EventDef, RowCause};
use trace_lex::{is_name_byte, len_before, trim, trim_end};
use trace_script::ScriptFault;
use trace_trigger::HistCause;

// ---- what is always there

/// Other languages' names of types, and the type that has the same values; none, if none has, though one is near.
const TYPES: [(&[u8], &str); 36] = [
    (b"uint64_t", "u64"),
    (b"uint32_t", "u32"),
    (b"uint16_t", "u16"),
    (b"uint8_t", "u8"),
    (b"int64_t", "s64"),
    (b"int32_t", "s32"),
    (b"int16_t", "s16"),
    (b"int8_t", "s8"),
    (b"__u64", "u64"),
    (b"__u32", "u32"),
    (b"__u16", "u16"),
    (b"__u8", "u8"),
    (b"__s64", "s64"),
    (b"__s32", "s32"),
    (b"__s16", "s16"),
    (b"__s8", "s8"),
    (b"i64", "s64"),
    (b"i32", "s32"),
    (b"i16", "s16"),
    (b"i8", "s8"),
    (b"size_t", "u64"),
    (b"ssize_t", "s64"),
    (b"usize", "u64"),
    (b"isize", "s64"),
    (b"ulong", "unsigned long"),
    (b"uint", "unsigned int"),
    (b"ushort", "u16"),
    (b"short", "s16"),
    (b"uchar", "u8"),
    (b"bool", "u8"),
    (b"uid_t", "u32"),
    (b"gid_t", "u32"),
    (b"signed", ""),
    (b"f64", ""),
    (b"f32", ""),
    (b"f16", ""),
];

/// The type of fields that has another name elsewhere, or else one that is near, without `int` and `long`.
fn type_meant(given: &[u8]) -> &'static str {
    let near = first_near(
        given,
        &[
            "s64", "s32", "s16", "u64", "u32", "u16", "char", "pid_t", "unsigned",
        ],
    );
    told_of(&TYPES, given, near)
}

/// The type that was meant in a declaration, if one is due where these bytes follow.
fn declaration_meant(cause: DeclarationCause, rest: &[u8]) -> &'static str {
    match cause {
        DeclarationCause::FieldType => type_meant(part_before(b';', rest)),
        _ => "",
    }
}

/// The option that was meant: one that is given, as between blanks, or else that is near.
fn option_meant(text: &[u8]) -> &'static str {
    match trim(text) {
        b"nooverwrite" => "nooverwrite",
        b"overwrite" => "overwrite",
        given => first_near(given, &["nooverwrite", "overwrite"]),
    }
}

/// The beginning of a trigger that was meant.
fn trigger_meant(text: &[u8]) -> &'static str {
    match part_before(b':', after(mark_len(text), text)) {
        given if is_near(given, b"hist") => "hist:",
        given => first_near(given, &["snapshot"]),
    }
}

/// Modifiers of a key by other names.
const MODIFIERS: [(&[u8], &str); 7] = [
    (b"log", "log2"),
    (b"lg2", "log2"),
    (b"log10", "log2"),
    (b"x", "hex"),
    (b"buckets", "buckets=N"),
    (b"bucket", "buckets=N"),
    (b"bins", "buckets=N"),
];

/// Directions of a sort name by other names.
const DIRECTIONS: [(&[u8], &str); 8] = [
    (b"desc", "descending"),
    (b"dsc", "descending"),
    (b"down", "descending"),
    (b"reverse", "descending"),
    (b"descend", "descending"),
    (b"asc", "ascending"),
    (b"up", "ascending"),
    (b"ascend", "ascending"),
];

/// What follows the name of an item and its `.`, up to the next item or to its value; nothing, if it is its value that is wrong.
fn modifier_of(rest: &[u8]) -> &[u8] {
    let item = part_before(b',', part_before(b':', rest));
    let modifier = after(len_before(b'.', item).saturating_add(1), item);
    if begins(b"buckets=", modifier) {
        b""
    } else {
        part_before(b'=', modifier)
    }
}

/// The modifier or the direction that was meant in an item of a list.
fn item_meant(cause: HistCause, rest: &[u8]) -> &'static str {
    let given = modifier_of(rest);
    match cause {
        HistCause::Key { .. } => { told_of(&MODIFIERS, given, first_near(given, &["hex", "log2"])) }
        _ => told_of(
            &DIRECTIONS,
            given,
            first_near(given, &["descending", "ascending"]),
        ),
    }
}

/// The attribute, or what of its item, that was meant in a hist trigger where these bytes are wrong.
fn hist_meant(cause: HistCause, rest: &[u8]) -> &'static str {
    match cause {
        HistCause::Unknown => attribute_meant(rest),
        HistCause::Key { .. } | HistCause::Sort { .. } => item_meant(cause, rest),
        _ => "",
    }
}

/// The attribute that was meant in a hist trigger, where these bytes begin none.
fn attribute_meant(rest: &[u8]) -> &'static str {
    let part = part_before(b':', rest);
    first_near(
        up_to(len_before(b'=', part).saturating_add(1), part),
        &[
            "keys=", "values=", "vals=", "sort=", "size=", "name=", "pause", "continue", "clear",
        ],
    )
}

/// Whether the name that a string ends with is `not`.
fn ends_with_not(front: &[u8]) -> bool {
    match front {
        [.., byte, b'n', b'o', b't'] => !is_name_byte(*byte),
        _ => front == b"not".as_slice(),
    }
}

/// The operator that is meant in a filter between these bytes, where half of one is written, or one with its bytes exchanged, or its name.
fn operator_meant(cause: FilterCause, front: &[u8], rest: &[u8]) -> &'static str {
    match cause {
        FilterCause::Operator => match rest {
            [b'=', b'>', ..] => ">=",
            [b'=', b'<', ..] => "<=",
            [b'=', b'!', ..] => "!=",
            [b'=', b'~', ..] => "~",
            [b'=', ..] => "==",
            _ if ends_with_not(trim_end(front)) => "!(..)",
            _ => "",
        },
        FilterCause::Joint if begins(b"&", rest) || begins(b"and ", rest) => "&&",
        FilterCause::Joint if begins(b"|", rest) || begins(b"or ", rest) => "||",
        _ => "",
    }
}

// ---- what was declared

/// The event whose name is near.
fn event_meant<'a>(events: &'a [EventDef], name: &[u8]) -> &'a [u8] {
    let near = events.iter().find(|event| is_near(name, event.name()));
    near.map(|event| event.name()).unwrap_or(&[])
}

/// The field of an event whose name is near.
fn field_meant<'a>(events: &'a [EventDef], event: &[u8], name: &[u8]) -> &'a [u8] {
    let event = events.iter().find(|other| other.name() == event);
    let fields = event.map(|event| event.fields()).unwrap_or(&[]);
    let near = fields
        .iter()
        .find(|field| is_near(name, field.name.as_bytes()));
    near.map(|field| field.name.as_bytes()).unwrap_or(&[])
}

/// Fields that each event has, by other names.
const OPERANDS: [(&[u8], &str); 4] = [
    (b"pid", "common_pid"),
    (b"PID", "common_pid"),
    (b"cpu", "common_cpu"),
    (b"CPU", "common_cpu"),
];

/// A field of the event, or else one that each event has, by what begins with its name.
fn operand_meant<'a>(events: &'a [EventDef], event: &[u8], rest: &[u8]) -> &'a [u8] {
    let len = rest.iter().take_while(|byte| is_name_byte(**byte)).count();
    let name = up_to(len, rest);
    let field = field_meant(events, event, name);
    if field.is_empty() {
        let near = first_near(name, &["common_pid", "common_cpu"]);
        told_of(&OPERANDS, name, near).as_bytes()
    } else {
        field
    }
}

// ---- of a line

/// What was meant by a refused command; empty, if nothing is near.
pub(crate) fn command_meant(
    alloc: Global,
    events: &[EventDef],
    command: &Command<'_>,
    refusal: &Refusal,
) -> Result<Vec<u8>, AllocError> {
    let subject = command_subject(command);
    let event = event_of(command);
    let text = written_in(command);
    let meant = match refusal {
        Refusal::NoSuchFile if !matches!(subject, Subject::Instance) => {
            return near_path(alloc, events, path_of(command));
        }
        Refusal::NoSuchEvent => event_meant(events, event),
        Refusal::BadValue if matches!(subject, Subject::Options) => option_meant(text).as_bytes(),
        Refusal::BadTrigger { .. } => trigger_meant(text).as_bytes(),
        Refusal::BadDefinition { at, cause } => {
            declaration_meant(*cause, after(*at, text)).as_bytes()
        }
        Refusal::HistSyntax { at, cause } => hist_meant(*cause, after(*at, text)).as_bytes(),
        Refusal::NoSuchField { at } => operand_meant(events, event, after(*at, text)),
        Refusal::BadRow { row } if matches!(row.get().cause, RowCause::Unknown) => {
            field_meant(events, event, row.get().field.as_bytes())
        }
        Refusal::FilterSyntax { at, cause } => {
            operator_meant(*cause, up_to(*at, text), after(*at, text)).as_bytes()
        }
        _ => b"",
    };
    Vec::from_slice(alloc, meant)
}

/// What was meant by a line that is no command, and begins with a word of this name; empty, if nothing is near.
pub(crate) fn line_meant(name: &[u8], fault: ScriptFault) -> &'static str {
    match fault {
        ScriptFault::UnknownCommand => first_near(
            name,
            &[
                "emit", "echo", "cat", "take", "mkdir", "rmdir", "parallel", "thread", "end",
            ],
        ),
        _ => "",
    }
}
