//! Writes that were refused, as the error log has them.

ghost use Rattle.std.specs.Prelude.{◌≡◌, ◌++◌, ◌∷◌, [], List, Err};
ghost use Rattle.error_log.specs.Errors.{ErrorSeen, refused};
ghost use Rattle.mount_stub_files.specs.WrongWords as wrong;
ghost use Rattle.mount_replies.specs.Lines.{noted_answer, noted_command, noted_line, noted_refusal};
ghost use Rattle.mount_replies.specs.Served.{forgotten};
ghost use Rattle.mount_replies.specs.Steps.{Notes, errors_after};

use crate::commands::command_text;
use crate::fault::LineFault;
use error_log::ErrorLog;
use mount_stub_files::{wrong_offset, wrong_words};
use mount_tree::{File, Node};
use refusal_explanations::{injection_offset, injection_words, write_offset, write_words};
use trace_command::Refusal;

/// The most bytes of a line that has not ended.
pub(crate) const MOST_KEPT: usize = 4096;

/// What was noted last, with these bytes, was refused as a write of this text to the file of this path; the byte at an offset is to blame.
pub(crate) fn note_answer(
    errors: &mut ErrorLog,
    path: &[u8],
    text: &[u8],
    shown: &[u8],
    at: usize,
    refusal: &Refusal,
)
    ensures { (before : List ErrorSeen) (error : ErrorSeen) → errors.old ≡ before ++ error ∷ []
        → errors.new ≡ errors_after (noted_answer error path.now text.now shown.now at (Err refusal.now)) before }
{
    match refusal {
        Refusal::Memory => errors.take_back(),
        refusal => errors.finish(shown, write_words(path, text, refusal), at),
    }
}

/// What was noted last, with these bytes, was refused as a write of this text to the file of this path.
fn note_refusal(errors: &mut ErrorLog, path: &[u8], text: &[u8], shown: &[u8], refusal: &Refusal)
    ensures { (before : List ErrorSeen) (error : ErrorSeen) → errors.old ≡ before ++ error ∷ []
        → errors.new ≡ errors_after (noted_refusal error path.now text.now shown.now refusal.now) before }
{
    note_answer(
        errors,
        path,
        text,
        shown,
        write_offset(text, refusal),
        refusal,
    );
}

/// What was noted last was refused, as a line that is a command for the file of this path.
pub(crate) fn note_command(
    errors: &mut ErrorLog,
    path: &[u8],
    file: File,
    line: &[u8],
    fault: &LineFault,
)
    ensures { (before : List ErrorSeen) (error : ErrorSeen) → errors.old ≡ before ++ error ∷ []
        → errors.new ≡ errors_after (noted_command error path.now file line.now fault.now) before }
{
    match fault {
        LineFault::Refused(refusal) => {
            note_refusal(errors, path, command_text(file, line), line, refusal);
        }
        LineFault::NoCommand | LineFault::TooLong => errors.take_back(),
    }
}

/// What was noted last was refused, as a line that was to be an event.
pub(crate) fn note_injection(errors: &mut ErrorLog, line: &[u8], fault: &LineFault)
    ensures { (before : List ErrorSeen) (error : ErrorSeen) → errors.old ≡ before ++ error ∷ []
        → errors.new ≡ errors_after (noted_line error line.now fault.now) before }
{
    match fault {
        LineFault::Refused(Refusal::Memory) => errors.take_back(),
        LineFault::TooLong => errors.finish(
            line,
            "a line that has not ended has at most 4,096 bytes",
            MOST_KEPT,
        ),
        LineFault::NoCommand | LineFault::Refused(_) => {
            let words = injection_words(fault.refusal());
            errors.finish(line, words, injection_offset(line, fault.refusal()));
        }
    }
}

/// What was noted last was refused, since a file can't be set to that.
pub(crate) fn note_wrong(errors: &mut ErrorLog, file: File, bytes: &[u8])
    ensures { (before : List ErrorSeen) (error : ErrorSeen) → errors.old ≡ before ++ error ∷ []
        → errors.new ≡ errors_after (Notes (refused error bytes.now (wrong.wrong_words file) (wrong.wrong_offset bytes.now))) before }
{
    errors.finish(bytes, wrong_words(file), wrong_offset(bytes));
}

/// Forgets the errors of an instance, by its folder.
pub(crate) fn forget(errors: &mut ErrorLog, folder: Option<Node>)
    ensures { errors.new ≡ errors_after (forgotten folder) errors.old }
{
    if let Some(Node::Folder(owner, _)) = folder {
        errors.clear(owner);
    }
}
