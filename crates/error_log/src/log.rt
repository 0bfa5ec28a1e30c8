//! The errors of all instances.

ghost use Rattle.std.specs.Prelude.{◌≡◌, ◌≤◌, ◌++◌, ◌∷◌, [], List, length, IfOk, OnOk, OnErr};
ghost use Rattle.std.specs.List.{count_by, position};
ghost use Rattle.error_log.specs.Errors as errors;
ghost use Rattle.error_log.specs.Errors.{ErrorSeen};
ghost use Rattle.error_log.specs.Logs as logs;

use crate::error::NotedError;
use crate::text::push_error;
use mount_tree::Owner;
use std::alloc::{AllocError, Global};
use std::marker::Model;
use trace_lex::Text;

/// How many errors of an instance are kept.
const MOST_ERRORS: usize = 8;

/// The errors of all instances, oldest first. Noting a refused write takes all memory first (`begin`); then it is told what was wrong, or taken back if
/// nothing is to be noted (`finish`, `take_back`).
pub struct ErrorLog {
    alloc: Global,
    errors: Vec<NotedError>,
}

impl Drop for ErrorLog {
    // Not derived, so that no crate above proves the drops of its parts.
    fn drop(self) {
        let ErrorLog {
            alloc: _,
            errors: _,
        } = self;
    }
}

impl Model for ErrorLog {
    ghost use Rattle.std.specs.Prelude.{List};
    ghost use Rattle.error_log.specs.Errors.{ErrorSeen};

    ghost Value = { List ErrorSeen };

    ghost view = { λ l. l.errors.items };
}

/// How many of these are an instance's.
fn count_of(list: &[NotedError], owner: Owner) -> usize
    ensures value { result ≡ count_by (logs.is_of owner) list.now }
    ensures bound { result ≤ length list.now }
{
    let mut count = 0;
    for error in list {
        if error.is_of(owner) {
            count += 1;
        }
    }
    count
}

/// The first of an instance.
fn first_of(list: &[NotedError], owner: Owner) -> Option<usize>
    ensures { result ≡ position (logs.is_of owner) list.now }
{
    list.iter().position(|error| error.is_of(owner))
}

fn drop_first(list: &mut Vec<NotedError>, owner: Owner)
    ensures { list.new.items ≡ logs.without_first owner list.old.items }
{
    if let Some(at) = first_of(list, owner) {
        drop(list.remove(at));
    }
}

fn trim(list: &mut Vec<NotedError>, owner: Owner)
    ensures { list.new.items ≡ logs.trimmed owner list.old.items }
{
    if count_of(list, owner) > MOST_ERRORS {
        drop_first(list, owner);
    }
}

fn take_out(list: &mut Vec<NotedError>, owner: Owner)
    ensures { list.new.items ≡ logs.cleared owner list.old.items }
{
    list.retain(|error| !error.is_of(owner));
}

/// Appends what is shown of an error, if it is an instance's.
fn push_own(out: &mut Vec<u8>, error: &NotedError, owner: Owner) -> Result<(), AllocError>
    ensures { OnOk result (out.new.items ≡ out.old.items ++ logs.own_text owner error.now) }
{
    if error.is_of(owner) {
        push_error(out, error)
    } else {
        Ok(())
    }
}

fn push_errors(out: &mut Vec<u8>, list: &[NotedError], owner: Owner) -> Result<(), AllocError>
    ensures { OnOk result (out.new.items ≡ out.old.items ++ logs.log_text owner list.now) }
{
    for error in list {
        push_own(out, error, owner)?;
    }
    Ok(())
}

impl ErrorLog {
    /// None.
    pub fn new(alloc: Global) -> ErrorLog
        ensures { result ≡ [] }
    {
        ErrorLog {
            alloc,
            errors: Vec::new(alloc),
        }
    }

    /// Notes a write to the file of this path of an instance that was refused. Out of memory all is as before.
    pub fn begin(&mut self, owner: Owner, time: u64, path: &[u8]) -> Result<(), AllocError>
        ensures ok { OnOk result (self.new ≡ self.old ++ errors.begun owner time path.now ∷ []) }
        ensures err { OnErr result (self.new ≡ self.old) }
    {
        let error = NotedError::begin(self.alloc, owner, time, path)?;
        self.errors.push(error)?;
        Ok(())
    }

    /// The write that was noted last is not to be noted.
    pub fn take_back(&mut self)
        ensures { (before : List ErrorSeen) (error : ErrorSeen) → self.old ≡ before ++ error ∷ [] → self.new ≡ before }
    {
        drop(self.errors.pop());
    }

    /// The write that was noted last was one of this text, and was refused: this is wrong, at this offset. The oldest of more than eight is dropped.
    pub fn finish(&mut self, text: &[u8], sentence: &'static str, at: usize)
        ensures { (before : List ErrorSeen) (error : ErrorSeen) → self.old ≡ before ++ error ∷ []
            → self.new ≡ logs.noted (errors.refused error text.now sentence.now at) before }
    {
        let Some(mut error) = self.errors.pop() else {
            return;
        };
        let owner = error.owner();
        error.refuse(text, sentence, at);
        match self.errors.push(error) {
            Ok(()) => trim(&mut self.errors, owner),
            Err(_) => unreachable!(),
        }
    }

    /// Forgets those of an instance.
    pub fn clear(&mut self, owner: Owner)
        ensures { self.new ≡ logs.cleared owner self.old }
    {
        take_out(&mut self.errors, owner);
    }

    /// What `error_log` of an instance shows.
    pub fn text(&self, alloc: Global, owner: Owner) -> Result<Text, AllocError>
        ensures { IfOk result (λ text. text ≡ logs.log_text owner self.now) }
    {
        let mut out = Vec::new(alloc);
        push_errors(&mut out, &self.errors, owner)?;
        Ok(Text::from(out))
    }
}
