//! A script: it is read to its end, and cut into lines.

ghost use Rattle.std.specs.Prelude.{◌≡◌, ◌==◌, ◌+◌, ◌-◌, ◌<◌, ◌≤◌, ◌⊎◌, ◌∷◌, ◌++◌, length, take, position, true, IfOk, IfSome, OnOk, IsErrOf};
ghost use Rattle.std.specs.Io.KnownBytes.{Consumes, IsAtEnd};
ghost use Rattle.std.specs.Option.{option_copied};
ghost use Rattle.trace_script.specs.PlainEmissions.{line_len, line_in};
ghost use Rattle.script_reader.specs.ScriptLines.{lines_of, lines_left, bytes_left};
ghost use Rattle.script_reader.specs.Sources.{ConsumesAtMost, GivesAtMost, GivesMore, HasRisen};

use crate::source::Source;
use crate::stop::Stop;
use memchr::memchr;
use std::alloc::Global;

/// The most bytes that a script may have.
pub const MOST_SCRIPT_BYTES: usize = 16_777_216;

/// The most reads: one byte each, and one more that finds the end, or that the script is too long.
const MOST_READS: usize = 16_777_217;

/// How many bytes are asked of a reader at once.
const CHUNK_BYTES: usize = 4096;

/// Appends what one read gives to a script that is not too long, and gives the number of its bytes. A script that would become too long
/// is left as it was.
fn read_more<R: Source>(
    reader: &mut R,
    chunk: &mut [u8],
    script: &mut Vec<u8>,
) -> Result<usize, Stop>
    requires room { 0 < length chunk.old }
    requires short { length script.old.items ≤ MOST_SCRIPT_BYTES }
    ensures bytes { IfOk result (λ count. Consumes (R.remaining reader.old) (R.remaining reader.new) (take count chunk.new)
        × (script.new.items ≡ script.old.items ++ take count chunk.new) × (count ≤ length chunk.new)
        × (R.given reader.new ≡ R.given reader.old ++ take count chunk.new)) }
    ensures end { IfOk result (λ count. count ≡ 0 → IsAtEnd (R.remaining reader.new) × (R.has_ended reader.new ≡ true)) }
    ensures length { OnOk result (length script.new.items ≤ MOST_SCRIPT_BYTES) }
    ensures failures { OnOk result (R.failures reader.new ≡ R.failures reader.old) }
    ensures memory { IsErrOf result Stop.Memory → (R.failures reader.new ≡ R.failures reader.old)
        × ConsumesAtMost (MOST_SCRIPT_BYTES - length script.old.items) (R.remaining reader.old) (R.remaining reader.new)
        × GivesAtMost (MOST_SCRIPT_BYTES - length script.old.items) (R.given reader.old) (R.given reader.new) }
    ensures stopped { IsErrOf result Stop.Stopped → ⊥ }
    ensures device { IsErrOf result Stop.Device
        → (HasRisen (R.failures reader.old) (R.failures reader.new) × (R.given reader.new ≡ R.given reader.old))
        ⊎ GivesMore (MOST_SCRIPT_BYTES - length script.old.items) (R.given reader.old) (R.given reader.new) (R.remaining reader.old) }
{
    match reader.read(chunk) {
        Ok(count) if count > MOST_SCRIPT_BYTES - script.len() => Err(Stop::Device),
        Ok(count) => {
            script.extend_from_slice(&chunk[..count])?;
            Ok(count)
        }
        Err(_) => Err(Stop::Device),
    }
}

/// Reads a script to its end.
#[tactic(auto, using(crate::proofs::SourceLemmas::Consumes_append, crate::proofs::SourceLemmas::Consumes_whole, crate::proofs::SourceLemmas::Consumes_long))]
pub fn read_script<R: Source>(alloc: Global, reader: &mut R) -> Result<Vec<u8>, Stop>
    ensures script { IfOk result (λ script. IfSome (R.remaining reader.old) (λ bytes. script.items ≡ bytes)) }
    ensures given { IfOk result (λ script. R.given reader.new ≡ R.given reader.old ++ script.items) }
    ensures end { OnOk result (IsAtEnd (R.remaining reader.new)) }
    ensures ended { OnOk result (R.has_ended reader.new ≡ true) }
    ensures consumed { IfOk result (λ script. Consumes (R.remaining reader.old) (R.remaining reader.new) script.items) }
    ensures length { IfOk result (λ script. length script.items ≤ MOST_SCRIPT_BYTES) }
    ensures failures { OnOk result (R.failures reader.new ≡ R.failures reader.old) }
    ensures memory { IsErrOf result Stop.Memory → (R.failures reader.new ≡ R.failures reader.old)
        × ConsumesAtMost MOST_SCRIPT_BYTES (R.remaining reader.old) (R.remaining reader.new)
        × GivesAtMost MOST_SCRIPT_BYTES (R.given reader.old) (R.given reader.new) }
    ensures stopped { IsErrOf result Stop.Stopped → ⊥ }
    ensures device { IsErrOf result Stop.Device
        → (HasRisen (R.failures reader.old) (R.failures reader.new) × GivesAtMost MOST_SCRIPT_BYTES (R.given reader.old) (R.given reader.new))
        ⊎ GivesMore MOST_SCRIPT_BYTES (R.given reader.old) (R.given reader.new) (R.remaining reader.old) }
{
    let mut script = Vec::new(alloc);
    let mut chunk = [0; CHUNK_BYTES];
    for _ in 0..MOST_READS {
        if read_more(reader, &mut chunk, &mut script)? == 0 {
            return Ok(script);
        }
    }
    unreachable!()
}

/// Where the first newline of a string is.
fn first_newline(text: &[u8]) -> Option<usize>
    ensures { result ≡ position (λ b. b == 10) text.now }
{
    memchr(b'\n', text)
}

/// The first line of a string, and what follows its newline, if it has one.
#[tactic(auto, using(crate::proofs::ScriptLemmas::line_at, crate::proofs::ScriptLemmas::line_alone))]
pub(crate) fn first_line(text: &[u8]) -> (&[u8], Option<&[u8]>)
    ensures lines { lines_of text.now ≡ result.0.now ∷ lines_left (option_copied result.1) }
    ensures shorter { bytes_left (option_copied result.1) ≤ length text.now }
{
    match first_newline(text) {
        Some(at) => (&text[..at], Some(&text[at + 1..])),
        None => (text, None),
    }
}

/// The first line of a string, of which its length is known, and what follows its newline, if it has one.
#[inline(always)]
#[tactic(auto, using(crate::proofs::ScriptLemmas::len_le, crate::proofs::ScriptLemmas::first_line_is, crate::proofs::ScriptLemmas::line_then, crate::proofs::ScriptLemmas::line_last, crate::proofs::ScriptLemmas::rest_shorter))]
pub(crate) fn line_of_len(text: &[u8], len: usize) -> (&[u8], Option<&[u8]>)
    requires { len ≡ line_len text.now }
    ensures line { result.0.now ≡ line_in text.now }
    ensures lines { lines_of text.now ≡ result.0.now ∷ lines_left (option_copied result.1) }
    ensures shorter { bytes_left (option_copied result.1) ≤ length text.now }
{
    let (line, after) = text.split_at(len);
    if after.is_empty() {
        return (line, None);
    }
    let (_, rest) = after.split_at(1);
    (line, Some(rest))
}
