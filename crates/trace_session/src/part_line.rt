//! A line of a part, as its thread keeps it.

ghost use Rattle.std.specs.Prelude.{IsSome};
ghost use Rattle.trace_script.specs.Lines.{line_of};
ghost use Rattle.script_reader.specs.AskingLines.{command_asked};

/// A line that asks for a command. It is read again when its turn comes.
#[derive(Drop)]
pub struct AskedLine<'a> {
    pub line: &'a [u8],
    pub ghost asks: { IsSome (command_asked (line_of line.now)) },
}
