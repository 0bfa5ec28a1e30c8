//! A line of a part, kept until its turn comes.

ghost use Rattle.std.specs.Prelude.{IsSome};
ghost use Rattle.trace_script.specs.Lines.{line_of};
ghost use Rattle.script_reader.specs.AskingLines.{command_asked};

/// A line of a part that asks for a command, and its number. The command was read once, to find out that it is one, and is not kept.
#[derive(Drop)]
pub struct PartLine<'a> {
    pub number: usize,
    pub line: &'a [u8],
    pub ghost asks: { IsSome (command_asked (line_of line.now)) },
}
