//! What is wrong with a write of which no byte can be taken.

ghost use Rattle.std.specs.Prelude.{◌≡◌};
ghost use Rattle.mount_stub_files.specs.WrongWords as wrong;

use crate::word::spaces_len;
use mount_tree::{File, ToolFile, TopTool};

/// What is wrong, in one sentence, with a write to this file that is `ToolWrite::Wrong`.
pub fn wrong_words(file: File) -> &'static str
    ensures { result.now ≡ wrong.wrong_words file }
{
    match file {
        File::Tool(ToolFile::CurrentTracer) => "expected `nop`, the only tracer",
        File::Tool(ToolFile::TraceClock) => "expected `counter`, the only clock",
        File::Tool(ToolFile::BufferSizeKb) | File::CpuSize(_) => {
            "expected the size that it has: sizes are fixed"
        }
        File::Tool(ToolFile::TracingCpumask) => "expected the mask of all CPUs",
        File::Tool(ToolFile::SetEvent) => {
            "expected an event, as `synthetic:EVENT`, that is declared"
        }
        File::OfTop(TopTool::TracingThresh) => "expected `0`",
        _ => "the file doesn't take what is written",
    }
}

/// The offset of the byte that is to blame for it: where the first word begins.
pub fn wrong_offset(bytes: &[u8]) -> usize
    ensures { result ≡ wrong.wrong_offset bytes.now }
{
    spaces_len(bytes)
}
