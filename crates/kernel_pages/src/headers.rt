//! The texts of `events/header_page`, `events/header_event` and `events/ftrace/print/format`.

ghost use Rattle.std.specs.Prelude.{◌≡◌};
ghost use Rattle.kernel_pages.specs.HeaderTexts as texts;

const HEADER_PAGE: &[u8] = b"\
\tfield: u64 timestamp;\toffset:0;\tsize:8;\tsigned:0;
\tfield: local_t commit;\toffset:8;\tsize:8;\tsigned:1;
\tfield: int overwrite;\toffset:8;\tsize:1;\tsigned:1;
\tfield: char data;\toffset:16;\tsize:4080;\tsigned:0;
";

const HEADER_EVENT: &[u8] = b"\
# compressed entry header
\ttype_len    :    5 bits
\ttime_delta  :   27 bits
\tarray       :   32 bits

\tpadding     : type == 29
\ttime_extend : type == 30
\ttime_stamp : type == 31
\tdata max type_len  == 28
";

const PRINT_FORMAT: &[u8] = b"\
name: print
ID: 5
format:
\tfield:unsigned short common_type;\toffset:0;\tsize:2;\tsigned:0;
\tfield:unsigned char common_flags;\toffset:2;\tsize:1;\tsigned:0;
\tfield:unsigned char common_preempt_count;\toffset:3;\tsize:1;\tsigned:0;
\tfield:int common_pid;\toffset:4;\tsize:4;\tsigned:1;

\tfield:unsigned long ip;\toffset:8;\tsize:8;\tsigned:0;
\tfield:char buf[];\toffset:16;\tsize:0;\tsigned:0;

print fmt: \"%ps: %s\", (void *)REC->ip, REC->buf
";

/// The text of `events/header_page`: where the time, the commit and the events of a page are.
#[tactic(auto, unfolding(crate::specs::HeaderTexts::header_page))]
pub fn header_page() -> &'static [u8]
    ensures { result.now ≡ texts.header_page }
{
    HEADER_PAGE
}

/// The text of `events/header_event`: the parts of an event's first word.
#[tactic(auto, unfolding(crate::specs::HeaderTexts::header_event))]
pub fn header_event() -> &'static [u8]
    ensures { result.now ≡ texts.header_event }
{
    HEADER_EVENT
}

/// The text of `events/ftrace/print/format`, an event that Linux has itself and whose `format` clients read.
#[tactic(auto, unfolding(crate::specs::HeaderTexts::print_format))]
pub fn print_format() -> &'static [u8]
    ensures { result.now ≡ texts.print_format }
{
    PRINT_FORMAT
}
