//! What the definitions of the contracts mean, in the words of the subject (ftrace.rst, "The File System"). Each function does nothing: its
//! contract is a theorem.
#![tactic(auto)]

ghost use Rattle.trace_buffer.specs.Laws.{OneListEach, AllAreByCpu, MergedIsInTimeOrder, OneTimeOrder, CopiesCountTheSame, CopiesMergeTheSame, EachReadTakesEarliest, ReadsConsumeWhatTheyTake, CpuReadsConsumeWhatTheyTake, OtherCpusStay, ReadsOfEachLeaveTheSame, ReadsTakeSoMany, CpuReadsTakeSoMany, WaitingIsRead, CpuWaitingIsRead};

/// A buffer stands for one list of events for each CPU.
pub fn one_list_each()
    ensures { OneListEach }
{}

/// What `merged` shows: all kept records, by timestamp; records of one timestamp by CPU, and those of a CPU in ring order. There is one such
/// list.
pub fn merged_is_in_time_order()
    ensures all { AllAreByCpu }
    ensures merged { MergedIsInTimeOrder }
    ensures only { OneTimeOrder }
{}

/// A copy shows what the buffer showed: as many records, and the same ones by timestamp.
pub fn copies_show_the_same()
    ensures count { CopiesCountTheSame }
    ensures merged { CopiesMergeTheSame }
{}

/// A consuming read of all CPUs takes the first record of a ring; no ring's first record was earlier, and those of lower CPUs were later.
pub fn each_read_takes_the_earliest()
    ensures { EachReadTakesEarliest }
{}

/// Consuming reads, of all CPUs or of one, consume the records that they take and no others.
pub fn reads_consume_what_they_take()
    ensures any { ReadsConsumeWhatTheyTake }
    ensures cpu { CpuReadsConsumeWhatTheyTake }
    ensures others { OtherCpusStay }
{
    page_ring::laws::least_is_read();
}

/// Consuming reads of each CPU, as many as reads of all CPUs take of its records, leave what these leave.
pub fn reads_of_each_leave_the_same()
    ensures { ReadsOfEachLeaveTheSame }
{
    page_ring::laws::least_is_read();
}

/// Consuming reads take a record each while there are any.
pub fn reads_take_so_many()
    ensures any { ReadsTakeSoMany }
    ensures cpu { CpuReadsTakeSoMany }
{
    page_ring::laws::least_is_read();
}

/// A record waits to be read exactly where consuming reads would take one.
pub fn waiting_is_read()
    ensures any { WaitingIsRead }
    ensures cpu { CpuWaitingIsRead }
{
    page_ring::laws::least_is_read();
}
