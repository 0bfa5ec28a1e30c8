//! What `--help` says beside the options.
//!
//! `python3 tests/cases/helping.py` makes the man page and the shell completion of the whole text. A heading ends with a colon, what is below it is
//! indented, and two blanks separate a term from its description.

pub(crate) const USAGE: &str = "tracectl [OPTIONS] SCRIPT
       tracectl [OPTIONS] -c LINE ..";

pub(crate) const ABOUT: &str =
    "The control side of a tracer, without a kernel: runs the commands of a script and prints what they read.";

/// What follows the options.
pub(crate) const MORE: &str = "\
Scripts:
  A script has one command on each line. A line that begins with # is a comment. After -c each word is a line, up to the next option.
  emit CPU PID EVENT FIELD=VALUE ..  an event happens on a CPU, in a process
  echo WORD .. > PATH                writes to a file, as does >>
  cat PATH                           reads a file
  take N PATH                        reads at most N records of a pipe
  mkdir PATH, rmdir PATH             make and remove an instance
  parallel, thread, end              threads whose commands run concurrently

Files:
  The files are those of Linux tracefs:
  synthetic_events                   declarations of events
  events/synthetic/EVENT/..          enable, filter, trigger, hist and format of an event
  events/enable                      the switches of all events
  trace, trace_pipe                  records of all CPUs: to look at, to consume
  per_cpu/cpuN/..                    trace, trace_pipe and stats of one CPU
  snapshot                           the records of the last snapshot
  tracing_on, options/overwrite      whether to record, and to overwrite older records
  instances/NAME/..                  the same files of an instance

Example:
  These three lines record an event, which cat trace then shows as 7 [000] 1: tick: n=5
    echo 'tick u64 n' > synthetic_events
    echo 1 > events/synthetic/tick/enable
    emit 0 7 tick n=5

Building:
  --version tells whether the program is proved. An installed one stays as it is. In the repository ./tracectl first compiles it, in about a
  minute, if it is missing or older than its sources. Nothing of it is proved then, as a line on standard error says. ./tracectl --prove
  proves it: the first time in 25 to 55 minutes. Both need rt, the command of the Rattle kit. ./install then installs the proved one.

Exit status:
  0  every command succeeded
  1  a command was refused, as a line of the output says; the others succeeded
  2  the command line is wrong, a number is out of range, or the script has a fault
  3  out of memory, or a thread could not be started
  4  reading or writing failed, or SCRIPT can't be opened
  5  the program could not be compiled or proved, which only the repository's ./tracectl does";
