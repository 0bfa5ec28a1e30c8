//! What `--help` says beside the options.

pub(crate) const USAGE: &str = "tracectl_mount [OPTIONS]";

pub(crate) const ABOUT: &str =
    "Serves the files of a tracer: reads a kernel's FUSE requests from standard input and writes the replies to standard output.";

/// What follows the options.
pub(crate) const MORE: &str = "\
./tracectl-mount mounts a tracer on a folder and starts this program. By hand, as root:
  exec 3<>/dev/fuse
  mount -i -t fuse -o fd=3,rootmode=40000,user_id=0,group_id=0 '#tracectl' DIR
  tracectl_mount <&3 >&3

Exit status:
  0  the input ended, or DIR was unmounted
  2  the command line is wrong, or a number is out of range
  3  out of memory
  4  what was read is no request
  5  reading or writing failed";
