//! What the help of each subcommand ends in: its statuses, an example, and its page.

/// What the help of `verify` ends in.
pub(crate) const VERIFY: &str = "Status:
  0  no file is bad
  1  a file is bad, or there are too many rules, or --all found no file
  2  the command line is wrong
  3  a file, a folder or an output failed
  4  out of memory

Example:
  devdry verify 60-mine.rules

devdry-verify(1) says more.
";

/// What the help of `query` ends in.
pub(crate) const QUERY: &str = "Status:
  0  the properties were printed, if there are any
  1  a line of query - is too long, or there are too many entries,
     or the index is refused, or --all found no file
  2  the command line is wrong
  3  a file, a folder, the input or an output failed
  4  out of memory

Example:
  devdry query --sources usb:v1D6Bp0002

devdry-query(1) says more.
";

/// What the help of `update` ends in.
pub(crate) const UPDATE: &str = "Status:
  0  the index was written
  1  there is a message and --strict was given, or there are
     too many entries, or --all found no file
  2  the command line is wrong
  3  a file, a folder or an output failed
  4  out of memory

Example:
  devdry update 20-usb.hwdb > hwdb.index

devdry-update(1) says more.
";

/// What the help of `events` ends in.
pub(crate) const EVENTS: &str = "Status:
  0  all blocks were answered
  1  a block is faulty, or there are too many rules or entries,
     or the index is refused, or --all found no rules file
  2  the command line is wrong, or --why names what no rule has
  3  a file, a folder, the input or an output failed
  4  out of memory

Example:
  devdry events 60-mine.rules < disk.block

devdry-events(1) says more.
";

/// What the help of `files` ends in.
pub(crate) const FILES: &str = "Status:
  0  the files were listed
  1  there is no file
  2  the command line is wrong
  3  a file, a folder or an output failed
  4  out of memory

Example:
  devdry files -r /mnt

devdry-files(1) says more.
";

/// What the help of `compare` ends in.
pub(crate) const COMPARE: &str = "Status:
  0  no answer differs
  1  an answer differs, or a block is faulty, or a root has no
     rules, or there are too many rules or entries, or the index
     is refused
  2  the command line is wrong
  3  a file, a folder, the input or an output failed
  4  out of memory

Example:
  devdry compare /mnt/old /mnt/new < disk.block

devdry-compare(1) says more.
";

/// What the help of `fmt` ends in.
pub(crate) const FMT: &str = "Status:
  0  the files were mended, or with --check none would change
  1  with --check a file would change
  2  the command line is wrong
  3  a file, the input or an output failed
  4  out of memory

Example:
  devdry fmt 60-mine.rules > mended.rules

devdry-fmt(1) says more.
";

/// What the help of `explain` ends in.
pub(crate) const EXPLAIN: &str = "Status:
  0  the message was explained
  2  the command line is wrong, or no message has the code
  3  an output failed
  4  out of memory

Example:
  devdry explain V6

devdry-explain(1) says more.
";
