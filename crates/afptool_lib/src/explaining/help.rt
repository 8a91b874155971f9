//! The texts of `--help` and `--version`.

/// What `--version` prints.
pub(crate) const VERSION: &str = "afptool 0.1\n";

/// What `--help` prints.
pub(crate) const HELP: &str =
    "afptool: a client of the Apple Filing Protocol 3.3, and a tool for captures of it

Usage: afptool COMMAND

Commands:
  client [--user NAME:PASSWORD] HOST[:PORT]
                 carries out the script of standard input at a server, as this
                 user or as a guest; the port is 548 where none is said
  replay         has a server in memory take the capture of standard input, and
                 compares what it answers
  check          prints a line for each frame of standard input, the bytes of
                 one direction of a connection
  parcel         tells the format and the sizes of the AppleSingle or
                 AppleDouble file of standard input
  make N K       prints the capture of the number N, which has K calls
  tally N K      counts in that capture
  drill N K      counts what a client is told that makes K calls over links
                 that break

  N is a number below 2^64, K one of at most 100000.

Options:
  -h, --help     prints this
  -V, --version  prints the version

Lines of a script; a PATH is /, or names from the root, parted by /:
  mount VOLUME          mkdir PATH            put PATH BYTES
  get PATH              ls PATH               rm PATH
  mv PATH PATH          cp PATH PATH          swap PATH PATH
  hold PATH             lock N FROM LENGTH    unlock N FROM LENGTH
  drop N                id PATH               find ID
  note PATH TEXT        show PATH             pack PATH
  unpack PATH HEX       bye

Example:
  printf 'mount Share\\nls /\\n' | afptool client --user ann:secret localhost:5548

The page afptool(1) says what each line prints, and what each exit status means.
";
