//! What the program says of itself.

/// What `--help` writes.
pub const HELP: &str = "\
Formats justfiles, or tells what is wrong with them.

usage: justfiles [--check | --diff | --lint | --list] [--in-place] [--] [FILE | FOLDER]..
       justfiles [--check | --diff | --lint] [--name FILE] -

without an option  formats the files: a new one takes the place of each that it changes
--list             does that, and writes the name of each file that it changes
--in-place         writes into the files themselves, which keep their access lists and attributes
--check            writes the name of each file that isn't formatted
--diff             writes what formatting would change, as `patch -p0` takes it
--lint             writes what is wrong with names and settings in each file
--name FILE        the name of standard input in messages
-h, --help         writes this text
-V, --version      writes the version

For a FOLDER it takes the justfiles in it and below: each `justfile`, `.justfile` and `*.just`, in
any case, but for `.git`, links and mounts. Without a FILE or FOLDER it takes the justfile that
`just` would find, and for - standard input, whose formatted text it writes to standard output.
Names that begin with - come after --. With --check, --list changes nothing; --in-place goes with
--list or alone. The status is 0 if all files are formatted, 1 if one isn't, 2 if one is no justfile,
and 3 if anything else fails; with --lint 1 if anything is wrong with one.
";
