//! The texts that `--help` and `--version` print.

/// The help of the program.
pub const HELP: &str = "\
Checks, queries and edits TOML files.

Usage: toml-span COMMAND [ARGUMENT]..
       toml-span FILE..    the same as `toml-span check FILE..`

Commands:
  check    report the errors of files
  show     print every value of a file with its byte range
  get      print one value
  fmt      format files
  set      replace a value, or add it
  rename   rename a key
  remove   remove a value with its key, or an array element
  add      add a key to a table
  append   add an element at the end of an array
  insert   add an element before another one
  move     move a value to another path
  edit     make several edits at once
  lsp      run the language server for an editor
  config   print the settings for a file, and where they come from
  explain  print what an error code means
  schema   check schemas, or print commands that fetch them
  help     print this help, or the help of a command

Options:
  -h, --help     print this help
  -V, --version  print the version

`toml-span help COMMAND` describes a command and its exit statuses.
";

/// The help of `check`.
pub(crate) const CHECK: &str = "\
Checks TOML files and reports errors.

Usage: toml-span check [OPTION].. [FILE|DIRECTORY|-]..

Directories are searched recursively for `*.toml`. The search skips hidden
directories, `target`, `node_modules`, and what `.gitignore` and `.ignore`
files list. Without a file, the current directory is searched. For `-`, standard
input is read.

Options:
  --format FORMAT  how to report errors [default: text]
                     text    lines of the file, with marks
                     short   FILE:LINE:COLUMN: CODE: MESSAGE
                     json    one line of JSON for each error
                     github  annotations for GitHub Actions
                     sarif   one SARIF 2.1.0 document for all files
  --color WHEN     auto, always or never [default: auto]; auto means colors on a
                   terminal, or if CLICOLOR_FORCE is set, unless NO_COLOR is set
  --fix            first apply the safe fixes that reports show, and rewrite the
                   files; standard input is only checked
  --unsafe-fixes   with --fix, also apply the unsafe fixes that reports show;
                   they may differ from what was meant
  --diff           with --fix, write no file; print what would change instead of
                   the errors that would be left
  --force          with --fix, write read-only files too
  --change-owner   with --fix, write files whose owner or group can't be kept too
  --in-place       with --fix, write into the files themselves, which keeps their
                   owner, hard links and attributes; a run that is killed may
                   leave half a file
  --toml VERSION   1.0, 1.1 or auto [default: auto]; auto means 1.0 for files
                   named `pyproject.toml`, which pip reads, and 1.1 for others
  --schema FILE    check against this JSON Schema; without this option, a
                   comment such as `#:schema ./app.schema.json` before the first
                   statement of a file names its schema
  --catalog FILE   find the schemas of other files in this catalog, which has
                   SchemaStore's format, with `fileMatch` and `url`
  --schema-map URL=FILE
                   read FILE instead of the schema at URL, since nothing is
                   fetched; if URL ends with `/`, FILE is a folder with the
                   schemas below URL; can be repeated
  --no-formats     ignore the keyword `format` of schemas
  --deny-warnings  treat warnings as errors
  --exclude GLOB   skip matching files and directories in a search; GLOB is
                   written as in a `.gitignore` file; can be repeated
  --config FILE    take settings from FILE, not from the nearest
                   `toml-span.toml` in the directory of a file or above
  --no-config      read no `toml-span.toml`
  --force-exclude  also skip files that are named, if `toml-span.toml` excludes
                   them
  --stdin-name NAME
                   the name of standard input in reports, which also says where
                   its schema is and which version of TOML it has [default: -]
  --quiet          print nothing; only the exit status shows the result
  --               treat all later arguments as files
  -h, --help       print this help

Exit status:
  0  all files are valid
  1  a file has an error, or with --diff: a file would change
  2  a file, its schema or its configuration can't be read, or the arguments are
     wrong
  3  output, or a fixed file, can't be written
  4  out of memory
";

/// The help of `show`.
pub(crate) const SHOW: &str = "\
Prints every value of a TOML file with its path, type and byte range.

Usage: toml-span show FILE

Each value is one line, such as `/server/port integer 16..20`. For `-`, standard
input is read. For a file with an error, one line is printed: `error CODE
START..END LINE:COLUMN`, where lines and columns count from 0.

Exit status:
  0  the file is valid
  1  the file has an error
  2  the file can't be read, is not UTF-8 or is larger than 16 MiB, or the
     arguments are wrong
  3  output can't be written
  4  out of memory
";

/// The help of `get`.
pub(crate) const GET: &str = "\
Prints one value of a TOML file, or of each of several files.

Usage: toml-span get [OPTION].. FILE.. PATH

PATH is a dotted key such as server.ports[0], or a pointer such as
/server/ports/0; positions in arrays count from 0. The empty path '' is the
whole document. For `-`, standard input is read. Directories are searched for
`*.toml`. With several files, each value comes after `FILE: `, or with --items
after a line `FILE:`. Errors go to standard error.

Options:
  --json           print JSON, with dates, inf and nan as strings, and with keys
                   in the order of the file (the default)
  --sort-keys      sort the keys of JSON
  --raw            print strings, floats and dates without quotes, other values
                   as JSON
  --toml           print TOML on one line
  --tagged         print JSON with the type of each scalar, as for toml-test
  --items          print lines with the byte range of each value, as `show` does
  --format FORMAT  how to report errors: text, short, json or github
                   [default: text]
  --color WHEN     auto, always or never [default: auto]
  -h, --help       print this help

Exit status:
  0  the value was printed
  1  a file has an error, or no value at PATH
  2  a file can't be read, or the arguments are wrong
  3  output can't be written
  4  out of memory
";

/// The help of `config`.
pub(crate) const CONFIG: &str = "\
Prints the settings for a file, and where each of them comes from.

Usage: toml-span config [OPTION].. [FILE]

Settings come from the nearest `toml-span.toml` or `.toml-span.toml`, in the
directory of the file or above. The search ends at a directory with an entry
`.git`. The output is TOML. Without a file, the settings that hold for files in
the current directory without an entry in `files` are printed.

Options:
  --config FILE  read this configuration file
  --no-config    read no configuration file
  -h, --help     print this help

Exit status:
  0  done
  2  the configuration file can't be read, or the arguments are wrong
  3  output can't be written
  4  out of memory
";

/// The help of `explain`.
pub(crate) const EXPLAIN: &str = "\
Prints what an error code means, with an example and how to fix it.

Usage: toml-span explain [CODE]

Reports have the code in brackets, as in error[duplicate-key]. Without a code,
all codes are listed.

  toml-span explain duplicate-key

Options:
  -h, --help  print this help

Exit status:
  0  done
  2  no such code, or the arguments are wrong
  3  output can't be written
  4  out of memory
";

/// The help of `schema`.
pub(crate) const SCHEMA: &str = "\
Checks JSON Schemas, or prints commands that fetch them.

Usage: toml-span schema check [OPTION].. FILE..
       toml-span schema get [OPTION].. ADDRESS..

`check` reports wrong keywords and missing documents, and warns of what is not
checked, such as a misspelled keyword. `get` opens no connection. It prints a
shell script that fetches schemas and all they refer to, and writes a catalog:

  toml-span schema get https://json.schemastore.org/pyproject.json | sh
  toml-span check --catalog schemas/catalog.json --schema-map https://=schemas

Options:
  --schema-map URL=FILE  with check, use FILE for the schema at URL, or the files
                         of a folder for all schemas below a URL that ends with /
  --folder FOLDER        with get, where to put the schemas [default: schemas]
  -h, --help             print this help

Exit status:
  0  done
  1  a schema can't be used
  2  the arguments are wrong
  3  output can't be written
  4  out of memory
";

/// The help of `fmt`.
pub(crate) const FMT: &str = "\
Formats TOML files, and keeps their values and comments.

Usage: toml-span fmt [OPTION].. [FILE|DIRECTORY|-]..

Directories are searched recursively for `*.toml`. Without a file, the current
directory is formatted. For `-`, standard input is formatted to standard output.

Options:
  --check         write no file; print the names of files that would change
  --diff          write no file; print what would change
  --sort-keys     sort the keys of each group of lines without a blank line
                  between them; comments move with their keys
  --stdin         the same as `-`
  --width N       maximum width of an array on one line [default: 80 columns]
  --indent N      spaces before an element on a line of its own [default: 4]
  --no-trailing-comma
                  write no comma after the last element on a line of its own
  --expand-arrays auto|keep
                  which arrays get several lines: those that are too wide or end
                  in a comma, or those that have them [default: auto]
  --align-comments
                  keep comments at the ends of lines aligned
  --blank-lines N
                  maximum number of blank lines in a row [default: 1]
  --crlf auto|always|never
                  whether lines end with CRLF; auto: if the first one does
                  [default: auto]
  --exclude GLOB  skip matching files and directories in a search; GLOB is
                  written as in a `.gitignore` file; can be repeated
  --config FILE   take settings from FILE, not from the nearest
                  `toml-span.toml` in the directory of a file or above
  --no-config     read no `toml-span.toml`
  --force-exclude
                  also skip files that are named, if `toml-span.toml` excludes
                  them
  --stdin-name NAME
                  the name of standard input in messages, by which its settings
                  are found [default: -]
  --quiet         print no summary and, with --check, no names
  --force         write read-only files too
  --change-owner  write files whose owner or group can't be kept too
  --in-place      write into the files themselves, which keeps their owner, hard
                  links and attributes; a run that is killed may leave half a
                  file
  --wait SECONDS  how long to wait for another edit of a file [default: 5]
  --              treat all later arguments as files
  -h, --help      print this help

Exit status:
  0  done, or with --check or --diff: no file would change
  1  a file has a syntax error, or with --check or --diff: a file would change
  2  a file or its configuration can't be read, or the arguments are wrong
  3  a result can't be written
  4  out of memory
";

/// The help of `lsp`.
pub const LSP: &str = "\
Runs the language server for an editor, on standard input and output.

Usage: toml-span lsp

The server speaks version 3.17 of the Language Server Protocol: errors with
their fixes, completion, hovers, outlines, renames and formatting. An editor
starts it; `docs/EDITORS.md` says how to set that up.

Options:
  --stdio     accepted, and has no effect
  -h, --help  print this help

Exit status:
  0  the editor shut the server down
  1  the input ended before the editor shut the server down
  2  the input is not a sequence of messages, or the arguments are wrong
  3  a read or a write failed
  4  out of memory
";

/// The help of `set`, without `EDITING`.
pub(crate) const SET: &str = "\
Replaces a value in a TOML file, or adds it if its key is missing, and keeps all
other bytes.

Usage: toml-span set [OPTION].. FILE PATH VALUE

PATH is a dotted key such as server.ports[0], or a pointer such as
/server/ports/0; positions in arrays count from 0. VALUE is TOML, so a string
needs its quotes: '\"text\"'. A table or array that headers or dotted keys define
is replaced only with --replace-table.

  toml-span set Cargo.toml package.version '\"1.3.0\"'
";

/// The help of `rename`, without `EDITING`.
pub(crate) const RENAME: &str = "\
Renames a key in a TOML file wherever it is written, and keeps all other bytes.

Usage: toml-span rename [OPTION].. FILE PATH NAME

PATH is a dotted key such as dependencies.serde, or a pointer such as
/dependencies/serde. NAME is quoted in the file if TOML requires it.

  toml-span rename Cargo.toml dependencies.serde serde1
";

/// The help of `remove`, without `EDITING`.
pub(crate) const REMOVE: &str = "\
Removes a value with its key, or an array element, from a TOML file.

Usage: toml-span remove [OPTION].. FILE PATH

PATH is a dotted key such as server.ports[0], or a pointer such as
/server/ports/0; positions in arrays count from 0. A table is removed with all
its sections. The comment lines directly above a value are removed with it, and
so is the comment at the end of its line.

  toml-span remove Cargo.toml dependencies.serde
";

/// The help of `add`, without `EDITING`.
pub(crate) const ADD: &str = "\
Adds a key with a value to a table of a TOML file, and keeps all other bytes.

Usage: toml-span add [OPTION].. FILE PATH KEY VALUE

PATH is the dotted key of the table, such as server.tls, or a pointer such as
/server/tls; the empty path '' is the document. KEY is quoted in the file if
TOML requires it. VALUE is TOML, so a string needs its quotes: '\"text\"'.

  toml-span add Cargo.toml dependencies log '\"0.4\"'
";

/// The help of `append`, without `EDITING`.
pub(crate) const APPEND: &str = "\
Adds an element at the end of an array in a TOML file.

Usage: toml-span append [OPTION].. FILE PATH VALUE

PATH is the dotted key of the array, such as package.keywords, or a pointer such
as /package/keywords. VALUE is TOML, so a string needs its quotes: '\"text\"'.

  toml-span append Cargo.toml package.keywords '\"parser\"'
";

/// The help of `insert`, without `EDITING`.
pub(crate) const INSERT: &str = "\
Adds an element to an array in a TOML file, before another one.

Usage: toml-span insert [OPTION].. FILE PATH VALUE

PATH names the element that will follow: package.keywords[0], or as a pointer
/package/keywords/0. VALUE is TOML, so a string needs its quotes: '\"text\"'.

  toml-span insert Cargo.toml 'package.keywords[0]' '\"toml\"'
";

/// The help of `move`, without `EDITING`.
pub(crate) const MOVE: &str = "\
Moves a value of a TOML file to another path, with the comments of its lines.

Usage: toml-span move [OPTION].. FILE PATH PATH

A PATH is a dotted key such as server.ports[0], or a pointer such as
/server/ports/0; positions in arrays count from 0. There must be no value at the
second PATH yet; at the position of an element, the value is inserted before it.

  toml-span move Cargo.toml dependencies.log dev-dependencies.log
";

/// The help of `edit`, without `EDITING`.
pub(crate) const EDIT: &str = "\
Makes several edits in a TOML file at once: all of them or none.

Usage: toml-span edit [OPTION].. FILE [-e EDIT]..

An EDIT is an editing command without its FILE argument, such as
`set package.version \"1.3.0\"`. Its last argument is the rest of the line. A
path or key that contains blanks, or begins with a quote, needs quotes:
`remove '\"a b\".c'`. Without `-e`, the edits are read from standard input, one
on a line; blank lines and lines that begin with `#` are ignored.

  toml-span edit Cargo.toml -e 'set package.edition \"2024\"' \\
      -e 'remove dependencies.log'
";

/// The end of the help of each command that edits a file.
pub(crate) const EDITING: &str = "
The file is replaced only if the result is valid TOML and nothing else in it
changes. For `-`, standard input is read, and the result is written to standard
output.

Options:
  --dry-run        print the result, and leave the file as it is
  --diff           print what would change, and leave the file as it is
  --string         take VALUE as plain text, which needs no quotes
  --replace-table  let `set` replace a table or array that headers or dotted
                   keys define
  --force          edit the file even if it is read-only
  --change-owner   edit the file even if its owner or group can't be kept
  --in-place       write into the file itself, which keeps its owner, hard links
                   and attributes; a run that is killed may leave half a file
  --wait SECONDS   how long to wait for another edit of the file [default: 5]
  --config FILE    take the version of TOML from FILE, not from the nearest
                   `toml-span.toml` in the directory of the file or above
  --no-config      read no `toml-span.toml`
  --stdin-name NAME
                   the name of standard input in messages, by which its settings
                   are found [default: -]
  --               treat no later argument as an option
  -h, --help       print this help

Exit status:
  0  done
  1  refused: the file has an error, or the edit is not possible
  2  the file or its configuration can't be read, or the arguments are wrong
  3  the result can't be written
  4  out of memory
";

/// The output of `--version`: the version of the Rust crate toml-span that this program follows, and the version of
/// TOML.
pub const VERSION: &str = "toml-span 0.7.2, for TOML 1.1\n";
