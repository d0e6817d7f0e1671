//! The words of the command line: what the commands are, and what their help says.
#![tactic(auto)]

use clap::builder::ValueParser;
use clap::error::ErrorKind;
use clap::{Arg, ArgAction, ArgMatches, Command, Error, value_parser};
use std::alloc::{AllocError, Global};

const EXAMPLE: &str = "Examples:
  gqls serve --root /shop
  gqls check --root /shop
  gqls check schema.graphql query.graphql
  gqls exec --table table.json schema.graphql query.graphql
  gqls rename query.graphql:2:6 NewName schema.graphql query.graphql

An editor starts `serve`, and writes to its standard input and reads from its standard output. The others are for a
command line: `gqls check --help`, `gqls exec --help` and `gqls rename --help` say what they print.";

const SERVE_EXAMPLE: &str = "Example:
  gqls serve --root /shop

An editor starts this command, and writes to its standard input and reads from its standard output. The project is all
files under the folder that end in `.graphql` or `.gql`, and the files that are open. Without a folder it is the files
that are open. Files are read at the start, and each that is closed is read again; start anew after others changed.
Links are passed over. At most 32 levels of folders are read, and 4,096 files. Where there are more, or the folder or a
file cannot be read, the status is 3, and standard error says why.";

const CHECK_EXAMPLE: &str = "Example:
  $ gqls check schema.graphql query.graphql
  query.graphql:1:11: V4 unknown field

The files are one project: its type system, operations and fragments. Each fault is a line: the file, the line
and the column of its start, counted from 1, the code of the rule and a few words; the status is then 1.
Where there is none, it prints `ok`, and the status is 0. At most 4,096 files are read, of at most 4 MiB each.
Where there are more, or a file is larger or cannot be read, the status is 3, and standard error says why.

  $ gqls check --root /shop
  /shop/queries/cart.graphql:8:7: V4 unknown field

Here the project is all files under the folder that end in `.graphql` or `.gql`, found as by `gqls serve --root`.

A code is T1 or T2 where a text does not parse, P1 or P2 where an operation is of no kind that can be executed, S1 to S10
where the type system is wrong, and V1 to V28 where an operation or a fragment is. `--format json` names the section of the
GraphQL specification for each fault; docs/rules.md has all codes with an example each.

With `--format json` each fault is an object on a line, with `file`, `code`, `words`, `section`, and `range`, whose ends
count columns by `utf-16` and by `utf-8`. With `--format github` each is a command that marks the line in a pull request.
Nothing is printed then where there is no fault.";

const RENAME_EXAMPLE: &str = "Example:
  $ gqls rename query.graphql:1:11 Person schema.graphql query.graphql
  query.graphql:1:11-1:15: Person
  query.graphql:1:27-1:31: Person

Renames the fragment or the variable whose name is at that line and column, counted from 1, columns in UTF-16 units, in all
files of the project. Each edit is a line: the file, the start and the end of what is replaced, and the new name. Every
operation fetches the same after it. With `--write` the files are written, each to a new file beside it first, and once all
are written, each in its place.

Where the rename is refused nothing is written, standard error says why, and the status is 1. Where the project is not
valid, standard output has its faults as by `check`. Where a file cannot be read or written the status is 3.";

const EXEC_EXAMPLE: &str = "Example:
  $ gqls exec --table table.json schema.graphql query.graphql
  {\"data\":{\"x\":1}}

Here table.json says what the resolver of each field answers for each object, `Query` being object 0:
  {\"rows\":[{\"type\":\"Query\",\"object\":0,\"field\":\"x\",\"args\":{},\"result\":{\"leaf\":1}}]}
A result is null, {\"error\":true}, {\"leaf\":VALUE}, {\"object\":[TYPE,NUMBER]} or {\"list\":[RESULT,..]}. For a field
`pets(kind: CAT, near: {city: \"Rome\"})` the arguments are
  {\"kind\":{\"enum\":\"CAT\"},\"near\":{\"object\":{\"city\":\"Rome\"}}}

The status is 0 where there is a response, also one with errors. Where the files are no valid project, the faults are
printed as by `check`, and the status is 1. A bad table or bad variables give the status 2, and a file that cannot be
read, or is too large, 3; standard error says why. With `--verbose` it says which row of the table is bad, and why.";

/// The forms in which faults are printed.
const FORMATS: &[&str] = &["text", "json", "github"];

/// The version of the program.
const VERSION: &str = "0.1.0";

/// How many workers there are where the command line does not say.
const WORKERS: &str = "2";

/// The number of workers.
fn workers_argument<'a>(alloc: Global) -> Arg<'a> {
    Arg::new(alloc, "workers")
        .long("workers")
        .value_name("N")
        .help("How many threads answer beside the one that reads, 0 to 8; with 0 that one answers")
        .value_parser(value_parser!(u8).range(0..=8))
        .default_value(WORKERS)
}

/// The folder of the project.
fn root_argument<'a>(alloc: Global) -> Arg<'a> {
    Arg::new(alloc, "root").long("root").value_name("DIR").help(
        "The folder of the project: its whole path, from `/` on, without `.` and `..`",
    )
}

/// That the standard streams are served, as they are anyway.
fn stdio_argument<'a>(alloc: Global) -> Arg<'a> {
    Arg::new(alloc, "stdio")
        .long("stdio")
        .help("Serves on the standard streams, as it does without this word")
        .action(ArgAction::SetTrue)
}

/// The command `serve`, with the number of workers, and with the folder of the project.
fn serve_command<'a>(alloc: Global) -> Result<Command<'a>, AllocError> {
    Command::new(alloc, "serve")
        .about("Serves the language server protocol on the standard streams")
        .after_help(SERVE_EXAMPLE)
        .arg(workers_argument(alloc))?
        .arg(root_argument(alloc))?
        .arg(stdio_argument(alloc))
}

/// In which form faults are printed.
fn format_argument<'a>(alloc: Global) -> Arg<'a> {
    Arg::new(alloc, "format")
        .long("format")
        .value_name("FORMAT")
        .help("In which form faults are printed")
        .value_parser(ValueParser::Names(FORMATS))
        .default_value("text")
}

/// Whether standard error says why a file cannot be read.
fn verbose_argument<'a>(alloc: Global) -> Arg<'a> {
    Arg::new(alloc, "verbose")
        .long("verbose")
        .help("Says on standard error which file is at fault, and why")
        .action(ArgAction::SetTrue)
}

/// The names of files, any number of them.
fn names_argument<'a>(alloc: Global) -> Arg<'a> {
    Arg::new(alloc, "files")
        .value_name("FILE")
        .help("The files of the project, schema and queries in any order")
        .action(ArgAction::Append)
        .num_args(1..)
}

/// The names of files, where the folder that they lie in is not given.
fn files_argument<'a>(alloc: Global) -> Result<Arg<'a>, AllocError> {
    names_argument(alloc)
        .required_unless_present("root")?
        .conflicts_with("root")
}

/// The command `check`, with the names of files, or with the folder that they lie in.
fn check_command<'a>(alloc: Global) -> Result<Command<'a>, AllocError> {
    Command::new(alloc, "check")
        .about("Checks files as one project, and prints what is wrong with it")
        .after_help(CHECK_EXAMPLE)
        .arg(format_argument(alloc))?
        .arg(verbose_argument(alloc))?
        .arg(root_argument(alloc))?
        .arg(files_argument(alloc)?)
}

/// Whether the edited files are written.
fn write_argument<'a>(alloc: Global) -> Arg<'a> {
    Arg::new(alloc, "write")
        .long("write")
        .help("Writes the edited files")
        .action(ArgAction::SetTrue)
}

/// The place of what is renamed.
fn place_argument<'a>(alloc: Global) -> Arg<'a> {
    Arg::new(alloc, "place")
        .value_name("FILE:LINE:COLUMN")
        .help("Where the name of a fragment or a variable is")
        .required(true)
}

/// The new name.
fn name_argument<'a>(alloc: Global) -> Arg<'a> {
    Arg::new(alloc, "name")
        .value_name("NAME")
        .help("The new name, without `$`")
        .required(true)
}

/// The command `rename`, with a place, a name, and the names of files or the folder that they lie in.
fn rename_command<'a>(alloc: Global) -> Result<Command<'a>, AllocError> {
    Command::new(alloc, "rename")
        .about("Renames a fragment or a variable in all files of a project")
        .after_help(RENAME_EXAMPLE)
        .arg(write_argument(alloc))?
        .arg(verbose_argument(alloc))?
        .arg(root_argument(alloc))?
        .arg(place_argument(alloc))?
        .arg(name_argument(alloc))?
        .arg(files_argument(alloc)?)
}

/// Which operation is executed.
fn operation_argument<'a>(alloc: Global) -> Arg<'a> {
    Arg::new(alloc, "op")
        .long("op")
        .value_name("NAME")
        .help("The operation, where the files have more than one")
}

/// What resolvers answer.
fn table_argument<'a>(alloc: Global) -> Arg<'a> {
    Arg::new(alloc, "table")
        .long("table")
        .value_name("FILE")
        .help("What resolvers answer, as JSON")
        .required(true)
}

/// The values of variables.
fn variables_argument<'a>(alloc: Global) -> Arg<'a> {
    Arg::new(alloc, "vars")
        .long("vars")
        .value_name("FILE")
        .help("Values for the operation's variables, as a JSON object")
}

/// The command `exec`, with what is executed, over which table and with which variables.
fn exec_command<'a>(alloc: Global) -> Result<Command<'a>, AllocError> {
    Command::new(alloc, "exec")
        .about("Executes an operation of files over a table, and prints the response")
        .after_help(EXEC_EXAMPLE)
        .arg(verbose_argument(alloc))?
        .arg(operation_argument(alloc))?
        .arg(table_argument(alloc))?
        .arg(variables_argument(alloc))?
        .arg(names_argument(alloc).required(true))
}

/// The program, with its commands.
fn gqls_command<'a>(alloc: Global) -> Result<Command<'a>, AllocError> {
    Command::new(alloc, "gqls")
        .version(VERSION)
        .about("A language server for GraphQL")
        .after_help(EXAMPLE)
        .subcommand_required(true)
        .subcommand(serve_command(alloc)?)?
        .subcommand(check_command(alloc)?)?
        .subcommand(exec_command(alloc)?)?
        .subcommand(rename_command(alloc)?)
}

/// What the words say.
pub fn parse_words<'a>(alloc: Global, words: &'a [String]) -> Result<ArgMatches<'a>, Error> {
    gqls_command(alloc)?.try_get_matches_from(words)
}

/// That a word is no text, with how the program is called.
pub fn not_utf8(alloc: Global) -> Result<Error, AllocError> {
    let mut command = gqls_command(alloc)?;
    command.error(ErrorKind::UnknownArgument, "a word is not UTF-8")
}

/// That a word names no place in a file, with how the program is called.
pub fn no_place(alloc: Global, word: &str) -> Result<Error, AllocError> {
    let message = format!(in alloc;
        "invalid value '{word}' for '<FILE:LINE:COLUMN>': no file, line and column, counted from 1"
    )?;
    let mut command = gqls_command(alloc)?;
    command.error(ErrorKind::ValueValidation, message.as_str())
}

/// That a word names no folder, with how the program is called.
pub fn no_folder(alloc: Global, word: &str) -> Result<Error, AllocError> {
    let message = format!(in alloc;
        "invalid value '{word}' for '--root <DIR>': no whole path from `/` on, without `.` and `..`"
    )?;
    let mut command = gqls_command(alloc)?;
    command.error(ErrorKind::ValueValidation, message.as_str())
}
