//! The program's commands and their arguments: one table, of which the parser, the help and the completions are made.

use crate::completions::{COLOURS, SHELLS, TIMES};
use clap::builder::ValueParser;
use clap::{Arg, ArgAction, Command};
use std::alloc::{AllocError, Global};

/// How an argument is given.
#[derive(Clone, Copy)]
enum Given {
    /// A word in its place, which must be there.
    Place,
    /// Words in their place, at least one.
    Places,
    /// One of these words in its place.
    PlaceOf(&'static [&'static str]),
    /// A flag alone.
    Switch,
    /// A flag with a word. The help calls the word so.
    Word(&'static str),
    /// As `Word`. One letter says it too.
    WordBy(char, &'static str),
    /// A flag with a word. The flag may stand several times.
    Words(&'static str),
    /// A flag with one of these words.
    WordOf(&'static str, &'static [&'static str]),
    /// A flag with a number, from this one on.
    Number(&'static str, u64),
}

/// An argument: its name, how it is given, and what the help tells of it.
type Argument = (&'static str, Given, &'static str);

/// Some arguments of a command, and the others that they may not go with, or must go with.
type Rule = (&'static [&'static str], &'static [&'static str]);

/// A rule for no argument.
const NO_RULE: Rule = (&[], &[]);

/// A command of the program.
#[derive(Clone, Copy)]
struct Subcommand {
    /// Its name.
    name: &'static str,
    /// What the help tells of it.
    about: &'static str,
    /// Its arguments, as the help lists them.
    arguments: &'static [Argument],
    /// Its arguments that do not go with others.
    excludes: Rule,
    /// Its arguments that do not go without others.
    needs: Rule,
}

/// The file of a command that reads a record.
const RECORD: Argument = (
    "FILE",
    Given::Place,
    "the record's text, - for the standard input",
);

/// The flag for JSON.
const JSON: Argument = ("json", Given::Switch, "Answers as JSON, an object a line");

/// The flags of `explore` that say what is wished. Each excludes the others.
const WISHES: [&str; 6] = ["witness", "record", "find", "never", "json", "dot"];

/// The commands, as the help lists them.
const COMMANDS: [Subcommand; 11] = [
    Subcommand {
        name: "steps",
        about: "Runs a scenario of atomic steps and prints its record",
        arguments: &[
            (
                "FILE",
                Given::Place,
                "the scenario's text, - for the standard input",
            ),
            (
                "explain",
                Given::Switch,
                "Tells on the standard error why each step is refused",
            ),
            (
                "strict",
                Given::Switch,
                "Ends with status 1 where a step is refused",
            ),
            (
                "record",
                Given::Switch,
                "Prints the record's text in place of the output",
            ),
            JSON,
        ],
        excludes: (&["json"], &["record"]),
        needs: NO_RULE,
    },
    Subcommand {
        name: "threads",
        about: "Runs a file of jobs by threads and prints the pool's record",
        arguments: &[
            (
                "FILE",
                Given::Place,
                "the jobs' text, - for the standard input",
            ),
            (
                "record",
                Given::Word("PATH"),
                "Writes the record there too, also where the run is refused",
            ),
            (
                "journal",
                Given::Word("PATH"),
                "Writes the record there while the jobs run, so that a killed run leaves one",
            ),
            (
                "tally",
                Given::Switch,
                "Keeps no record: prints the run state and the counters in its place",
            ),
            (
                "any-length",
                Given::Switch,
                "Reads the jobs also beyond 1,048,576 bytes",
            ),
            JSON,
        ],
        excludes: (&["tally"], &["record", "journal", "json"]),
        needs: NO_RULE,
    },
    Subcommand {
        name: "audit",
        about: "Tells whether a record is legal, or its first flaw",
        arguments: &[
            RECORD,
            (
                "any-length",
                Given::Switch,
                "Reads the record line by line, also beyond 1,048,576 bytes",
            ),
            (
                "cut",
                Given::Switch,
                "Tells how far a record is legal that may be cut off, of any length",
            ),
            (
                "explain",
                Given::Switch,
                "Tells on the standard error which entries turn a task away, and why",
            ),
            JSON,
        ],
        excludes: (&["explain"], &["any-length", "cut"]),
        needs: (&["json"], &["cut"]),
    },
    Subcommand {
        name: "explore",
        about: "Tells all that may become of the tasks of callers, whatever the schedule",
        arguments: &[
            (
                "FILE",
                Given::Place,
                "the callers' text, - for the standard input",
            ),
            (
                "witness",
                Given::Number("K", 1),
                "Prints a scenario that `poolrun steps` plays to the end on line K",
            ),
            (
                "record",
                Given::Number("K", 1),
                "Prints the record of a run to the end on line K",
            ),
            (
                "find",
                Given::Words("PART"),
                "Prints a scenario to an end with this part, as 'b rejected'; status 1 where none has all parts",
            ),
            (
                "never",
                Given::Words("PART"),
                "Status 0 just where no end has all these parts; else prints a scenario to one",
            ),
            ("json", Given::Switch, "Prints the ends as JSON"),
            (
                "dot",
                Given::Switch,
                "Prints the graph of states for Graphviz, of 2,000 states at most",
            ),
            (
                "most",
                Given::Number("N", 1),
                "Keeps N states at most, 1000000 where it is left out; status 1 where there are more",
            ),
        ],
        excludes: (&WISHES, &WISHES),
        needs: NO_RULE,
    },
    Subcommand {
        name: "why",
        about: "Tells the story of a task or of a slot: each entry that tells of it, and what became of it",
        arguments: &[
            RECORD,
            JSON,
            (
                "SUBJECT",
                Given::Place,
                "a task as t4, or a worker's slot as w0",
            ),
        ],
        excludes: NO_RULE,
        needs: NO_RULE,
    },
    Subcommand {
        name: "now",
        about: "Tells what the pool was like: its slots, its queue and what is owed",
        arguments: &[
            RECORD,
            JSON,
            (
                "at",
                Given::Number("N", 0),
                "Stands after entry N, and not after the last",
            ),
        ],
        excludes: NO_RULE,
        needs: NO_RULE,
    },
    Subcommand {
        name: "stats",
        about: "Tells a record in numbers: fates, waits, runs, workers and refusals",
        arguments: &[
            RECORD,
            JSON,
            (
                "top",
                Given::Number("N", 0),
                "Names the N tasks that waited longest",
            ),
        ],
        excludes: NO_RULE,
        needs: NO_RULE,
    },
    Subcommand {
        name: "check",
        about: "Holds claims against a record: status 1 where one does not hold, with the entry that breaches it",
        arguments: &[
            RECORD,
            JSON,
            (
                "CLAIM",
                Given::Places,
                "what is to hold, as 'rejected = 0', 'wait <= 100' or 'state = terminated'",
            ),
        ],
        excludes: NO_RULE,
        needs: NO_RULE,
    },
    Subcommand {
        name: "diff",
        about: "Tells the first entry at which two records part, with the pool before it",
        arguments: &[
            RECORD,
            JSON,
            ("OTHER", Given::Place, "the other record's text"),
            (
                "fates",
                Given::Switch,
                "Tells the tasks that ended otherwise",
            ),
        ],
        excludes: NO_RULE,
        needs: NO_RULE,
    },
    Subcommand {
        name: "draw",
        about: "Draws a record, as SVG: the runs of tasks, the queue, the callers and the whole pool",
        arguments: &[
            RECORD,
            (
                "out",
                Given::WordBy('o', "PATH"),
                "Writes the picture there, and not to the standard output",
            ),
            ("from", Given::Number("N", 0), "Draws from entry N on"),
            ("to", Given::Number("N", 0), "Draws to entry N"),
            (
                "by",
                Given::WordOf("TIME", &TIMES),
                "Says by what time runs to the right; by entries without this flag",
            ),
        ],
        excludes: NO_RULE,
        needs: NO_RULE,
    },
    Subcommand {
        name: "completions",
        about: "Prints the script by which a shell completes commands and flags",
        arguments: &[("SHELL", Given::PlaceOf(&SHELLS), "the shell that completes")],
        excludes: NO_RULE,
        needs: NO_RULE,
    },
];

/// An argument, by itself.
fn arg_of<'a>(alloc: Global, argument: Argument) -> Arg<'a> {
    let (name, given, help) = argument;
    let arg = Arg::new(alloc, name).help(help);
    match given {
        Given::Place => arg.required(true).action(ArgAction::Set),
        Given::Places => arg.required(true).num_args(1..).action(ArgAction::Append),
        Given::PlaceOf(words) => arg
            .required(true)
            .action(ArgAction::Set)
            .value_parser(words),
        Given::Switch => arg.long(name).action(ArgAction::SetTrue),
        Given::Word(value) => arg.long(name).value_name(value).action(ArgAction::Set),
        Given::WordBy(letter, value) => arg
            .long(name)
            .short(letter)
            .value_name(value)
            .action(ArgAction::Set),
        Given::Words(value) => arg.long(name).value_name(value).action(ArgAction::Append),
        Given::WordOf(value, words) => arg
            .long(name)
            .value_name(value)
            .action(ArgAction::Set)
            .value_parser(words),
        Given::Number(value, least) => arg
            .long(name)
            .value_name(value)
            .value_parser(ValueParser::unsigned(least, u64::MAX)),
    }
}

/// An argument of this command, which knows the others that do not go with it, and those without which it does not go.
fn among<'a>(
    alloc: Global,
    argument: Argument,
    command: &Subcommand,
) -> Result<Arg<'a>, AllocError> {
    let name = argument.0;
    let mut arg = arg_of(alloc, argument);
    let (subjects, others) = command.excludes;
    if subjects.contains(&name) {
        arg = arg.conflicts_with_all(others)?;
    }
    let (subjects, others) = command.needs;
    if subjects.contains(&name) {
        arg = arg.requires_all(others)?;
    }
    Ok(arg)
}

/// A command with its arguments.
fn command_of<'a>(alloc: Global, row: &Subcommand) -> Result<Command<'a>, AllocError> {
    let mut command = Command::new(alloc, row.name).about(row.about);
    for argument in row.arguments {
        command = command.arg(among(alloc, *argument, row)?)?;
    }
    Ok(command)
}

/// What stands under the help: an example of each command, and the statuses.
const EXAMPLES: &str = "Examples:
  poolrun steps data/shortest-life.txt     runs a scenario, step by step
  poolrun threads data/four-jobs.txt       runs jobs by threads, and prints the record
  poolrun audit data/shortest-record.txt   judges a record by the model
  poolrun explore data/shutdown-race.txt   tells all that may become of the tasks
  poolrun why a-record.txt t4              tells the story of a task, or of a slot w0
  poolrun now a-record.txt --at 28         tells what the pool was like after an entry
  poolrun stats a-record.txt --top 5       tells the record in numbers
  poolrun check a-record.txt 'rejected = 0' 'queued <= 64'   holds claims against the record
  poolrun diff a-record.txt another.txt    tells where two records part
  poolrun draw a-record.txt -o a-record.svg   draws a record, as SVG
  poolrun steps --record - | poolrun audit -   reads the standard input

Status:
  0  the run went to its end, the record is legal, or all is explored
  1  the run was refused: its refusal is the last line on the standard output;
     or the record has a flaw; or, with --strict, a step was refused;
     or there are too many states, no end is as --find says, or one as --never;
     or the record has no such task, slot or entry; or a claim does not hold,
     or two records are not the same
  2  the command line is bad, or asks for help";

/// The program's command line. Each command takes the flag for colours.
pub fn program_command<'a>(alloc: Global) -> Result<Command<'a>, AllocError> {
    let colour = (
        "color",
        Given::WordOf("WHEN", &COLOURS),
        "Colours messages: auto, always or never",
    );
    let mut program = Command::new(alloc, "poolrun")
        .about("Runs scenarios and jobs of a bounded thread pool, and judges its records")
        .version("0.1.0")
        .after_help(EXAMPLES)
        .arg(arg_of(alloc, colour).global(true))?
        .subcommand_required(true);
    for row in &COMMANDS {
        program = program.subcommand(command_of(alloc, row)?)?;
    }
    Ok(program)
}
