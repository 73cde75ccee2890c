//! What a shell completes behind `poolrun`: its commands and their flags, as the command line has them.

use clap::{Arg, Command};
use std::alloc::{AllocError, Global};
use std::fmt;

/// A shell that completes words.
#[derive(Clone, Copy, Debug, PartialEq, Eq)]
pub enum Shell {
    /// `bash`
    Bash,
    /// `zsh`
    Zsh,
    /// `fish`
    Fish,
}

/// The names of the shells.
pub const SHELLS: [&str; 3] = ["bash", "zsh", "fish"];

/// The words that say when messages have colours.
pub const COLOURS: [&str; 3] = ["auto", "always", "never"];

/// By what the time of a picture runs.
pub const TIMES: [&str; 2] = ["entries", "ticks"];

/// The shell of this name.
pub fn shell_of(name: &str) -> Option<Shell> {
    match name {
        "bash" => Some(Shell::Bash),
        "zsh" => Some(Shell::Zsh),
        "fish" => Some(Shell::Fish),
        _ => None,
    }
}

/// The names of commands, each behind a space.
#[derive(Clone, Copy)]
struct Names<'a, 'b>(&'b [Command<'a>]);

impl fmt::Display for Names<'_, '_> {
    fn fmt<W: fmt::Write>(&self, f: &mut fmt::Formatter<W>) -> fmt::Result {
        for command in self.0 {
            let name = command.get_name();
            write!(f, " {name}")?;
        }
        Ok(())
    }
}

/// The flags among these arguments, each behind a space.
#[derive(Clone, Copy)]
struct Flags<'a, 'b>(&'b [Arg<'a>]);

impl fmt::Display for Flags<'_, '_> {
    fn fmt<W: fmt::Write>(&self, f: &mut fmt::Formatter<W>) -> fmt::Result {
        for arg in self.0 {
            if let Some(name) = arg.get_long() {
                write!(f, " --{name}")?;
            }
        }
        Ok(())
    }
}

/// Words within single quotes, as fish reads them.
#[derive(Clone, Copy)]
struct Quoted<'a>(&'a str);

impl fmt::Display for Quoted<'_> {
    fn fmt<W: fmt::Write>(&self, f: &mut fmt::Formatter<W>) -> fmt::Result {
        f.write_str("'")?;
        for letter in self.0.chars() {
            if letter == '\'' || letter == '\\' {
                f.write_str("\\")?;
            }
            f.write_char(letter)?;
        }
        f.write_str("'")
    }
}

/// What stands in the script of bash behind the flags of each command. A word that is no flag is a file's name.
const BASH_END: &str = "        esac
    fi
    if [ \"$COMP_CWORD\" -eq 1 ] || [ \"${word:0:1}\" = - ]; then
        COMPREPLY=($(compgen -W \"$words\" -- \"$word\"))
    fi
}
complete -o default -F _poolrun poolrun
";

/// The script for bash.
fn write_bash(text: &mut String, program: &Command<'_>) -> Result<(), AllocError> {
    let names = Names(program.get_subcommands());
    let shared = Flags(program.get_arguments());
    write!(
        text,
        "_poolrun() {{
    local word=\"${{COMP_WORDS[COMP_CWORD]}}\" words=
    COMPREPLY=()
    if [ \"$COMP_CWORD\" -eq 1 ]; then
        words='{names} help --help --version'
    else
        case \"${{COMP_WORDS[1]}}\" in
"
    )?;
    for command in program.get_subcommands() {
        let name = command.get_name();
        let flags = Flags(command.get_arguments());
        write!(
            text,
            "            {name}) words='{flags}{shared} --help' ;;\n"
        )?;
    }
    text.push_str(BASH_END)
}

/// What stands in the script of zsh behind the flags of each command, whether it is sourced or lies in a folder of functions.
const ZSH_END: &str = "        esac
    else
        _files
    fi
}
if [ \"$funcstack[1]\" = _poolrun ]; then
    _poolrun \"$@\"
else
    compdef _poolrun poolrun
fi
";

/// The script for zsh.
fn write_zsh(text: &mut String, program: &Command<'_>) -> Result<(), AllocError> {
    let names = Names(program.get_subcommands());
    let shared = Flags(program.get_arguments());
    write!(
        text,
        "#compdef poolrun
_poolrun() {{
    if (( CURRENT == 2 )); then
        compadd --{names} help --help --version
    elif [[ \"$PREFIX\" == -* ]]; then
        case \"${{words[2]}}\" in
"
    )?;
    for command in program.get_subcommands() {
        let name = command.get_name();
        let flags = Flags(command.get_arguments());
        write!(
            text,
            "            {name}) compadd --{flags}{shared} --help ;;\n"
        )?;
    }
    text.push_str(ZSH_END)
}

/// The words that a flag takes, where it does not take any word.
fn words_of(flag: &str) -> Option<&'static [&'static str]> {
    match flag {
        "color" => Some(COLOURS.as_slice()),
        "by" => Some(TIMES.as_slice()),
        _ => None,
    }
}

/// What fish asks behind the flag of this name: nothing, one of some words, or any word.
#[derive(Clone, Copy)]
struct Asked<'a, 'b>(&'b Arg<'a>, &'a str);

impl fmt::Display for Asked<'_, '_> {
    fn fmt<W: fmt::Write>(&self, f: &mut fmt::Formatter<W>) -> fmt::Result {
        if !self.0.get_action().takes_values() {
            return Ok(());
        }
        let Some(words) = words_of(self.1) else {
            return f.write_str(" -r");
        };
        f.write_str(" -x -a '")?;
        for word in words {
            write!(f, " {word}")?;
        }
        f.write_str("'")
    }
}

/// Where fish completes a flag: behind its command, or anywhere.
#[derive(Clone, Copy)]
struct Place<'a>(Option<&'a str>);

impl fmt::Display for Place<'_> {
    fn fmt<W: fmt::Write>(&self, f: &mut fmt::Formatter<W>) -> fmt::Result {
        match self.0 {
            Some(name) => write!(f, " -n '__fish_seen_subcommand_from {name}'"),
            None => Ok(()),
        }
    }
}

/// The flags among these arguments, for fish.
fn write_fish_flags(
    text: &mut String,
    place: Place<'_>,
    arguments: &[Arg<'_>],
) -> Result<(), AllocError> {
    for arg in arguments {
        if let Some(flag) = arg.get_long() {
            let asked = Asked(arg, flag);
            let help = Quoted(arg.get_help().unwrap_or(""));
            write!(
                text,
                "complete -c poolrun{place} -l {flag}{asked} -d {help}\n"
            )?;
        }
    }
    Ok(())
}

/// The script for fish.
fn write_fish(text: &mut String, program: &Command<'_>) -> Result<(), AllocError> {
    for command in program.get_subcommands() {
        let name = command.get_name();
        let about = Quoted(command.get_about().unwrap_or(""));
        write!(
            text,
            "complete -c poolrun -f -n __fish_use_subcommand -a {name} -d {about}\n"
        )?;
        write_fish_flags(text, Place(Some(name)), command.get_arguments())?;
    }
    write_fish_flags(text, Place(None), program.get_arguments())
}

/// The script that has a shell complete the commands of a program, and their flags.
pub fn script(alloc: Global, shell: Shell, program: &Command<'_>) -> Result<String, AllocError> {
    let mut text = String::new(alloc);
    match shell {
        Shell::Bash => write_bash(&mut text, program)?,
        Shell::Zsh => write_zsh(&mut text, program)?,
        Shell::Fish => write_fish(&mut text, program)?,
    }
    Ok(text)
}
