//! Lines, as words say them.

ghost use Rattle.std.specs.Prelude.{◌≡◌, IfOk, map, option_map, string_bytes};
ghost use Rattle.command_line.specs.Words.{line_of, value_of};
ghost use Rattle.command_line.specs.Views.{shapes_view};

use crate::NoMemory;
use crate::form::are_line;
use crate::parser::parse;
use crate::shape::Shape;
use clap::ArgMatches;
use std::alloc::{AllocError, Global};
use std::marker::Model;

/// A command of a table, and the options that are given to it.
#[derive(Debug, Drop)]
pub struct Line<'a> {
    command: &'a str,
    options: ArgMatches<'a>,
}

impl<'a> Model for Line<'a> {
    ghost use Rattle.std.specs.Prelude.{map};
    ghost use Rattle.clap.specs.Walk.{rows_of};
    ghost use Rattle.clap.specs.Matches.{found_of};
    ghost use Rattle.command_line.specs.Words as words;
    ghost use Rattle.command_line.specs.Table.{given_of, AreGiven};

    ghost Value = { words.Line };

    ghost view = { λ l. record { command = l.command.now; options = map given_of (rows_of (found_of l.options)) } };

    ghost invariant = { λ l. AreGiven (rows_of (found_of l.options)) };
}

impl<'a> Line<'a> {
    /// The name of the command.
    pub fn command(&self) -> &'a str
        ensures { result.now ≡ self.now.command }
    {
        self.command
    }

    /// The value of the option of this name, if it is given.
    pub fn value(&self, name: &str) -> Option<&'a str>
        ensures { option_map (λ s. s.now) result ≡ value_of name.now self.now.options }
    {
        self.options.get_str(name)
    }
}

/// The line that words say over a table of commands, if they say one.
pub fn read_words<'a>(
    alloc: Global,
    shapes: &[Shape],
    words: &'a [String],
) -> Result<Option<Line<'a>>, NoMemory>
    ensures { IfOk result (λ found. found ≡ line_of (shapes_view shapes.now) (map (λ w. string_bytes w) words.entry.now)) }
{
    if !are_line(alloc, shapes, words)? {
        return Ok(None);
    }
    match parse(alloc, shapes, words) {
        Ok(mut matches) => match matches.remove_subcommand() {
            Some((command, options)) => Ok(Some(Line { command, options })),
            None => Ok(None),
        },
        // The form of the words was tested, so clap can want memory, and nothing else.
        Err(_) => Err(AllocError),
    }
}
