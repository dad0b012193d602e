//! The table as a command of clap.

ghost use Rattle.std.specs.Prelude.{◌≡◌, ◌<◌, IsTrue, IfOk, IfErr, [], Some, map, length, fold, false, is_some, string_bytes};
ghost use Rattle.clap.specs.Words.{app_of, kind_of, subcommand_rows_of};
ghost use Rattle.clap.specs.declared.builder.command.Command.TheViews.{out-Command as fields_of};
ghost use Rattle.command_line.specs.Words.{Line, line_of};
ghost use Rattle.command_line.specs.Table.{leaf_for, app_for, row_for, with_option};
ghost use Rattle.command_line.specs.Views.{texts, shape_view, shapes_view};

use crate::NoMemory;
use crate::shape::Shape;
use clap::error::ErrorKind;
use clap::{Arg, ArgMatches, Command, Error};
use std::alloc::Global;

// The command, with options of these names.
fn with_options<'a>(
    alloc: Global,
    command: Command<'a>,
    names: &[&'static str],
) -> Result<Command<'a>, NoMemory>
    ensures app { IfOk result (λ made. app_of made ≡ fold with_option (app_of command.entry) (texts names.now)) }
    ensures local { IfOk result (λ made. (fields_of made).has_globals ≡ (fields_of command.entry).has_globals) }
{
    let mut command = command;
    for option in names {
        command = command.arg(Arg::new(alloc, option).long(option))?;
    }
    Ok(command)
}

fn subcommand_of<'a>(alloc: Global, shape: Shape) -> Result<Command<'a>, NoMemory>
    ensures app { IfOk result (λ made. app_of made ≡ record { top = leaf_for (shape_view shape); subs = [] }) }
    ensures local { IfOk result (λ made. (fields_of made).has_globals ≡ false) }
{
    let mut command = Command::new(alloc, shape.name);
    for group in shape.options {
        command = with_options(alloc, command, group)?;
    }
    Ok(command)
}

// One level of subcommands; help is no word of its own, since no line asks for it.
fn command_of<'a>(alloc: Global, shapes: &[Shape]) -> Result<Command<'a>, NoMemory>
    requires { 0 < length shapes.now }
    ensures { IfOk result (λ made. app_of made ≡ app_for (shapes_view shapes.now)) }
{
    let mut command = Command::new(alloc, "")
        .no_binary_name(true)
        .disable_help_flag(true)
        .disable_help_subcommand(true);
    for shape in shapes {
        command = command.subcommand(subcommand_of(alloc, *shape)?)?;
    }
    Ok(command)
}

/// What clap finds in words whose form was tested, so that it can fail only for want of memory.
pub(crate) fn parse<'a>(
    alloc: Global,
    shapes: &[Shape],
    words: &'a [String],
) -> Result<ArgMatches<'a>, Error>
    requires { IsTrue (is_some (line_of (shapes_view shapes.now) (map (λ w. string_bytes w) words.now))) }
    ensures line { IfOk result (λ matches. (line : Line) →
        line_of (shapes_view shapes.now) (map (λ w. string_bytes w) words.entry.now) ≡ Some line →
        subcommand_rows_of matches ≡ Some (line.command, map row_for line.options)) }
    ensures memory { IfErr result (λ error. kind_of error ≡ ErrorKind.OutOfMemory) }
{
    command_of(alloc, shapes)?.try_get_matches_from(words)
}
