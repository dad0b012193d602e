//! Whether words have the form of a line, tested before clap reads them.

ghost use Rattle.std.specs.Prelude.{◌≡◌, ◌<◌, List, IfOk, IfSome, map, length, is_some, option_map, string_bytes};
ghost use Rattle.clap.specs.Lexer.{name_and_value};
ghost use Rattle.command_line.specs.Words.{Text, is_value, options_among, line_of};
ghost use Rattle.command_line.specs.Forms.{option_in, first_option, is_among, is_new};
ghost use Rattle.command_line.specs.Views.{texts, names_of, shapes_view};

use crate::NoMemory;
use crate::shape::{Shape, shape_of};
use std::alloc::Global;

fn is_value(word: &str) -> bool
    ensures { result ≡ is_value word.now }
{
    match word.as_bytes() {
        [] => false,
        [first, ..] => *first != b'-',
    }
}

// What stands before the first `=`, and what after it, if there is one.
fn cut_at_equals(text: &str) -> (&str, Option<&str>)
    ensures { (result.0.now, option_map (λ s. s.now) result.1) ≡ name_and_value text.now }
{
    match text.split_once('=') {
        Some((name, value)) => (name, Some(value)),
        None => (text, None),
    }
}

// The name of the option in a word, and its value, if that stands in the word too.
fn option_in(word: &str) -> Option<(&str, Option<&str>)>
    ensures { option_map (λ found. (found.0.now, option_map (λ s. s.now) found.1)) result ≡ option_in word.now }
{
    let text = word.strip_prefix("--")?;
    let (name, value) = cut_at_equals(text);
    if name.is_empty() {
        None
    } else {
        Some((name, value))
    }
}

// The name of the option that words begin with, and the words after it.
fn first_option(words: &[String]) -> Option<(&str, &[String])>
    ensures value { option_map {U = Text × List Text} (λ found. (found.0.now, map (λ w. string_bytes w) found.1.now)) result
        ≡ option_map (λ found. (found.0.name, found.1)) (first_option (map (λ w. string_bytes w) words.now)) }
    ensures shorter { IfSome result (λ found. length found.1.now < length words.now) }
{
    let (word, rest) = words.split_first()?;
    let (name, value) = option_in(word.as_str())?;
    let (value, rest) = match value {
        Some(value) => (value, rest),
        None => {
            let (value, rest) = rest.split_first()?;
            (value.as_str(), rest)
        }
    };
    if is_value(value) {
        Some((name, rest))
    } else {
        None
    }
}

// Whether a name stands in one of the groups.
fn is_listed(groups: &[&[&str]], name: &str) -> bool
    ensures { result ≡ is_among (names_of groups.now) name.now }
{
    groups.iter().any(|group| group.contains(&name))
}

// Whether a name is listed and not given yet.
fn is_new(groups: &[&[&str]], given: &[&str], name: &str) -> bool
    ensures { result ≡ is_new (names_of groups.now) (texts given.now) name.now }
{
    is_listed(groups, name) && !given.contains(&name)
}

// Whether words are options of these names, each at most once. A name is looked up as soon as it is read, so no more names
// are held than are listed.
fn are_options(alloc: Global, groups: &[&[&str]], words: &[String]) -> Result<bool, NoMemory>
    ensures { IfOk result (λ are. are ≡ is_some (options_among (names_of groups.now) (map (λ w. string_bytes w) words.now))) }
{
    let mut given = Vec::new(alloc);
    let mut rest = words;
    while let Some((name, after)) = first_option(rest) {
        if !is_new(groups, &given, name) {
            return Ok(false);
        }
        given.push(name)?;
        rest = after;
    }
    Ok(rest.is_empty())
}

/// Whether words are a line over the table.
pub(crate) fn are_line(alloc: Global, shapes: &[Shape], words: &[String]) -> Result<bool, NoMemory>
    ensures { IfOk result (λ are. are ≡ is_some (line_of (shapes_view shapes.now) (map (λ w. string_bytes w) words.now))) }
{
    let Some((command, rest)) = words.split_first() else {
        return Ok(false);
    };
    match shape_of(shapes, command.as_str()) {
        None => Ok(false),
        Some(shape) => are_options(alloc, shape.options, rest),
    }
}
