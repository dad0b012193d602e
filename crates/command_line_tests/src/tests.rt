use command_line::{NoMemory, Shape, read_words};
use std::alloc::Global;
use std::test::Fail;

static SHAPES: [Shape; 2] = [
    Shape {
        name: "post",
        options: &[&["tree"], &["matrix"]],
    },
    Shape {
        name: "demo",
        options: &[&["seed"]],
    },
];

// The words of a text, between blanks.
fn words_of(alloc: Global, text: &str) -> Result<Vec<String>, NoMemory> {
    let mut words = Vec::new(alloc);
    for word in text.split(' ') {
        words.push(String::from_str(alloc, word)?)?;
    }
    Ok(words)
}

// Lines, and the tree that each gives.
const TREES: &[(&str, &str)] = &[
    ("post --tree=a", "a"),
    ("post --tree a", "a"),
    ("post --tree=a=b", "a=b"),
    ("post --tree =a", "=a"),
    ("post --matrix tree --tree=a-", "a-"),
    ("post --tree help --matrix m", "help"),
];

#[test]
fn words_that_give_a_tree(rt: HostRuntime) -> Result<(), Fail> {
    for &(text, tree) in TREES {
        let words = words_of(rt.alloc(), text)?;
        let line = read_words(rt.alloc(), &SHAPES, &words)?.ok_or(text)?;
        assert_eq!(rt; line.value("tree"), Some(tree), "{text}");
    }
    Ok(())
}

#[test]
fn a_line_has_its_command_and_no_other_option(rt: HostRuntime) -> Result<(), Fail> {
    for &(text, _tree) in TREES {
        let words = words_of(rt.alloc(), text)?;
        let line = read_words(rt.alloc(), &SHAPES, &words)?.ok_or(text)?;
        assert_eq!(rt; line.command(), "post", "{text}");
        assert!(rt; line.value("seed").is_none(), "{text}");
    }
    Ok(())
}

// Words that are no line.
const NO_LINES: [&str; 23] = [
    "",
    "help",
    "--help",
    "--",
    "plan --tree a",
    "post help",
    "post --help",
    "post --",
    "post -- a",
    "post --=a",
    "post tree",
    "post -tree a",
    "post --tree",
    "post --tree ",
    "post --tree=",
    "post --tree -a",
    "post --tree=-a",
    "post --tree --matrix=m",
    "post --tree=a b",
    "post --tree=a --tree b",
    "post --trees a",
    "post --seed 1",
    "post --tree=a --seed=1",
];

#[test]
fn words_that_are_no_line(rt: HostRuntime) -> Result<(), Fail> {
    let alloc = rt.alloc();
    for text in NO_LINES {
        let words = words_of(alloc, text)?;
        let found = read_words(alloc, &SHAPES, &words)?;
        assert!(rt; found.is_none(), "{text}");
    }
    let none = Vec::new(alloc);
    let made = read_words(alloc, &SHAPES, &none)?;
    assert!(rt; made.is_none());
    Ok(())
}

#[test]
fn a_command_alone(rt: HostRuntime) -> Result<(), Fail> {
    let alloc = rt.alloc();
    let words = words_of(alloc, "demo")?;
    let line = read_words(alloc, &SHAPES, &words)?.ok_or("demo")?;
    assert_eq!(rt; line.command(), "demo");
    assert!(rt; line.value("seed").is_none());
    Ok(())
}

#[test]
fn ten_thousand_options(rt: HostRuntime) -> Result<(), Fail> {
    let alloc = rt.alloc();
    let mut words = words_of(alloc, "post")?;
    for _ in 0..10_000 {
        words.push(String::from_str(alloc, "--tree")?)?;
        words.push(String::from_str(alloc, "a")?)?;
    }
    let found = read_words(alloc, &SHAPES, &words)?;
    assert!(rt; found.is_none());
    Ok(())
}
