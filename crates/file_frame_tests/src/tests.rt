//! Each public call with rows worked by hand.

use file_frame::{
    Version, after_word, count_on, end_on, header_on, is_word, number_on, print_end, print_header,
    print_section, version_of,
};
use limits::LimitName;
use mp_text::{Line, Refusal, Report, fault};
use std::test::Fail;

#[test]
fn reads_words(rt: HostRuntime) {
    // a line, whether it is `end`, what follows `nodes`, and the version that `tree` has
    for (text, end, nodes, version) in [
        ("end", true, None, None),
        ("end end", false, None, None),
        ("nodes 5", false, Some("5"), None),
        ("nodes 5 6", false, None, None),
        ("tree 1", false, None, Some(Version::One)),
        (" tree  2", false, None, Some(Version::Two)),
        ("tree 3", false, None, None),
        ("tree", false, None, None),
        ("trees 1", false, None, None),
    ] {
        let line = text.as_bytes();
        let after = after_word(line, b"nodes").and_then(|token| str::from_utf8(token).ok());
        assert_eq!(rt; is_word(line, b"end"), end, "at {text:?}");
        assert_eq!(rt; after, nodes, "at {text:?}");
        assert_eq!(rt;
            version_of(line, b"tree", Version::Two),
            version,
            "at {text:?}"
        );
    }
}

#[test]
fn reads_line_1(rt: HostRuntime) {
    // a line, the newest version, and what it states or is refused with
    for (text, newest, read) in [
        ("graph 1", Version::One, Ok(Version::One)),
        ("graph 2", Version::One, Err(fault(7, 'h'))),
        ("graph 2", Version::Two, Ok(Version::Two)),
        ("graph 2 1", Version::Two, Err(fault(7, 'h'))),
    ] {
        let line = Line {
            number: 7,
            text: text.as_bytes(),
        };
        assert_eq!(rt; header_on(line, b"graph", newest, 'h'), read, "at {text:?}");
    }
}

#[test]
fn reads_lines_of_sections(rt: HostRuntime) {
    // a line, the number that it states, and the same up to 5
    for (text, number, few) in [
        ("arcs 5", Ok(5), Ok(5)),
        ("arcs 6", Ok(6), Err(Refusal::Limit(LimitName::Arcs))),
        ("arcs x", Err(fault(7, 'n')), Err(fault(7, 'n'))),
        ("tasks 5", Err(fault(7, 'w')), Err(fault(7, 'w'))),
    ] {
        let line = Line {
            number: 7,
            text: text.as_bytes(),
        };
        let counted = count_on(line, b"arcs", 'w', 'n', 5, LimitName::Arcs);
        assert_eq!(rt; number_on(line, b"arcs", 'w', 'n'), number, "at {text:?}");
        assert_eq!(rt; counted, few, "at {text:?}");
    }
}

#[test]
fn reads_the_end(rt: HostRuntime) {
    for (text, read) in [(" end", Ok(())), ("end 1", Err(fault(7, 'e')))] {
        let line = Line {
            number: 7,
            text: text.as_bytes(),
        };
        assert_eq!(rt; end_on(line, 'e'), read, "at {text:?}");
    }
}

#[test]
fn prints_the_frame(rt: HostRuntime) -> Result<(), Fail> {
    let mut report = Report::new(rt.alloc());
    print_header("graph", Version::Two, &mut report)?;
    print_section("arcs", u64::MAX, &mut report)?;
    print_end(&mut report)?;
    let lines = "graph 2\narcs 18446744073709551615\nend\n";
    assert_eq!(rt; report.bytes(), lines.as_bytes());
    Ok(())
}
