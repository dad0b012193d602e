//! Printing of trees, line by line.

ghost use Rattle.std.specs.Prelude.{◌≡◌, ◌++◌, map, length, take, IsTrue, OnOk, OnErr};
ghost use Rattle.mp_text.specs.Report.{is_line_start, line_text, text_of_lines};
ghost use Rattle.tree_files.specs.TreeText.{node_line, tree_text_in, has_share, tree_version_for, tree_text, tree_text_2};

use crate::NoMemory;
use file_frame::{Version, print_end, print_header, print_section};
use mp_text::laws::printed_lines;
use mp_text::{Report, Token};
use trees::{Node, Tree};

fn print_node(version: Version, node: &Node, report: &mut Report) -> Result<(), NoMemory>
    requires { IsTrue (is_line_start report.old) }
    ensures ok { OnOk result (report.new ≡ report.old ++ line_text (node_line version node.now)) }
    ensures start { OnOk result (IsTrue (is_line_start report.new)) }
    ensures err { OnErr result (report.new ≡ report.old) }
{
    let parent = Token::Number(u64::from(node.parent));
    let out = Token::Number(node.out);
    let extra = Token::Number(node.extra);
    let time = Token::Number(node.time);
    match version {
        Version::One => report.line(&[parent, out, extra, time]),
        Version::Two => report.line(&[parent, out, extra, Token::Number(node.share), time]),
    }
}

fn print_nodes(version: Version, nodes: &[Node], report: &mut Report) -> Result<(), NoMemory>
    requires { IsTrue (is_line_start report.old) }
    ensures ok { OnOk result (report.new ≡ report.old ++ text_of_lines (map (node_line version) nodes.now)) }
    ensures start { OnOk result (IsTrue (is_line_start report.new)) }
    ensures err { OnErr result (take (length report.old) report.new ≡ report.old) }
{
    printed_lines();
    for node in nodes {
        print_node(version, node, report)?;
    }
    Ok(())
}

fn print_lines(version: Version, nodes: &[Node], report: &mut Report) -> Result<(), NoMemory>
    requires { IsTrue (is_line_start report.old) }
    ensures ok { OnOk result (report.new ≡ report.old ++ tree_text_in version nodes.now) }
    ensures err { OnErr result (take (length report.old) report.new ≡ report.old) }
{
    print_header("tree", version, report)?;
    print_section("nodes", nodes.len() as u64, report)?;
    print_nodes(version, nodes, report)?;
    print_end(report)
}

fn print_in(version: Version, nodes: &[Node], report: &mut Report) -> Result<(), NoMemory>
    requires { IsTrue (is_line_start report.old) }
    ensures ok { OnOk result (report.new ≡ report.old ++ tree_text_in version nodes.now) }
    ensures err { OnErr result (report.new ≡ report.old) }
{
    let start = report.len();
    let printed = print_lines(version, nodes, report);
    if printed.is_err() {
        report.cut(start);
    }
    printed
}

fn has_share(nodes: &[Node]) -> bool
    ensures { result ≡ has_share nodes.now }
{
    nodes.iter().any(|node| node.share != 0)
}

fn version_for(nodes: &[Node]) -> Version
    ensures { result ≡ tree_version_for nodes.now }
{
    if has_share(nodes) {
        Version::Two
    } else {
        Version::One
    }
}

/// Appends the lines of a tree file, of version 1 where every share is 0, else of version 2. Linear in the nodes.
pub fn print_tree(tree: &Tree, report: &mut Report) -> Result<(), NoMemory>
    requires { IsTrue (is_line_start report.old) }
    ensures ok { OnOk result (report.new ≡ report.old ++ tree_text tree.now) }
    ensures err { OnErr result (report.new ≡ report.old) }
{
    let nodes = tree.nodes();
    print_in(version_for(nodes), nodes, report)
}

/// Appends the lines of a tree file of version 2. Linear in the nodes.
pub fn print_tree_2(tree: &Tree, report: &mut Report) -> Result<(), NoMemory>
    requires { IsTrue (is_line_start report.old) }
    ensures ok { OnOk result (report.new ≡ report.old ++ tree_text_2 tree.now) }
    ensures err { OnErr result (report.new ≡ report.old) }
{
    print_in(Version::Two, tree.nodes(), report)
}
