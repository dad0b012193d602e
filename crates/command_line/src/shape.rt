//! The table of commands.

ghost use Rattle.std.specs.Prelude.{◌≡◌, MatchOption, find, None, Some};
ghost use Rattle.std.specs.Str.{bytes_eq};
ghost use Rattle.command_line.specs.Views.{shape_view, shapes_view};

/// A command, and the names of its options, without hyphens. They stand in groups, so that commands may share some.
#[derive(Clone, Copy, Debug)]
pub struct Shape {
    pub name: &'static str,
    pub options: &'static [&'static [&'static str]],
}

// The command of this name.
pub(crate) fn shape_of(shapes: &[Shape], name: &str) -> Option<Shape>
    ensures { MatchOption result (find (λ shape. bytes_eq shape.name name.now) (shapes_view shapes.now) ≡ None)
        (λ found. find (λ shape. bytes_eq shape.name name.now) (shapes_view shapes.now) ≡ Some (shape_view found)) }
{
    for shape in shapes {
        if shape.name == name {
            return Some(*shape);
        }
    }
    None
}
