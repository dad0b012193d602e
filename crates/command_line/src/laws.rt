//! Laws of lines: what holds of the words, without a call.

ghost use Rattle.std.specs.Prelude.{◌≡◌, false, List, ◌∷◌, ◌++◌, codes};
ghost use Rattle.std.specs.List.{list_any};
ghost use Rattle.command_line.specs.Words.{Text, Shape, is_equals, line_of};

/// `--name=value` means the same as `--name value`, wherever it stands after the command and whatever the value is.
pub fn one_word_or_two()
    ensures { (shapes : List Shape) (command : Text) (before after : List Text) (name value : Text) → list_any is_equals name ≡ false →
        line_of shapes (command ∷ (before ++ (codes "--" ++ name ++ codes "=" ++ value) ∷ after))
        ≡ line_of shapes (command ∷ (before ++ (codes "--" ++ name) ∷ value ∷ after)) }
{}
