//! The words of lines.
ghost use Rattle.std.specs.Prelude.{ℕ, List, IfSome};
ghost use Rattle.std.specs.List.{All};
ghost use Rattle.tree_types.specs.declared.credentials.Cred.{Cred};
ghost use Rattle.history_model.specs.Lines.{line_of, lines_of};
ghost use Rattle.call_ops.specs.Served.{HasRightWords};

/// A line gives its call words that are right.
pub fn lines_have_right_words()
    ensures line { (number : ℕ) (cred : Cred) (text : List ℕ) → IfSome (line_of number cred text) HasRightWords }
    ensures script { (script : List ℕ) → All HasRightWords (lines_of script) }
{}
