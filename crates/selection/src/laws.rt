//! Laws of selections, each the contract of a function that does nothing.

ghost use Rattle.selection.specs.Laws.{IsOneFault, IsOneTree, ReadsBack};

/// Tokens have the tree or the first fault that is computed, and no other, and the text of a tree is read back.
pub fn tokens_law()
    ensures tree { IsOneTree }
    ensures fault { IsOneFault }
    ensures back { ReadsBack }
{}
