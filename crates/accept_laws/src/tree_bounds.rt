//! What calls make of trees, and their replies, stay within the bounds of lines.

ghost use Rattle.accept_laws.specs.Replies.{CallsKeepFits};

/// A call with fields that a schedule can spell leaves a tree whose fields fit, from one whose fields
/// fit; and its reply fits a line.
pub fn tree_fits()
    ensures calls { CallsKeepFits }
{}
