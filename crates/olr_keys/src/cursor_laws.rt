//! Laws on the texts of cursors. Each law is the contract of a function that does nothing at run
//! time.

ghost use Rattle.olr_keys.specs.CursorLaws.{OneCursor, ReadsBack};

/// Two cursors never have the same text.
pub fn one_cursor()
    ensures { OneCursor }
{}

/// Reading what was written gives it back.
pub fn reads_back()
    ensures { ReadsBack }
{}
