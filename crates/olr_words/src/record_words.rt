//! The words of a record.

ghost use Rattle.std.specs.Prelude.{◌≡◌};
ghost use Rattle.clap.specs.Walk.{texts};
ghost use Rattle.olr_words.specs.RecordWords.{at_spaces};

/// The words of a record, and the reference that stands behind them if one does.
#[derive(Drop)]
pub struct RecordWords<'a> {
    /// The text that is split at each space: the whole text of the record, or what stands before the
    /// first ` -- `.
    pub text: &'a str,
    /// Its words.
    pub words: Vec<&'a str>,
    /// What stands behind the first ` -- `.
    pub reference: Option<&'a str>,
    pub ghost split: { texts words.items ≡ at_spaces text.now },
}
