//! A law on the JSON of pages: the contract of a function that does nothing at run time.

ghost use Rattle.olr_report.specs.JsonLaws.{JsonReadsAsPage};

/// The JSON of a page, without its line feed, is a JSON text, and under their names its value has
/// the matchings of the page and where the next page begins.
pub fn json_reads_as_page()
    ensures { JsonReadsAsPage }
{}
