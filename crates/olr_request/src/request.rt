//! What is asked for.

ghost use Rattle.std.specs.Prelude.{◌≡◌};
ghost use Rattle.olr_request.specs.Request.{bytes_of, cursor_of, matching_request, query_with_confidence, text_of, with_confidence};

use crate::confidence_file::ConfidenceFile;
use crate::near_share::NearShare;
use olr_candidates::Tolerances;
use olr_keys::PageSize;
use olr_likely::PlaceOrder;
use olr_lines::{GeoBox, LineCount};
use olr_places::PlaceLimits;
use olr_report::RoutePart;
use olr_why::NearestCount;

/// Which pages of matchings are asked for.
#[derive(Clone, Copy, Debug, PartialEq, Eq)]
pub enum Pages<'a> {
    /// The page after the matching that the cursor of this text names, or the first page.
    One(Option<&'a str>),
    /// All pages, one after the other.
    All,
}

/// How an output is printed.
#[derive(Clone, Copy, Debug, PartialEq, Eq)]
pub enum Format {
    /// As text, a row for each thing that it shows.
    Text,
    /// As JSON, one compact object on a line.
    Json,
    /// As GeoJSON, one compact object on a line. Only candidates, matchings and places have it: what
    /// `show` and `why` print is JSON then.
    GeoJson,
}

/// What is shown of each candidate, matching or place beside what always is.
#[derive(Clone, Copy, Debug, PartialEq, Eq)]
pub struct Extras {
    /// Whether it is told in detail: the parts of its penalties and what they come from.
    pub detail: bool,
    /// Whether its coordinates are shown, in microdegrees. Text never shows them.
    pub shape: bool,
    /// Which part of its route is its geometry in GeoJSON. Other formats, and candidates, which have
    /// no route, are the same whichever it is.
    pub part: RoutePart,
}

/// What a request for matchings asks for.
#[derive(Clone, Copy, Debug, PartialEq, Eq)]
pub struct MatchRequest<'a> {
    /// The text of the reference.
    pub text: &'a str,
    /// How far a line may differ from what a point says, and a route from its leg.
    pub tolerances: Tolerances,
    /// How many matchings a page has at most.
    pub size: PageSize,
    /// Which pages are printed.
    pub pages: Pages<'a>,
    /// What a page shows of each matching.
    pub extras: Extras,
    /// How a page is printed.
    pub format: Format,
}

/// What a request for places asks for.
#[derive(Clone, Copy, Debug, PartialEq, Eq)]
pub struct PlacesRequest<'a> {
    /// The text of the reference.
    pub text: &'a str,
    /// How far a line may differ from what a point says, and a route from its leg.
    pub tolerances: Tolerances,
    /// How matchings are told apart, and how far they are looked at.
    pub limits: PlaceLimits,
    /// In which order the places are printed.
    pub order: PlaceOrder,
    /// What is shown of each place.
    pub extras: Extras,
    /// By which file the probabilities of the places are told, if by one. Without the likely order,
    /// and as text, none are.
    pub confidence: Option<ConfidenceFile>,
    /// How the places are printed.
    pub format: Format,
}

/// What a request for the reasons of a reference asks for: why it has no matching.
#[derive(Clone, Copy, Debug, PartialEq, Eq)]
pub struct WhyRequest<'a> {
    /// The text of the reference.
    pub text: &'a str,
    /// How far a line may differ from what a point says, and a route from its leg.
    pub tolerances: Tolerances,
    /// How many of the lines nearest to each point are printed at most.
    pub nearest: NearestCount,
    /// Whether their coordinates are shown, in microdegrees. Text never shows them.
    pub shape: bool,
    /// How the reasons are printed.
    pub format: Format,
}

/// A request, whose texts are borrowed from the words that it came from.
#[derive(Clone, Copy, Debug, PartialEq, Eq)]
pub enum Request<'a> {
    /// Print the reference of a text, field by field.
    Show {
        /// The text of the reference.
        text: &'a str,
        /// How the reference is printed.
        format: Format,
    },
    /// Print the candidates of each point of a reference on a map.
    Candidates {
        /// The text of the reference.
        text: &'a str,
        /// How far a line may differ from what a point says.
        tolerances: Tolerances,
        /// What is shown of each candidate.
        extras: Extras,
        /// How the candidates are printed.
        format: Format,
    },
    /// Print the matchings of a reference on a map, best first.
    Match(MatchRequest<'a>),
    /// Print the places of a map where a reference may lie, and whether its match is unique.
    Places(PlacesRequest<'a>),
    /// Print why a reference has no matching on a map, and what would help, or that it has one.
    Why(WhyRequest<'a>),
}

impl<'a> Request<'a> {
    /// The text of its reference.
    pub fn text(&self) -> &'a str
        ensures { result.now ≡ text_of self.now }
    {
        match self {
            Request::Show { text, .. } | Request::Candidates { text, .. } => text,
            Request::Match(asked) => asked.text,
            Request::Places(asked) => asked.text,
            Request::Why(asked) => asked.text,
        }
    }

    /// The text of its cursor, if it has one.
    pub fn cursor(&self) -> Option<&'a str>
        ensures { bytes_of result ≡ cursor_of self.now }
    {
        let Request::Match(asked) = self else {
            return None;
        };
        match asked.pages {
            Pages::One(cursor) => cursor,
            Pages::All => None,
        }
    }

    /// Gives it the file of this confidence, where it asks for places.
    pub fn set_confidence(&mut self, confidence: Option<ConfidenceFile>)
        ensures { self.new ≡ with_confidence confidence self.old }
    {
        if let Request::Places(asked) = self {
            asked.confidence = confidence;
        }
    }
}

/// What a request for the legs of one matching asks for.
#[derive(Clone, Copy, Debug, PartialEq, Eq)]
pub struct LegsRequest<'a> {
    /// The text of the reference.
    pub text: &'a str,
    /// How far a line may differ from what a point says, and a route from its leg.
    pub tolerances: Tolerances,
    /// The text of the cursor of the matching; the first matching where there is none.
    pub at: Option<&'a str>,
    /// By how much another path of a leg may be longer.
    pub near: NearShare,
    /// How the legs are printed. They have no text: it is JSON then.
    pub format: Format,
}

impl<'a> LegsRequest<'a> {
    /// The request for the one matching behind its cursor, or for the first one: a cursor that it
    /// refuses is refused here. The size is that of a page of one.
    pub fn matching_request(&self, one: PageSize) -> MatchRequest<'a>
        requires { one ≡ 1 }
        ensures { result ≡ matching_request self.now }
    {
        MatchRequest {
            text: self.text,
            tolerances: self.tolerances,
            size: one,
            pages: Pages::One(self.at),
            extras: Extras {
                detail: false,
                shape: false,
                part: RoutePart::Route,
            },
            format: self.format,
        }
    }
}

/// What a request for the lines of a map that meet a box asks for.
#[derive(Clone, Copy, Debug, PartialEq, Eq)]
pub struct LinesRequest {
    /// The box.
    pub within: GeoBox,
    /// How many lines are printed at most.
    pub most: LineCount,
    /// Whether their points are shown, in microdegrees.
    pub shape: bool,
    /// How the lines are printed. They have no text: it is JSON then.
    pub format: Format,
}

/// What is asked: something about one reference, the legs of one of its matchings, or the lines of a
/// map.
#[derive(Clone, Copy, Debug, PartialEq, Eq)]
pub enum Query<'a> {
    /// What a request about a reference asks for.
    Reference(Request<'a>),
    /// Print the legs of a matching, and what else could be driven for each.
    Legs(LegsRequest<'a>),
    /// Print the lines of a map that meet a box.
    Lines(LinesRequest),
}

impl Query<'_> {
    /// Gives it the file of this confidence, where it asks for places.
    pub fn set_confidence(&mut self, confidence: Option<ConfidenceFile>)
        ensures { self.new ≡ query_with_confidence confidence self.old }
    {
        if let Query::Reference(request) = self {
            request.set_confidence(confidence);
        }
    }
}
