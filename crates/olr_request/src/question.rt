//! What is asked of a reference on a map.

ghost use Rattle.std.specs.Prelude.{◌≡◌};
ghost use Rattle.olr_request.specs.Question.{question_with_confidence, request_for};

use crate::confidence_file::ConfidenceFile;
use crate::request::{Extras, Format, MatchRequest, Pages, PlacesRequest, Request, WhyRequest};
use olr_candidates::Tolerances;
use olr_keys::PageSize;
use olr_likely::PlaceOrder;
use olr_places::PlaceLimits;
use olr_why::NearestCount;

/// What is asked of a reference.
#[derive(Clone, Copy, Debug, PartialEq, Eq)]
pub enum QuestionKind {
    /// The candidates of each of its points.
    Candidates {
        /// What is shown of each.
        extras: Extras,
    },
    /// Its matchings.
    Match {
        /// How many matchings a page has at most.
        size: PageSize,
        /// What is shown of each.
        extras: Extras,
    },
    /// Its places, and whether its match is unique.
    Places {
        /// How matchings are told apart, and how far they are looked at.
        limits: PlaceLimits,
        /// In which order they are shown.
        order: PlaceOrder,
        /// What is shown of each.
        extras: Extras,
        /// By which file their probabilities are told, if by one.
        confidence: Option<ConfidenceFile>,
    },
    /// Why it has no matching and what would help.
    Why {
        /// How many of the lines nearest to each point are shown at most.
        nearest: NearestCount,
        /// Whether their coordinates are shown, in microdegrees.
        shape: bool,
    },
}

/// A question about a reference on a map, whichever reference it is.
#[derive(Clone, Copy, Debug, PartialEq, Eq)]
pub struct Question {
    /// What is asked.
    pub what: QuestionKind,
    /// How far a line may differ from what a point says, and a route from its leg.
    pub tolerances: Tolerances,
}

impl Question {
    /// Gives it the file of this confidence, where it asks for places.
    pub fn set_confidence(&mut self, confidence: Option<ConfidenceFile>)
        ensures { self.new ≡ question_with_confidence confidence self.old }
    {
        if let QuestionKind::Places {
            confidence: file,
            ..
        } = &mut self.what
        {
            *file = confidence;
        }
    }

    /// The request that asks it of the reference of a text. `pages` are those of its matchings,
    /// where these are asked for.
    pub fn request<'a>(&self, text: &'a str, pages: Pages<'a>, format: Format) -> Request<'a>
        ensures { result ≡ request_for self.now.what self.now.tolerances text.entry pages.entry
            format }
    {
        let tolerances = self.tolerances;
        match self.what {
            QuestionKind::Candidates { extras } => Request::Candidates {
                text,
                tolerances,
                extras,
                format,
            },
            QuestionKind::Match { size, extras } => Request::Match(MatchRequest {
                text,
                tolerances,
                size,
                pages,
                extras,
                format,
            }),
            QuestionKind::Places {
                limits,
                order,
                extras,
                confidence,
            } => Request::Places(PlacesRequest {
                text,
                tolerances,
                limits,
                order,
                extras,
                confidence,
                format,
            }),
            QuestionKind::Why { nearest, shape } => Request::Why(WhyRequest {
                text,
                tolerances,
                nearest,
                shape,
                format,
            }),
        }
    }
}
