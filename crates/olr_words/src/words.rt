//! What words give to a subcommand, and what it asks for.

ghost use Rattle.std.specs.Prelude.{◌≡◌, ◌≢◌, IfErr, IfNone, IfOk, IfSome, codes, false};
ghost use Rattle.clap.specs.Words.{first_value, found_of};
ghost use Rattle.olr_request.specs.declared.fault.Fault.TheVariants as fault;
ghost use Rattle.olr_request.specs.declared.request.Request.TheVariants.{Show};
ghost use Rattle.olr_words.specs.declared.words.MapSubcommand.{MapSubcommand as OfMap};
ghost use Rattle.olr_words.specs.Given.{AreNumbers, IsFlagOf, IsFormatNamed, IsGiven, record_format};
ghost use Rattle.olr_words.specs.LastQuestion.{IsQuestionWithoutCursor};
ghost use Rattle.olr_words.specs.Record.{IsOfSubcommand};
ghost use Rattle.olr_words.specs.Words.{AreBoth, AreLimits, AreTolerances, IsNameOf, IsNearest};
ghost use Rattle.olr_words.specs.Words.{IsQuestion, IsRefusedNumber, IsRefusedQuestion};
ghost use Rattle.olr_words.specs.Words.{IsRefusedRequest, IsRefusedTolerance, IsRefusedWhat};
ghost use Rattle.olr_words.specs.Words.{IsRequest, IsSize, IsWhat, nearest_of, pages_of, size_of};

use crate::box_text::Edges;
use crate::place_order::place_order_named;
use crate::profile::Profile;
use crate::reading::{
    box_in, extras_in, flag_in, format_in, format_of_record, number_in, tolerances_in,
};
use clap::ArgMatches;
use olr_candidates::{Tolerance, Tolerances};
use olr_keys::PageSize;
use olr_likely::PlaceOrder;
use olr_places::PlaceLimits;
use olr_request::{Extras, Fault, Format, Pages, Question, QuestionKind, Request};
use olr_why::NearestCount;

/// How many matchings a page has where the words don't say it.
const DEFAULT_PAGE: u32 = 10;

/// How many of the lines nearest to each point are printed where the words don't say it.
const DEFAULT_NEAREST: u32 = 8;

/// A subcommand that asks of a reference on a map.
#[derive(Clone, Copy, Debug, PartialEq, Eq)]
pub(crate) enum MapSubcommand {
    Candidates,
    Match,
    Places,
    Why,
}

impl MapSubcommand {
    /// The one of this name, if there is one.
    pub(crate) fn named(name: &str) -> Option<MapSubcommand>
        ensures found { IfSome result (λ subcommand. IsNameOf subcommand name.now) }
        ensures none { IfNone result ((other : OfMap) → ¬ (IsNameOf other name.now)) }
    {
        match name {
            "candidates" => Some(MapSubcommand::Candidates),
            "match" => Some(MapSubcommand::Match),
            "places" => Some(MapSubcommand::Places),
            "why" => Some(MapSubcommand::Why),
            _ => None,
        }
    }
}

/// The numbers that the words give for places, in range or not: apart in decimetres, within in
/// penalty points, look in matchings, most in places, or in lines where lines are asked for. `None` where an option is left out, or where
/// the subcommand has no such option.
#[derive(Clone, Copy)]
pub(crate) struct GivenNumbers {
    apart: Option<u32>,
    within: Option<u32>,
    look: Option<u32>,
    pub(crate) most: Option<u32>,
}

impl GivenNumbers {
    /// The numbers that the words found for a subcommand give.
    fn read(found: &ArgMatches<'_>) -> GivenNumbers
        ensures { AreNumbers (first_value (found_of found.now)) result }
    {
        GivenNumbers {
            apart: number_in(found, "apart"),
            within: number_in(found, "within"),
            look: number_in(found, "look"),
            most: number_in(found, "most"),
        }
    }

    /// The numbers that are given, and the default for each that isn't.
    ///
    /// # Errors
    ///
    /// [`Fault::BadNumber`] with the first that is out of its range, in the order of
    /// [`PlaceLimits::new`].
    fn limits(&self) -> Result<PlaceLimits, Fault>
        ensures accepted { IfOk result (AreLimits self.now) }
        ensures refused { IfErr result (IsRefusedNumber self.now) }
    {
        let default = PlaceLimits::default();
        let limits = PlaceLimits::new(
            self.apart.unwrap_or(default.apart),
            self.within.unwrap_or(default.within),
            self.look.unwrap_or(default.look),
            self.most.unwrap_or(default.most),
        )?;
        Ok(limits)
    }
}

/// What the words give to a subcommand, in range or not: the profile, the tolerances in the order of
/// [`Tolerance::ALL`] and the units of [`Tolerance::least`], how many matchings a page has, the
/// numbers for places and their order, how many lines near a point are printed, what is shown of each
/// thing, the edges of a box, and which legs are printed. `None` where a number is left out, or where the subcommand has no such option.
#[derive(Clone, Copy)]
pub(crate) struct Given<'a> {
    pub(crate) text: &'a str,
    profile: Profile,
    tolerances: [Option<u32>; Tolerance::COUNT],
    page: Option<u32>,
    pub(crate) numbers: GivenNumbers,
    order: PlaceOrder,
    nearest: Option<u32>,
    pub(crate) extras: Extras,
    pub(crate) edges: Option<Edges>,
    pub(crate) at: Option<&'a str>,
    pub(crate) near: Option<u32>,
    after: Option<&'a str>,
    all: bool,
    pub(crate) format: Format,
}

impl<'a> Given<'a> {
    /// What the words found for a subcommand give, beside the text of a reference.
    pub(crate) fn read(found: &ArgMatches<'a>, text: &'a str) -> Given<'a>
        ensures text { result.text ≡ text.entry }
        ensures given { IsGiven (first_value (found_of found.now)) result }
        ensures pages { IsFlagOf (first_value (found_of found.now) (codes "all")) result.all }
        ensures format { IsFormatNamed (first_value (found_of found.now) (codes "format"))
            result.format }
    {
        Given {
            text,
            profile: Profile::named(found.get_str("profile")),
            tolerances: tolerances_in(found),
            page: number_in(found, "page"),
            numbers: GivenNumbers::read(found),
            order: place_order_named(found.get_str("order")),
            nearest: number_in(found, "nearest"),
            extras: extras_in(found),
            edges: box_in(found),
            at: found.get_str("at"),
            near: number_in(found, "near"),
            after: found.get_str("after"),
            all: flag_in(found, "all"),
            format: format_in(found),
        }
    }

    /// The same in a record: one page at most, and JSON in place of text.
    pub(crate) fn of_record(self) -> Given<'a>
        ensures { result ≡ record (self.entry) {
          all = false;
          format = record_format self.entry.format;
        } }
    {
        Given {
            all: false,
            format: format_of_record(self.format),
            ..self
        }
    }

    /// Which pages are asked for.
    ///
    /// # Errors
    ///
    /// [`Fault::AfterWithAll`] where both a cursor and all pages are.
    fn pages(&self) -> Result<Pages<'a>, Fault>
        ensures accepted { IfOk result (λ pages.
            (pages ≡ pages_of self.now) × (AreBoth self.now → ⊥)) }
        ensures refused { IfErr result (λ why.
            (why ≡ fault.AfterWithAll) × AreBoth self.now) }
    {
        if !self.all {
            return Ok(Pages::One(self.after));
        }
        if self.after.is_some() {
            return Err(Fault::AfterWithAll);
        }
        Ok(Pages::All)
    }

    /// The tolerances that are given, and that of the profile for each that isn't.
    ///
    /// # Errors
    ///
    /// [`Fault::BadTolerance`] with the first that is out of its range, in the order of
    /// [`Tolerance::ALL`].
    pub(crate) fn tolerances(&self) -> Result<Tolerances, Fault>
        ensures accepted { IfOk result (AreTolerances self.now) }
        ensures refused { IfErr result (IsRefusedTolerance self.now) }
    {
        let mut tolerances = self.profile.tolerances();
        for name in Tolerance::ALL {
            let Some(value) = self.tolerances[name.order()] else {
                continue;
            };
            if !name.allows(value) {
                return Err(Fault::BadTolerance(name));
            }
            tolerances = tolerances.with(name, value);
        }
        Ok(tolerances)
    }

    /// What `show` asks for.
    fn show(&self) -> Request<'a>
        ensures { result ≡ Show self.now.text self.now.format }
    {
        Request::Show {
            text: self.text,
            format: self.format,
        }
    }

    /// How many matchings a page has.
    ///
    /// # Errors
    ///
    /// [`Fault::BadPage`] with a page size that is out of its range.
    fn size(&self) -> Result<PageSize, Fault>
        ensures accepted { IfOk result (λ size. (size ≡ size_of self.now) × IsSize size) }
        ensures refused { IfErr result (λ why.
            (why ≡ fault.BadPage (size_of self.now)) × (IsSize (size_of self.now) → ⊥)) }
    {
        let size = PageSize::new(self.page.unwrap_or(DEFAULT_PAGE))?;
        Ok(size)
    }

    /// How many of the lines nearest to each point are printed.
    ///
    /// # Errors
    ///
    /// [`Fault::BadNearest`] where the number is out of its range.
    fn nearest_count(&self) -> Result<NearestCount, Fault>
        ensures accepted { IfOk result (λ count. (count ≡ nearest_of self.now) × IsNearest count) }
        ensures refused { IfErr result (λ why.
            (why ≡ fault.BadNearest) × (IsNearest (nearest_of self.now) → ⊥)) }
    {
        let count = NearestCount::new(self.nearest.unwrap_or(DEFAULT_NEAREST))?;
        Ok(count)
    }

    /// What a subcommand asks of a reference.
    ///
    /// # Errors
    ///
    /// For its subcommand that of [`Given::size`], [`GivenNumbers::limits`] or
    /// [`Given::nearest_count`].
    fn what(&self, subcommand: MapSubcommand) -> Result<QuestionKind, Fault>
        ensures accepted { IfOk result (IsWhat self.now subcommand) }
        ensures refused { IfErr result (IsRefusedWhat self.now subcommand) }
    {
        let extras = self.extras;
        match subcommand {
            MapSubcommand::Candidates => Ok(QuestionKind::Candidates { extras }),
            MapSubcommand::Match => Ok(QuestionKind::Match {
                size: self.size()?,
                extras,
            }),
            MapSubcommand::Places => Ok(QuestionKind::Places {
                limits: self.numbers.limits()?,
                order: self.order,
                extras,
                confidence: None,
            }),
            MapSubcommand::Why => Ok(QuestionKind::Why {
                nearest: self.nearest_count()?,
                shape: extras.shape,
            }),
        }
    }

    /// The question of a subcommand.
    ///
    /// # Errors
    ///
    /// That of [`Given::tolerances`]; else that of [`Given::what`].
    pub(crate) fn question(&self, subcommand: MapSubcommand) -> Result<Question, Fault>
        ensures accepted { IfOk result (IsQuestion self.now subcommand) }
        ensures refused { IfErr result (IsRefusedQuestion self.now subcommand) }
    {
        let tolerances = self.tolerances()?;
        let what = self.what(subcommand)?;
        Ok(Question { what, tolerances })
    }

    /// What a subcommand asks of a reference on a map.
    ///
    /// # Errors
    ///
    /// That of [`Given::pages`]; else that of [`Given::question`].
    fn on_map(&self, subcommand: MapSubcommand) -> Result<Request<'a>, Fault>
        ensures accepted { IfOk result (IsRequest self.now subcommand) }
        ensures refused { IfErr result (IsRefusedRequest self.now subcommand) }
    {
        let pages = self.pages()?;
        match self.question(subcommand) {
            Ok(question) => Ok(question.request(self.text, pages, self.format)),
            Err(fault) => Err(fault),
        }
    }

    /// The question that the subcommand of this name asks of a reference, if there is one, its numbers
    /// are in range, and no cursor is given.
    pub(crate) fn question_without_cursor(&self, name: &str) -> Option<Question>
        ensures { IfSome result (IsQuestionWithoutCursor self.now name.now) }
    {
        let subcommand = MapSubcommand::named(name)?;
        if self.after.is_some() {
            return None;
        }
        match self.question(subcommand) {
            Ok(question) => Some(question),
            Err(_) => None,
        }
    }

    /// What the subcommand of this name asks for, if there is one.
    ///
    /// # Errors
    ///
    /// That of [`Given::on_map`], but for `show`.
    pub(crate) fn request(&self, name: &str) -> Option<Result<Request<'a>, Fault>>
        ensures asked { IfSome result (IsOfSubcommand self.now name.now) }
        ensures none { IfNone result ((name.now ≢ codes "show")
            × ((other : OfMap) → ¬ (IsNameOf other name.now))) }
    {
        if name == "show" {
            return Some(Ok(self.show()));
        }
        let subcommand = MapSubcommand::named(name)?;
        Some(self.on_map(subcommand))
    }
}
