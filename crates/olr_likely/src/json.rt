//! The JSON of places as they are shown.

ghost use Rattle.std.specs.Prelude.{◌≡◌, ◌≤◌, IfOk, None, option_map, string_bytes};
ghost use Rattle.olr_report.specs.ShownMap.{map_shown};
ghost use Rattle.olr_text.specs.JsonValues.{IsJsonLine, array_of, or_null, whole, whole_or_null};
ghost use Rattle.olr_confidence.specs.Json.{range_object, reason_object};
ghost use Rattle.olr_likely.specs.Json.{cost_value, map_differs_value, none_value, opener_object, place_object, probability_value, rank_value, reasons_value, shown_members, shown_object};
ghost use Rattle.olr_report.specs.ShownMap.{MapShown};
ghost use Rattle.serde_json.specs.Events.{members_len};

use crate::showing::{ShownPlace, ShownPlaces};
use olr_base::NoMemory;
use olr_confidence::{MapRange, Reason};
use olr_detail::{MatchingDetail, ShownInDetail};
use olr_places::Opener;
use olr_report::{RoutePart, ShownMap, ShownMatching, next_cursor, word_drawn};
use olr_text::{
    MaybeMember, ToJson, ToMembers, count_if, members, send_counted, send_object, to_json_line,
};
use serde::Serializer;

/// The matching that opened a place, with what speaks for it where that is asked for.
#[derive(Clone, Copy)]
struct ShownOpener<'a> {
    opener: &'a Opener,
    detail: &'a Option<MatchingDetail>,
}

/// The object of the matching.
impl ToJson<ShownMap<'_>> for ShownOpener<'_> {
    ghost value = { λ on shown. opener_object (map_shown on) shown.opener.now shown.detail.now };

    fn send<S: Serializer>(&self, on: &ShownMap<'_>, out: &mut S) -> Result<(), S::Error> {
        let opener = self.opener;
        match self.detail {
            Some(detail) => {
                let shown = ShownInDetail {
                    key: &opener.key,
                    matched: &opener.matched,
                    route: &opener.route,
                    location: opener.covered.location(),
                    detail,
                    part: None,
                };
                shown.send(on, out)
            }
            None => {
                let shown = ShownMatching {
                    key: &opener.key,
                    matched: &opener.matched,
                    route: &opener.route,
                    location: opener.covered.location(),
                    part: None,
                };
                shown.send(on, out)
            }
        }
    }
}

/// The cost of a place, in the likely order.
fn cost_of(place: &ShownPlace) -> Option<u32>
    ensures { option_map whole result ≡ cost_value place.now }
{
    let likely = place.likely?;
    Some(likely.cost)
}

/// The rank of a place, in the likely order.
fn rank_of(place: &ShownPlace) -> Option<usize>
    ensures { option_map whole result ≡ rank_value place.now }
{
    let likely = place.likely?;
    Some(likely.rank)
}

/// How probable a place is, where a confidence is given.
fn probability_of(place: &ShownPlace) -> Option<Option<u64>>
    ensures { option_map whole_or_null result ≡ probability_value place.now }
{
    match &place.told {
        Some(Some(said)) => Some(Some(said.probability)),
        Some(None) => Some(None),
        None => None,
    }
}

/// Why it is no more probable, where a confidence is given.
fn reasons_of(place: &ShownPlace) -> Option<Option<&[Reason]>>
    ensures { option_map (or_null (λ reasons. array_of reason_object reasons.now)) result
        ≡ reasons_value place.now }
{
    match &place.told {
        Some(Some(said)) => Some(Some(said.reasons.as_slice())),
        Some(None) => Some(None),
        None => None,
    }
}

/// A place, and the part of the route of its opener that is drawn, if one is.
#[derive(Clone, Copy)]
pub(crate) struct DrawnPlace<'a> {
    pub place: &'a ShownPlace,
    pub part: Option<RoutePart>,
}

/// The object of the place.
impl ToJson<ShownMap<'_>> for DrawnPlace<'_> {
    ghost value = { λ on drawn. place_object (map_shown on) drawn.part drawn.place.now };

    fn send<S: Serializer>(&self, on: &ShownMap<'_>, out: &mut S) -> Result<(), S::Error> {
        let place = self.place;
        let opener = &place.opener;
        let matching = ShownOpener {
            opener,
            detail: &place.detail,
        };
        let cost = cost_of(place);
        let part = word_drawn(self.part);
        let probability = probability_of(place);
        let rank = rank_of(place);
        let reasons = reasons_of(place);
        send_object!(on, out, {
            "cost"?: cost,
            "gap": opener.gap,
            "matching": matching,
            "members": opener.members,
            "part"?: part,
            "probability"?: probability,
            "rank"?: rank,
            "reasons"?: reasons,
        })
    }
}

/// The object of the place, which no part is drawn of.
impl ToJson<ShownMap<'_>> for ShownPlace {
    ghost value = { λ on. place_object (map_shown on) None };

    fn send<S: Serializer>(&self, on: &ShownMap<'_>, out: &mut S) -> Result<(), S::Error> {
        let drawn = DrawnPlace {
            place: self,
            part: None,
        };
        drawn.send(on, out)
    }
}

/// How different the sender's map is, where a confidence is given.
pub(crate) fn map_differs_of(shown: &ShownPlaces) -> Option<Option<MapRange>>
    ensures { option_map (or_null range_object) result ≡ map_differs_value shown.now }
{
    let told = shown.told.as_ref()?;
    Some(told.map_differs)
}

/// How probable it is that none of the places is right, where a confidence is given.
pub(crate) fn none_of(shown: &ShownPlaces) -> Option<Option<u64>>
    ensures { option_map whole_or_null result ≡ none_value shown.now }
{
    let told = shown.told.as_ref()?;
    Some(told.none)
}

/// The members of the places that are shown, from how many matchings were looked at on.
#[derive(Clone, Copy)]
struct ShownMembers<'a> {
    shown: &'a ShownPlaces,
}

impl ToMembers<ShownMap<'_>> for ShownMembers<'_> {
    ghost members = { λ on behind. shown_members (map_shown on) behind.shown.now };

    fn send_members<S: Serializer>(&self, on: &ShownMap<'_>, out: &mut S) -> Result<(), S::Error> {
        let shown = self.shown;
        let map_differs = map_differs_of(shown);
        let next = next_cursor(shown.next.as_ref(), None);
        let none = none_of(shown);
        let verdict = shown.verdict.word();
        let members = members!(
            "looked": shown.looked,
            "map_differs"?: map_differs,
            "margin": shown.margin,
            "next": next,
            "none_of_these"?: none,
            "places": shown.places,
            "verdict": verdict,
        );
        members.send_members(on, out)
    }
}

/// How many members these are.
fn count_of_members(shown: &ShownPlaces) -> usize
    ensures count { (on : MapShown) → result ≡ members_len (shown_members on shown.now) }
    ensures at_most { result ≤ 7 }
{
    count_if(&map_differs_of(shown)) + count_if(&none_of(shown)) + 5
}

/// The object of the places that are shown.
impl ToJson<ShownMap<'_>> for ShownPlaces {
    ghost value = { λ on. shown_object (map_shown on) };

    fn send<S: Serializer>(&self, on: &ShownMap<'_>, out: &mut S) -> Result<(), S::Error> {
        let cut = self.cut;
        let count = count_if(&cut) + count_if(&self.differs) + count_of_members(self);
        let members = MaybeMember {
            name: "cut",
            value: &cut,
            others: MaybeMember {
                name: "differs",
                value: &self.differs,
                others: ShownMembers { shown: self },
            },
        };
        send_counted(count, &members, on, out)
    }
}

/// The JSON of places: one compact object and a line feed, with the members of each object in the
/// order of their names. It has how many matchings were `looked` at, the `margin` or null, as
/// `next` the cursor after which looking would go on, or null, the `places`, and the `verdict`. A
/// place has its `gap`, its opener as `matching`, and its `members`. In the likely order a place has
/// its `cost` and its `rank` too, and the whole has `cut`, whether a place may be missing. Where a
/// confidence is given, a place has its `probability`, in millionths, and `reasons`, and the whole has
/// `differs`, `map_differs`, in thousandths, and `none_of_these`, in millionths; null where it isn't known. A matching is as [`olr_report::json_page_shown`] has it, in detail as
/// [`olr_detail::json_page_in_detail`] has it, with its shape and its spots where these are asked
/// for.
///
/// # Errors
///
/// [`NoMemory`] where the allocator refused memory.
pub fn shown_json(on: &ShownMap<'_>, shown: &ShownPlaces) -> Result<String, NoMemory>
    ensures { IfOk result (λ text.
        IsJsonLine (shown_object (map_shown on.now) shown.now) (string_bytes text)) }
{
    let text = to_json_line(on.alloc, on, shown)?;
    Ok(text)
}
