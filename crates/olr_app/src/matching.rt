//! The pages of matchings of a reference on a map.

ghost use Rattle.std.specs.Prelude.{◌≡◌, All, Contains, Decides, IfErr, IfOk, IfSome, Ok};
ghost use Rattle.std.specs.Prelude.{false};
ghost use Rattle.std.specs.Prelude.{option_map, string_bytes, true};
ghost use Rattle.olr_binary.specs.Reference.{IsReference};
ghost use Rattle.olr_fingerprint.specs.Fingerprint.{IsFingerprint};
ghost use Rattle.olr_keys.specs.Matching.{IsKey};
ghost use Rattle.olr_keys.specs.Page.{PageValue};
ghost use Rattle.olr_matching.specs.Searches.{AreSearchesOn};
ghost use Rattle.olr_app.specs.Matching.{AreLayers, AreMatchings, ArePages, ArePagesIn};
ghost use Rattle.olr_app.specs.Matching.{IsMarkOf, IsStartHere, key_of, next_behind, values_of};
ghost use Rattle.olr_app.specs.Stages.{IsStageFault};
ghost use Rattle.olr_app.specs.inner.Added.{AreAddedFor};

use crate::accepting::Accepted;
use crate::page::added_for_page;
use olr_base::NoMemory;
use olr_binary::Reference;
use olr_candidates::{ReferenceOnMap, Tolerances};
use olr_detail::page_collection;
use olr_fingerprint::fingerprint;
use olr_matching::{
    CursorRead, Key, Layers, Mark, Page, Routes, Searches, TotalsFinder, all_pages, page,
    same_inputs,
};
use olr_report::next_after;
use olr_request::{Fault, Format, MatchRequest, Pages};
use olr_road::Map;
use std::alloc::Global;

/// Tests that a cursor is of the inputs of a request: the map, the text of the reference and the
/// tolerances. One without a mark may be of any. It answers the mark of the inputs, where the
/// cursor has one.
///
/// # Errors
///
/// [`Fault::CursorOfOther`] where it isn't; [`Fault::NoMemory`] where the allocator refused memory.
pub(crate) fn check_inputs(
    alloc: Global,
    map: &Map,
    asked: &MatchRequest<'_>,
    start: &Option<CursorRead>,
) -> Result<Option<Mark>, Fault>
    ensures here { IfOk result (λ _. IsStartHere asked.now map.now start.now (Ok start.now)) }
    ensures mark { IfOk result (λ known. IfSome known
        (IsFingerprint asked.now.text.now asked.now.tolerances map.now)) }
    ensures fault { IfErr result (IsStageFault (IsStartHere asked.now map.now start.now)) }
{
    let Some(read) = start else {
        return Ok(None);
    };
    if read.mark.is_none() {
        return Ok(None);
    }
    let mark = fingerprint(alloc, map, asked.text, &asked.tolerances)?;
    let Ok(()) = same_inputs(read, &mark) else {
        return Err(Fault::CursorOfOther);
    };
    Ok(Some(mark))
}

/// The layers of a reference on a map, and the searches that they were built with.
///
/// # Errors
///
/// [`Fault::TooManyCandidates`] with the first point that has more than 64; [`Fault::NoMemory`]
/// where the allocator refused memory.
pub(crate) fn layers_of(
    alloc: Global,
    map: &Map,
    reference: &Reference,
    tolerances: &Tolerances,
) -> Result<(Layers, Searches), Fault>
    requires { IsReference reference.now }
    ensures layers { IfOk result (λ built.
        AreLayers tolerances.now reference.now map.now (Ok built.0)) }
    ensures searches { IfOk result (λ built. AreSearchesOn map.now built.1) }
    ensures fault { IfErr result (IsStageFault
        (AreLayers tolerances.now reference.now map.now)) }
{
    let on = ReferenceOnMap {
        map,
        reference,
        tolerances: *tolerances,
    };
    let built = Layers::build_with_searches(alloc, &on)?;
    Ok(built)
}

/// The key after which the pages begin, if there is one.
fn key_of(start: &Option<CursorRead>) -> Option<&Key>
    ensures { option_map (λ key. key.now) result ≡ key_of start.now }
{
    let Some(read) = start else {
        return None;
    };
    Some(&read.key)
}

/// The pages of matchings that are asked for.
///
/// # Errors
///
/// [`Fault::CursorNotHere`] where the cursor isn't that of a matching; [`Fault::NoMemory`] where
/// the allocator refused memory.
pub(crate) fn pages_asked(
    alloc: Global,
    layers: &Layers,
    asked: &MatchRequest<'_>,
    start: &Option<CursorRead>,
) -> Result<Vec<Page>, Fault>
    ensures pages { IfOk result (λ list.
        ArePages asked.now layers.now start.now (Ok (values_of list.items))) }
    ensures fault { IfErr result (IsStageFault (ArePages asked.now layers.now start.now)) }
{
    let mut finder = TotalsFinder::build(alloc, layers.table())?;
    let Pages::One(_) = asked.pages else {
        let all = all_pages(alloc, &mut finder, asked.size)?;
        return Ok(all);
    };
    let page = page(alloc, &mut finder, key_of(start), asked.size)?;
    let mut one = Vec::new(alloc);
    let Ok(()) = one.push(page) else {
        return Err(Fault::NoMemory);
    };
    Ok(one)
}

/// Whether no page has more.
fn have_no_more(pages: &[Page]) -> bool
    ensures { Decides result (All (λ page. page.more ≡ false) pages.now) }
{
    pages.iter().all(|page| !page.more)
}

/// The mark for the cursors at the ends of these pages: the fingerprint of the inputs, if some page
/// has more. Where it is known already, it isn't computed again.
fn fingerprint_for(
    alloc: Global,
    map: &Map,
    asked: &MatchRequest<'_>,
    known: Option<Mark>,
    pages: &[Page],
) -> Result<Mark, NoMemory>
    requires { IfSome known (IsFingerprint asked.now.text.now asked.now.tolerances map.now) }
    ensures { IfOk result (λ mark. (page : PageValue) → Contains (values_of pages.now) page
        → page.more ≡ true → IsFingerprint asked.now.text.now asked.now.tolerances map.now mark) }
{
    if let Some(mark) = known {
        return Ok(mark);
    }
    if have_no_more(pages) {
        return Ok(Mark([0; 32]));
    }
    let mark = fingerprint(alloc, map, asked.text, &asked.tolerances)?;
    Ok(mark)
}

/// The mark for the cursors at the ends of these pages, where they have marks.
fn mark_of(
    alloc: Global,
    map: &Map,
    marks: bool,
    asked: &MatchRequest<'_>,
    known: Option<Mark>,
    pages: &[Page],
) -> Result<Option<Mark>, NoMemory>
    requires { IfSome known (IsFingerprint asked.now.text.now asked.now.tolerances map.now) }
    ensures { IfOk result (IsMarkOf marks asked.now.text.now asked.now.tolerances map.now
        (values_of pages.now)) }
{
    if !marks {
        return Ok(None);
    }
    let mark = fingerprint_for(alloc, map, asked, known, pages)?;
    Ok(Some(mark))
}

/// What pages add to the output as they are asked for, one after the other.
fn added_for_pages(
    alloc: Global,
    routes: &mut Routes<'_>,
    pages: &[Page],
    mark: &Option<Mark>,
    asked: &MatchRequest<'_>,
) -> Result<String, NoMemory>
    requires { All (λ page. All (IsKey routes.old.layers.penalties) page.keys.items) pages.now }
    ensures { IfOk result (λ output. AreAddedFor asked.now.extras asked.now.format
        routes.old.road routes.old.layers mark.now (values_of pages.now) (string_bytes output)) }
{
    let mut output = String::new(alloc);
    for page in pages {
        let added = added_for_page(alloc, routes, page, mark.as_ref(), asked)?;
        output.push_str(&added)?;
    }
    Ok(output)
}

/// The key after which further matchings follow behind pages: that of the last one.
#[tactic(auto, using(crate::proofs::PagesOf::behind_last, crate::proofs::PagesOf::behind_none))]
fn next_behind(pages: &[Page]) -> Option<&Key>
    ensures { option_map (λ key. key.now) result ≡ next_behind (values_of pages.now) }
{
    let Some(page) = pages.last() else {
        return None;
    };
    next_after(page)
}

/// The text of pages as they are asked for: their texts, one after the other, or in GeoJSON one
/// collection of their matchings.
fn text_of_pages(
    alloc: Global,
    routes: &mut Routes<'_>,
    pages: &[Page],
    mark: &Option<Mark>,
    asked: &MatchRequest<'_>,
) -> Result<String, NoMemory>
    requires { All (λ page. All (IsKey routes.old.layers.penalties) page.keys.items) pages.now }
    ensures { IfOk result (λ output. ArePagesIn asked.now.format asked.now.extras
        routes.old.road routes.old.layers mark.now (values_of pages.now) (string_bytes output)) }
{
    let added = added_for_pages(alloc, routes, pages, mark, asked)?;
    let Format::GeoJson = asked.format else {
        return Ok(added);
    };
    page_collection(alloc, &added, next_behind(pages), mark.as_ref())
}

/// The text of the pages of matchings that are asked for. Where `marks` is false, the cursors at
/// their ends have no mark: a mark names the whole map, and so takes time in proportion to it.
///
/// # Errors
///
/// [`Fault::CursorOfOther`] where the cursor has the mark of other inputs; else
/// [`Fault::TooManyCandidates`] with the first point that has more than 64; else
/// [`Fault::CursorNotHere`] where the cursor isn't that of a matching; [`Fault::NoMemory`] where
/// the allocator refused memory.
pub(crate) fn matchings_of(
    alloc: Global,
    map: &Map,
    marks: bool,
    asked: &MatchRequest<'_>,
    accepted: &Accepted,
) -> Result<String, Fault>
    requires { IsReference accepted.now.reference }
    ensures text { IfOk result (λ output.
        AreMatchings marks asked.now accepted.now map.now (Ok (string_bytes output))) }
    ensures fault { IfErr result (IsStageFault
        (AreMatchings marks asked.now accepted.now map.now)) }
{
    let Accepted { reference, start } = accepted;
    let known = check_inputs(alloc, map, asked, start)?;
    let (layers, searches) = layers_of(alloc, map, reference, &asked.tolerances)?;
    let pages = pages_asked(alloc, &layers, asked, start)?;
    let mark = mark_of(alloc, map, marks, asked, known, &pages)?;
    let mut routes = Routes::with_searches(alloc, map, &layers, searches);
    let output = text_of_pages(alloc, &mut routes, &pages, &mark, asked)?;
    Ok(output)
}
