//! The file of a confidence, read.

ghost use Rattle.std.specs.Prelude.{◌≡◌, ◌≤◌, ◌^◌, ℕ, ℤ, Option, IfErr, IfNone, IfOk, IfSome, IsUtf8, None, Some, nat_abs, option_map};
ghost use Rattle.serde_json.specs.Data.{Data};
ghost use Rattle.serde_json.specs.Find.{get};
ghost use Rattle.serde_json.specs.Read.{read as read_text};
ghost use Rattle.serde_json.specs.View.{view};
ghost use Rattle.olr_confidence.specs.declared.file.ConfidenceError.TheVariants.{Bad};
ghost use Rattle.olr_confidence.specs.File.{AreAsked, AreWeights, HasAsked, HasRange, HasWeights, IsConfidence, IsFileOf, IsRange, IsRangeOrNull, number_at, whole_at};

use crate::confidence::{AskedNumbers, Confidence, MapRange, Weights};
use olr_base::NoMemory;
use serde_json::Value;
use std::alloc::Global;

/// Why there is no confidence.
#[derive(Clone, Copy, Debug, PartialEq, Eq)]
pub enum ConfidenceError {
    /// The bytes aren't those of such a file.
    Bad,
    /// The allocator refused memory.
    NoMemory,
}

/// The number of a member that isn't below 0.
fn whole_at(content: &Value, name: &str) -> Option<u64>
    ensures { result ≡ whole_at name.now (view content.now) }
{
    content.get(name)?.as_u64()
}

/// The number of a member.
fn number_at(content: &Value, name: &str) -> Option<i64>
    ensures { result ≡ number_at name.now (view content.now) }
{
    content.get(name)?.as_i64()
}

/// The weight of a member: from 0 to 2^28.
fn weight_at(content: &Value, name: &str) -> Option<u64>
    ensures found { IfSome result (λ weight.
        (whole_at name.now (view content.now) ≡ Some weight) × weight ≤ 2 ^ 28) }
    ensures missing { IfNone result ((weight : ℕ)
        → whole_at name.now (view content.now) ≡ Some weight → weight ≤ 2 ^ 28 → ⊥) }
{
    let weight = whole_at(content, name)?;
    if weight > 1 << 28 {
        return None;
    }
    Some(weight)
}

/// The weight of a member: from -2^32 to 2^32.
fn none_weight_at(content: &Value, name: &str) -> Option<i64>
    ensures found { IfSome result (λ weight.
        (number_at name.now (view content.now) ≡ Some weight) × nat_abs weight ≤ 2 ^ 32) }
    ensures missing { IfNone result ((weight : ℤ)
        → number_at name.now (view content.now) ≡ Some weight → nat_abs weight ≤ 2 ^ 32 → ⊥) }
{
    let weight = number_at(content, name)?;
    if weight.unsigned_abs() > 1 << 32 {
        return None;
    }
    Some(weight)
}

/// The numbers by which places were asked for.
fn asked_by(content: &Value, tolerances: &Value) -> Option<AskedNumbers>
    ensures found { IfSome result (AreAsked (view content.now) (view tolerances.now)) }
    ensures missing { IfNone result ((asked : AskedNumbers)
        → AreAsked (view content.now) (view tolerances.now) asked → ⊥) }
{
    Some(AskedNumbers {
        radius: whole_at(tolerances, "radius")?,
        bearing: whole_at(tolerances, "bearing")?,
        class: whole_at(tolerances, "class")?,
        lowest: whole_at(tolerances, "lowest")?,
        percent: whole_at(tolerances, "percent")?,
        slack: whole_at(tolerances, "slack")?,
        apart: whole_at(content, "apart")?,
    })
}

/// The numbers by which places were asked for, of a file.
#[tactic(auto, using(crate::proofs::Missing::no_asked))]
fn asked_of(content: &Value) -> Option<AskedNumbers>
    ensures found { IfSome result (HasAsked (view content.now)) }
    ensures missing { IfNone result ((asked : AskedNumbers)
        → HasAsked (view content.now) asked → ⊥) }
{
    let tolerances = content.get("tolerances")?;
    let Some(asked) = asked_by(content, tolerances) else {
        return None;
    };
    Some(asked)
}

/// What each difference weighs.
fn weights_by(content: &Value) -> Option<Weights>
    ensures found { IfSome result (AreWeights (view content.now)) }
    ensures missing { IfNone result ((weights : Weights)
        → AreWeights (view content.now) weights → ⊥) }
{
    Some(Weights {
        distance: weight_at(content, "distance")?,
        direction: weight_at(content, "direction")?,
        leg: weight_at(content, "leg")?,
        behind: weight_at(content, "behind")?,
        turning_back: weight_at(content, "turning_back")?,
        none: none_weight_at(content, "none")?,
        none_points: none_weight_at(content, "none_points")?,
        none_lines: none_weight_at(content, "none_lines")?,
        none_length: none_weight_at(content, "none_length")?,
    })
}

/// What each difference weighs, of a file.
#[tactic(auto, using(crate::proofs::Missing::no_weights))]
fn weights_of(content: &Value) -> Option<Weights>
    ensures found { IfSome result (HasWeights (view content.now)) }
    ensures missing { IfNone result ((weights : Weights)
        → HasWeights (view content.now) weights → ⊥) }
{
    let member = content.get("weights")?;
    let Some(weights) = weights_by(member) else {
        return None;
    };
    Some(weights)
}

/// How different the sender's map is.
fn range_by(content: &Value) -> Option<MapRange>
    ensures found { IfSome result (IsRange (view content.now)) }
    ensures missing { IfNone result ((range : MapRange)
        → IsRange (view content.now) range → ⊥) }
{
    let value = whole_at(content, "value")?;
    let low = whole_at(content, "low")?;
    let high = whole_at(content, "high")?;
    if low > value || value > high {
        return None;
    }
    Some(MapRange { value, low, high })
}

/// How different the sender's map is, if that is known.
fn range_or_null(content: &Value) -> Option<Option<MapRange>>
    ensures found { IfSome result (IsRangeOrNull (view content.now)) }
    ensures missing { IfNone result ((range : Option MapRange)
        → IsRangeOrNull (view content.now) range → ⊥) }
{
    if content.is_null() {
        return Some(None);
    }
    let range = range_by(content)?;
    Some(Some(range))
}

/// How different the sender's map is, if that is known, of a file.
#[tactic(auto, using(crate::proofs::Missing::no_range))]
fn range_of(content: &Value) -> Option<Option<MapRange>>
    ensures found { IfSome result (HasRange (view content.now)) }
    ensures missing { IfNone result ((range : Option MapRange)
        → HasRange (view content.now) range → ⊥) }
{
    let member = content.get("map_differs")?;
    let Some(range) = range_or_null(member) else {
        return None;
    };
    Some(range)
}

/// What a file says.
#[tactic(auto, using(crate::proofs::Missing::without_asked, crate::proofs::Missing::without_weights, crate::proofs::Missing::without_range))]
fn confidence_of(content: &Value) -> Option<Confidence>
    ensures found { IfSome result (IsConfidence (view content.now)) }
    ensures missing { IfNone result ((confidence : Confidence)
        → IsConfidence (view content.now) confidence → ⊥) }
{
    if whole_at(content, "version")? != 3 {
        return None;
    }
    let Some(asked) = asked_of(content) else {
        return None;
    };
    let Some(weights) = weights_of(content) else {
        return None;
    };
    let Some(map_differs) = range_of(content) else {
        return None;
    };
    Some(Confidence {
        asked,
        weights,
        map_differs,
    })
}

/// The JSON of these bytes.
fn content_of(alloc: Global, bytes: &[u8]) -> Result<Value, ConfidenceError>
    ensures found { IfOk result (λ content. IsUtf8 bytes.now
        × (read_text bytes.now ≡ Some (view content))) }
    ensures bad { IfErr result (λ error. error ≡ Bad → IsUtf8 bytes.now
        → read_text bytes.now ≡ None) }
{
    match Value::from_slice(alloc, bytes) {
        Ok(content) => Ok(content),
        Err(error) => {
            if error.is_memory() {
                Err(ConfidenceError::NoMemory)
            } else {
                Err(ConfidenceError::Bad)
            }
        }
    }
}

impl Confidence {
    /// What the bytes of a file say.
    ///
    /// # Errors
    ///
    /// [`ConfidenceError::Bad`] where they aren't those of such a file, and
    /// [`ConfidenceError::NoMemory`] where the allocator refused memory.
    #[tactic(auto, using(crate::proofs::Missing::no_file))]
    pub fn read(alloc: Global, bytes: &[u8]) -> Result<Confidence, ConfidenceError>
        ensures found { IfOk result (IsFileOf bytes.now) }
        ensures bad { IfErr result (λ error. error ≡ Bad
            → (confidence : Confidence) → IsFileOf bytes.now confidence → ⊥) }
    {
        let content = content_of(alloc, bytes)?;
        let Some(confidence) = confidence_of(&content) else {
            return Err(ConfidenceError::Bad);
        };
        Ok(confidence)
    }
}
