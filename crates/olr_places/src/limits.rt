//! How matchings are told apart, and how far they are looked at.

ghost use Rattle.std.specs.Prelude.{◌≡◌, IfErr, IfOk};
ghost use Rattle.olr_places.specs.declared.limits.PlaceLimit.TheVariants.{Apart, Look, Most, Within};
ghost use Rattle.olr_places.specs.Limits.{IsFirstOutOfRange, IsInRange, by_name};

/// The name of a number.
#[derive(Clone, Copy, Debug, PartialEq, Eq)]
pub enum PlaceLimit {
    /// By how many neighbouring decimetres matchings of one place may differ.
    Apart,
    /// The greatest gap with which a place is listed.
    Within,
    /// How many matchings are looked at.
    Look,
    /// How many places are listed.
    Most,
}

/// A number is out of its range.
#[derive(Clone, Copy, Debug, PartialEq, Eq)]
pub struct BadNumber(pub PlaceLimit);

/// How matchings are told apart, and how far they are looked at.
#[derive(Clone, Copy, Debug, PartialEq, Eq)]
pub struct PlaceLimits {
    /// By how many neighbouring decimetres matchings of one place may differ: 0 to 1,000,000.
    pub apart: u32,
    /// The greatest gap with which a place is listed, in penalty points: 0 to 14,620.
    pub within: u32,
    /// How many matchings are looked at, at most: 1 to 1,000,000.
    pub look: u32,
    /// How many places are listed, at most: 1 to 100.
    pub most: u32,
    pub ghost apart_in_range: { IsInRange Apart apart },
    pub ghost within_in_range: { IsInRange Within within },
    pub ghost look_in_range: { IsInRange Look look },
    pub ghost most_in_range: { IsInRange Most most },
}

impl Default for PlaceLimits {
    /// 75 metres apart, a gap of 30 penalty points, 1000 matchings and 10 places.
    fn default() -> Self
        ensures apart { result.apart ≡ 750 }
        ensures within { result.within ≡ 30 }
        ensures look { result.look ≡ 1000 }
        ensures most { result.most ≡ 10 }
    {
        PlaceLimits {
            apart: 750,
            within: 30,
            look: 1_000,
            most: 10,
        }
    }
}

impl PlaceLimits {
    /// These numbers: apart in decimetres, within in penalty points, look in matchings, most in
    /// places.
    ///
    /// # Errors
    ///
    /// The name of the first, in this order, that is out of its range.
    pub fn new(apart: u32, within: u32, look: u32, most: u32) -> Result<PlaceLimits, BadNumber>
        ensures apart { IfOk result (λ accepted. accepted.apart ≡ apart) }
        ensures within { IfOk result (λ accepted. accepted.within ≡ within) }
        ensures look { IfOk result (λ accepted. accepted.look ≡ look) }
        ensures most { IfOk result (λ accepted. accepted.most ≡ most) }
        ensures refused { IfErr result (λ bad.
            IsFirstOutOfRange (by_name apart within look most) bad.0) }
    {
        if apart > 1_000_000 {
            return Err(BadNumber(PlaceLimit::Apart));
        }
        if within > 14_620 {
            return Err(BadNumber(PlaceLimit::Within));
        }
        if look < 1 || look > 1_000_000 {
            return Err(BadNumber(PlaceLimit::Look));
        }
        if most < 1 || most > 100 {
            return Err(BadNumber(PlaceLimit::Most));
        }
        Ok(PlaceLimits {
            apart,
            within,
            look,
            most,
        })
    }
}
