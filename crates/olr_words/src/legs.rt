//! What is asked of the legs of a matching.

ghost use Rattle.std.specs.Prelude.{IfErr, IfOk};
ghost use Rattle.olr_words.specs.Legs.{AreLegsAsked, AreRefusedLegs};

use crate::words::Given;
use olr_request::{Fault, LegsRequest, NearShare};

/// By how many thousandths another path of a leg may be longer where the words don't say it.
const DEFAULT_NEAR: u32 = 1;

impl<'a> Given<'a> {
    /// The legs that are asked for.
    ///
    /// # Errors
    ///
    /// That of [`Given::tolerances`]; else [`Fault::BadNear`] where the share by which another path
    /// may be longer is out of its range.
    pub(crate) fn legs(&self) -> Result<LegsRequest<'a>, Fault>
        ensures accepted { IfOk result (AreLegsAsked self.now) }
        ensures refused { IfErr result (AreRefusedLegs self.now) }
    {
        let tolerances = self.tolerances()?;
        let Ok(near) = NearShare::new(self.near.unwrap_or(DEFAULT_NEAR)) else {
            return Err(Fault::BadNear);
        };
        Ok(LegsRequest {
            text: self.text,
            tolerances,
            at: self.at,
            near,
            format: self.format,
        })
    }
}
