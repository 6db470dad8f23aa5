//! What a blocked task waits for, by the line at which it stands.

use crate::find_trouble::Said;
use crate::spot::Spot;
use crate::values::value_of;
use crate::wait::Wait;
use lvish_retrace::{InPools, Live, Told};
use lvish_syntax::{Command, Threshold};
use std::alloc::{AllocError, Global};

/// What a freeze waits for, where these tasks run in its pools.
fn freeze_wait(spot: Spot<'_>, in_pools: Option<InPools>) -> Wait<'_> {
    let Some(InPools { count, is_own }) = in_pools else {
        return Wait::Other;
    };
    if count == 0 {
        return Wait::Handlers(spot);
    }
    if is_own {
        Wait::OwnPool(count)
    } else {
        Wait::Pools(count)
    }
}

impl<'a> Said<'_, 'a> {
    /// What the get waits for.
    fn get_wait(&self) -> Option<Wait<'a>> {
        let (spot, threshold) = self.get()?;
        Some(match threshold {
            Threshold::Any => Wait::Any(spot),
            Threshold::In(_) => Wait::In(spot),
            Threshold::Has(term) => Wait::Has(spot, value_of(self.locals, term)?),
            Threshold::Least(term) => Wait::Least(spot, value_of(self.locals, term)?),
            Threshold::Total(term) => Wait::Total(spot, value_of(self.locals, term)?),
        })
    }

    /// The variable that is frozen.
    fn frozen_spot(&self) -> Option<Spot<'a>> {
        match self.command {
            Command::Freeze(_, variable, _) => self.whole(variable),
            Command::FreezeEach(_, variable, _, _) => self.whole(variable),
            _ => None,
        }
    }

    /// What a task waits for that is blocked at the statement.
    pub fn wait(
        &self,
        alloc: Global,
        told: &Told<'_, '_>,
        live: &Live,
    ) -> Result<Wait<'a>, AllocError> {
        if let Some(spot) = self.frozen_spot() {
            return Ok(freeze_wait(spot, told.in_pools(alloc, live)?));
        }
        match self.get_wait() {
            Some(wait) => Ok(wait),
            None => Ok(Wait::Other),
        }
    }
}
