ghost use Rattle.std.specs.Prelude.{◌≡◌, IfOk, OnOk, [], ◌∷◌, ◌==◌, length, MatchOption, reverse};

use crate::frame::Frame;
use std::alloc::{AllocError, Global};
use std::marker::Model;
use std::sync::Arc;

/// The frames below the innermost one, seen from there.
///
/// Copies share them, until one of the two is changed.
pub struct Frames {
    items: Option<Arc<Vec<Frame>>>,
}

// Written out, so that it is proved once, and not at each exit of a function that owns one.
impl Drop for Frames {
    #[inline(always)]
    fn drop(self) {
        let Frames { items: _ } = self;
    }
}

impl Model for Frames {
    ghost use Rattle.std.specs.Prelude.{List, reverse};
    ghost use Rattle.lvish_task.specs.declared.frame.Frame.{Frame};
    ghost use Rattle.lvish_task.specs.Below.{frames_in};

    ghost Value = { List Frame };

    ghost view = { λ f. reverse (frames_in f.items) };
}

impl PartialEq for Frames {
    ghost use Rattle.std.specs.Prelude.{reverse};
    ghost use Rattle.std.specs.Cmp.{on_per};
    ghost use Rattle.std.specs.Cmp.Lexicographic.{lists_per, pointwise};
    ghost use Rattle.lvish_task.specs.contracts.frame.FramePartialEq.TheImpl.Laws.{laws-law};

    ghost eq = { λ fs gs. pointwise ⟦<Frame as PartialEq>⟧.eq (reverse fs) (reverse gs) };

    ghost laws = { on_per reverse (lists_per laws-law) };

    fn eq(&self, other: &Frames) -> bool {
        self.as_slice() == other.as_slice()
    }
}

impl Eq for Frames {
    ghost use Rattle.std.specs.Prelude.{reverse};
    ghost use Rattle.std.specs.Cmp.{on_equiv};
    ghost use Rattle.std.specs.Cmp.Lexicographic.{lists_equiv};
    ghost use Rattle.lvish_task.specs.contracts.frame.FrameEq.TheImpl.Laws.{laws-law};

    ghost laws = { on_equiv reverse (lists_equiv laws-law) };
}

/// The same frames, one by one.
#[inline(never)]
fn copied(alloc: Global, frames: &[Frame]) -> Result<Vec<Frame>, AllocError>
    ensures { IfOk result (λ v. v.items ≡ frames.now) }
{
    let mut items = Vec::with_capacity(alloc, frames.len())?;
    for frame in frames {
        items.push(frame.copy(alloc)?)?;
    }
    Ok(items)
}

impl Frames {
    /// No frames.
    #[inline(always)]
    pub fn new() -> Frames
        ensures { result ≡ [] }
    {
        Frames { items: None }
    }

    /// These frames, the innermost one last.
    fn of(alloc: Global, frames: Vec<Frame>) -> Result<Frames, AllocError>
        ensures { IfOk result (λ f. f ≡ reverse frames.items) }
    {
        if frames.is_empty() {
            return Ok(Frames::new());
        }
        let items = Some(Arc::new(alloc, frames)?);
        Ok(Frames { items })
    }

    /// How many there are.
    #[inline(always)]
    pub fn len(&self) -> usize
        ensures { result ≡ length self.now }
    {
        match &self.items {
            None => 0,
            Some(items) => items.len(),
        }
    }

    /// Whether there is none.
    #[inline(always)]
    pub fn is_empty(&self) -> bool
        ensures { result ≡ (length self.now == 0) }
    {
        self.len() == 0
    }

    /// The frames as a slice, the innermost one last.
    #[inline(always)]
    pub fn as_slice(&self) -> &[Frame]
        ensures { result.now ≡ reverse self.now }
    {
        match &self.items {
            None => &[],
            Some(items) => items.as_slice(),
        }
    }

    /// The frames, the innermost one last, which are then no longer here.
    fn taken(&mut self, alloc: Global) -> Result<Vec<Frame>, AllocError>
        ensures taken { IfOk result (λ v. v.items ≡ reverse self.old) }
        ensures none { self.new ≡ [] }
    {
        match self.items.take() {
            None => Ok(Vec::new(alloc)),
            Some(shared) => match Arc::try_unwrap(shared) {
                Ok(items) => Ok(items),
                Err(shared) => copied(alloc, shared.as_slice()),
            },
        }
    }

    /// One more frame above the others.
    #[inline(never)]
    pub fn push(&mut self, alloc: Global, frame: Frame) -> Result<(), AllocError>
        ensures { OnOk result (self.new ≡ frame ∷ self.old) }
    {
        let mut items = self.taken(alloc)?;
        items.push(frame)?;
        *self = Frames::of(alloc, items)?;
        Ok(())
    }

    /// Takes the topmost frame off.
    #[inline(never)]
    pub fn pop(&mut self, alloc: Global) -> Result<Option<Frame>, AllocError>
        ensures { IfOk result (λ o. MatchOption o ((self.old ≡ []) × (self.new ≡ [])) (λ f. self.old ≡ f ∷ self.new)) }
    {
        let mut items = self.taken(alloc)?;
        let top = items.pop();
        *self = Frames::of(alloc, items)?;
        Ok(top)
    }

    /// Becomes equal to the other, with which it shares the frames.
    ///
    /// # Errors
    ///
    /// Where more share them than can be counted.
    #[inline(always)]
    pub fn copy_from(&mut self, other: &Frames) -> Result<(), AllocError>
        ensures { OnOk result (self.new ≡ other.now) }
    {
        match (&self.items, &other.items) {
            (None, None) => Ok(()),
            _ => self.share(other),
        }
    }

    /// The same, whether there are frames or none.
    ///
    /// It isn't inlined, since most requests are made in the outermost frame.
    #[inline(never)]
    fn share(&mut self, other: &Frames) -> Result<(), AllocError>
        ensures { OnOk result (self.new ≡ other.now) }
    {
        *self = other.copy()?;
        Ok(())
    }

    /// The same frames, which both share.
    #[inline(always)]
    pub fn copy(&self) -> Result<Frames, AllocError>
        ensures { IfOk result (λ f. f ≡ self.now) }
    {
        Ok(Frames {
            items: match &self.items {
                None => None,
                Some(items) => Some(items.clone()?),
            },
        })
    }
}
