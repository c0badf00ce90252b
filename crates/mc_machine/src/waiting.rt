// The frames of a chain that wait for the one that they delegated to.
ghost use Rattle.std.specs.Prelude.{◌≡◌, ◌<◌, ◌≤◌, [], ◌∷◌, length};
ghost use Rattle.mc_machine.specs.Frames.{top_slot, TookTop};

use mc_bank::Slot;
use mc_segs::Frame;
use std::marker::Model;

/// At most three frames, of which the one that delegated last comes first. Each remains in its place while it
/// waits, since moving a frame is expensive.
#[derive(Debug, Drop)]
pub struct Waiting {
    pub(crate) first: Option<Frame>,
    pub(crate) second: Option<Frame>,
    pub(crate) third: Option<Frame>,
}

impl Model for Waiting {
    ghost use Rattle.std.specs.Prelude.{List};
    ghost use Rattle.mc_segs.specs.HeldFrames.{Held};
    ghost use Rattle.mc_machine.specs.Frames.{waiting_frames, HasNoGap};

    ghost Value = { List Held };

    ghost view = { waiting_frames };

    ghost invariant = { HasNoGap };
}

impl Waiting {
    /// Returns an empty list of frames.
    pub fn new() -> Waiting
        ensures { result ≡ [] }
    {
        Waiting {
            first: None,
            second: None,
            third: None,
        }
    }

    /// Returns the number of frames that wait.
    pub fn count(&self) -> u8
        ensures count { result ≡ length self.now }
        ensures few { result ≤ 3 }
    {
        if self.third.is_some() {
            3
        } else if self.second.is_some() {
            2
        } else if self.first.is_some() {
            1
        } else {
            0
        }
    }

    /// Returns the slot of the frame that delegated last, or `None` if no frame waits.
    pub fn top_slot(&self) -> Option<Slot>
        ensures { result ≡ top_slot self.now }
    {
        match (&self.third, &self.second, &self.first) {
            (Some(top), _, _) => Some(top.slot()),
            (None, Some(top), _) => Some(top.slot()),
            (None, None, Some(top)) => Some(top.slot()),
            (None, None, None) => None,
        }
    }

    /// Removes all frames.
    pub fn clear(&mut self)
        ensures { self.new ≡ [] }
    {
        if self.first.is_some() {
            self.remove_all();
        }
    }

    // Removes all frames. It is a call of its own because the place of a frame is cleared where it is emptied.
    #[cold]
    #[inline(never)]
    fn remove_all(&mut self)
        ensures { self.new ≡ [] }
    {
        self.first = None;
        self.second = None;
        self.third = None;
    }

    /// Adds a frame, which delegated last. There are at most two frames before.
    pub fn push(&mut self, frame: Frame)
        requires { length self.old < 3 }
        ensures { self.new ≡ frame ∷ self.old }
    {
        match self.count() {
            0 => self.first = Some(frame),
            1 => self.second = Some(frame),
            _ => self.third = Some(frame),
        }
    }

    /// Removes and returns the frame that delegated last, or `None` if no frame waits.
    pub fn pop(&mut self) -> Option<Frame>
        ensures { TookTop self.old result self.new }
    {
        match self.count() {
            0 => None,
            1 => self.first.take(),
            2 => self.second.take(),
            _ => self.third.take(),
        }
    }
}
