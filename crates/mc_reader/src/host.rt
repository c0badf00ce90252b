// The host of a session.
ghost use Rattle.std.specs.Prelude.{◌≡◌, ◌≤◌, ℕ, List, [], ◌∷◌, length, Option};
ghost use Rattle.mc_text.specs.Texts.{sunk};
ghost use Rattle.mc_script.specs.Benches.{bench_of};
ghost use Rattle.mc_reader.specs.Moments.{Moment, Records};
ghost use Rattle.mc_reader.specs.Readings.{ReadsFrame};

use crate::reading::{FrameFault, read_frame};
use mc_nvm::Bench;
use mc_script::Player;
use mc_streams::{Sink, Source};

/// The host of a session, which sends one frame at each call. It is passed the card and the sink of the answers at
/// that moment, and may record what it sees. Each source is a host, and looks at neither.
pub trait Host {
    /// The bytes that are left, if the host states them.
    ghost left: { Self → Option (List ℕ) };

    /// The number of calls that failed.
    ghost faults: { Self → ℕ };

    /// The moments of all calls so far, if the host records them.
    ghost moments: { Self → Option (List Moment) };

    /// Sends the next frame into the first bytes of `room`, which has room for the longest one, and returns its
    /// length in bytes, or `None` if the input ends before it. No byte after the frame is taken.
    ///
    /// # Errors
    ///
    /// Returns `Short` if the input ends inside the frame, or `ReadFault` if the host fails.
    fn frame<N: Bench, T: Sink>(
        &mut self,
        room: &mut [u8],
        player: &Player<N>,
        out: &T,
    ) -> Result<Option<usize>, FrameFault>
        requires { length room.old ≡ 65535 }
        ensures reads { ReadsFrame (left self.old) (faults self.old) (left self.new) (faults self.new) room.new result }
        ensures counted { faults self.old ≤ faults self.new }
        ensures asked { Records (moments self.old) (record {
          dev = bench_of N.Bench player.now;
          out = sunk T.Sink out.now;
        } ∷ []) (moments self.new) };
}

impl<S: Source> Host for S {
    ghost use Rattle.std.specs.Prelude.{None};

    ghost left = { λ s. S.left s };

    ghost faults = { λ s. S.faults s };

    ghost moments = { λ s. None };

    fn frame<N: Bench, T: Sink>(
        &mut self,
        room: &mut [u8],
        _player: &Player<N>,
        _out: &T,
    ) -> Result<Option<usize>, FrameFault> {
        read_frame(self, room)
    }
}
