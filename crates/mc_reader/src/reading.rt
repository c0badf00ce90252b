// Frames read from a source, and no byte after them.
ghost use Rattle.std.specs.Prelude.{◌≡◌, ◌<◌, ◌≤◌, length, take, IfOk, OnErr};
ghost use Rattle.mc_words.specs.model_device.specs.Counts.{Rose};
ghost use Rattle.mc_streams.specs.Streams.{Took, AtEnd};
ghost use Rattle.mc_reader.specs.Readings.{TookLess, ReadsFrame};

use mc_streams::{Failed, Source};

/// Why the bytes that were read are not a frame.
#[derive(Clone, Copy, Debug, PartialEq, Eq)]
pub enum FrameFault {
    /// The input ended after the first byte of a frame and before its last.
    Short,
    /// The source failed.
    ReadFault,
}

impl From<Failed> for FrameFault {
    ghost use Rattle.std.specs.Prelude.{◌≡◌};
    ghost use Rattle.mc_reader.specs.declared.reading.FrameFault.TheVariants as fault;

    ghost from_gives = { λ f e. e ≡ fault.ReadFault };

    fn from(_error: Failed) -> Self {
        FrameFault::ReadFault
    }
}

/// Reads bytes until `into` is full or the input ends, and returns the number of bytes read.
fn fill<S: Source>(source: &mut S, into: &mut [u8]) -> Result<usize, Failed>
    ensures bound { IfOk result (λ n. n ≤ length into.new) }
    ensures bytes { IfOk result (λ n. Took (S.left source.old) (S.left source.new) (take n into.new)) }
    ensures end { IfOk result (λ n. n < length into.new → AtEnd (S.left source.new)) }
    ensures less { OnErr result (TookLess (S.left source.old) (S.left source.new) (length into.old)) }
    ensures failed { OnErr result (Rose (S.faults source.old) (S.faults source.new)) }
    ensures counted { S.faults source.old ≤ S.faults source.new }
{
    let mut done = 0;
    while done < into.len() {
        let count = source.take(&mut into[done..])?;
        if count == 0 {
            return Ok(done);
        }
        done += count;
    }
    Ok(done)
}

/// Reads the next frame into the first bytes of `room`, which has room for the longest one, and returns its
/// length in bytes, or `None` if the input ends before it. No byte after the frame is read.
///
/// # Errors
///
/// Returns `Short` if the input ends inside the frame, or `ReadFault` if the source fails.
pub fn read_frame<S: Source>(source: &mut S, room: &mut [u8]) -> Result<Option<usize>, FrameFault>
    requires { length room.old ≡ 65535 }
    ensures reads { ReadsFrame (S.left source.old) (S.faults source.old) (S.left source.new)
        (S.faults source.new) room.new result }
    ensures counted { S.faults source.old ≤ S.faults source.new }
{
    let mut size = [0; 2];
    let came = fill(source, &mut size)?;
    if came == 0 {
        return Ok(None);
    }
    if came == 1 {
        return Err(FrameFault::Short);
    }
    let [high, low] = size;
    let count = high as usize * 256 + low as usize;
    if fill(source, &mut room[..count])? < count {
        return Err(FrameFault::Short);
    }
    Ok(Some(count))
}
