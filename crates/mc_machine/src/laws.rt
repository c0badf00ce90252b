ghost use Rattle.std.specs.Prelude.{◌≡◌, ℕ, List};
ghost use Rattle.law_machine.specs.model_machine.specs.declared.instruction.Ins.{Ins};
ghost use Rattle.law_machine.specs.model_machine.specs.Frame.{Frame, new_frame};
ghost use Rattle.law_machine.specs.model_machine.specs.Primitives.{Around};
ghost use Rattle.law_machine.specs.model_machine.specs.Row.{row};
ghost use Rattle.mc_segs.specs.HeldFrames.{frame_reading};
ghost use Rattle.mc_machine.specs.Alike.{seen_end, IsGuarded, KeepsRow};

/// A row has the same effect on frames with the same reading, whichever pieces their pending bytes come from,
/// if bytes are pending only while protection is on.
pub fn rows_see()
    ensures { (i : Ins) (f g : Frame) (public : List ℕ) (x : Around) → IsGuarded f → frame_reading f ≡ frame_reading g
        → seen_end f.fixed (row i f public x) ≡ seen_end g.fixed (row i g public x) }
{}

/// A row that is done keeps its frame's application and sizes, that bytes are pending only while protection is on, and
/// the length of the public segment; its frame's static bytes are those of before with its change.
pub fn rows_keep()
    ensures { (i : Ins) (f : Frame) (public : List ℕ) (x : Around) → KeepsRow f public (row i f public x) }
{}

/// A new frame has no pending bytes.
pub fn new_frames_guarded()
    ensures { (name : List ℕ) (code_len deny : ℕ) (fixed session : List ℕ)
        → IsGuarded (new_frame name code_len deny fixed session) }
{}
