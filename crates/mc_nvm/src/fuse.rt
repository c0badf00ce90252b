ghost use Rattle.std.specs.Prelude.{◌≡◌, option_map, IfSome};
ghost use Rattle.mc_words.specs.model_device.specs.Device.{next_fill, fuse_after_write, due};
ghost use Rattle.mc_nvm.specs.Sim.{fuse_of, due_of, own};

use mc_words::Word;

/// A write to come, counted with 1 for the next, and the word that it leaves.
#[derive(Clone, Copy, Debug, Drop)]
pub struct Fuse {
    pub writes: u32,
    pub fill: Word,
}

/// What happens to the next write: power goes during it, it fails, or neither. A stop leaves this word.
#[derive(Clone, Copy, Debug, Drop)]
pub enum Due {
    Cut(Word),
    Worn(Word),
    Not,
}

/// Returns the fuse after one write, or `None` if the write was its own.
pub fn nearer(fuse: Option<Fuse>) -> Option<Fuse>
    ensures { option_map fuse_of result ≡ fuse_after_write (option_map fuse_of fuse) }
{
    match fuse {
        Some(f) if f.writes > 1 => {
            let fill = f.fill;
            Some(Fuse {
                writes: f.writes - 1,
                fill,
            })
        }
        _ => None,
    }
}

/// Returns the word that the fuse leaves in the next write, or `None` if it does not fall on it.
pub fn falls(fuse: Option<Fuse>) -> Option<Word>
    ensures { result ≡ next_fill (option_map fuse_of fuse) }
{
    match fuse {
        Some(f) if f.writes == 1 => Some(f.fill),
        _ => None,
    }
}

/// Returns what happens to the next write: a cut goes before a write that fails by itself (`refused`), and that before
/// the wear fuse.
pub fn next(cut: Option<Fuse>, worn: Option<Fuse>, refused: bool) -> Due
    ensures { due_of result ≡ own refused (due (next_fill (option_map fuse_of cut))
        (next_fill (option_map fuse_of worn))) }
{
    match (falls(cut), falls(worn)) {
        (Some(fill), _) => Due::Cut(fill),
        (None, _) if refused => Due::Worn([0; 8]),
        (None, Some(fill)) => Due::Worn(fill),
        (None, None) => Due::Not,
    }
}
