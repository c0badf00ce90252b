ghost use Rattle.std.specs.Prelude.{◌≡◌, ◌+◌, ◌≤◌, length, vec_len, IsSome, None};
ghost use Rattle.model_card.specs.model_device.specs.Bytes.{lookup};
ghost use Rattle.mc_words.specs.Name.{IsName};
ghost use Rattle.mc_bank.specs.Bank.{CanCommit, IsGoodSite, part_len};
ghost use Rattle.mc_bank.specs.Memory.{memory_named, apps_from, memory_room, IsMemory};
ghost use Rattle.mc_bank.specs.Shown.{app_at};
ghost use Rattle.mc_bank.specs.Left.{CommitLeft, FillLeft, CreateLeft, DeleteLeft};

use crate::bank::{Site, Slot};
use crate::entries::{Entry, put_app, put_piece, put_words};
use mc_words::{Aid, Word};
use model_card::Part;

/// Sets words of an application.
pub fn commit(entries: &mut Vec<Entry>, slot: Slot, list: &[(u16, Word)])
    requires memory { IsMemory entries.old.items }
    requires there { IsSome (memory_named entries.old.items slot) }
    requires list { CanCommit (app_at entries.old.items slot).fixed list.now }
    ensures left { CommitLeft entries.old.items slot list.now entries.new.items }
{
    check_len(entries);
    put_words(&mut entries[slot.index() as usize], list);
}

/// Sets bytes of a section of a good site.
pub fn fill(entries: &mut Vec<Entry>, site: &Site, part: Part, at: u16, piece: &[u8])
    requires memory { IsMemory entries.old.items }
    requires good { IsGoodSite (apps_from 0 entries.old.items) (memory_room entries.old.items) site.now }
    requires range { at + length piece.now ≤ part_len part site.now.sizes }
    ensures left { FillLeft entries.old.items site.now part at piece.now entries.new.items }
{
    check_len(entries);
    put_piece(&mut entries[site.place as usize], part, at as usize, piece);
}

/// Makes an application of the bytes at a good site.
pub fn create(entries: &mut Vec<Entry>, site: &Site, aid: &Aid)
    requires memory { IsMemory entries.old.items }
    requires good { IsGoodSite (apps_from 0 entries.old.items) (memory_room entries.old.items) site.now }
    requires fresh { lookup (apps_from 0 entries.old.items) aid.now ≡ None }
    ensures left { CreateLeft entries.old.items site.now aid.now entries.new.items }
{
    check_len(entries);
    check_name(aid);
    put_app(&mut entries[site.place as usize], &site.sizes, aid);
}

// A vector's length is that of its list; a caller learns it here.
fn check_len(entries: &Vec<Entry>)
    ensures { vec_len entries.now ≡ length entries.now.items }
{
    let _all = entries.as_slice();
}

// A name has 5 to 16 bytes by its type; a caller learns it here.
fn check_name(aid: &Aid)
    ensures { IsName aid.now }
{
    let _bytes = aid.bytes();
}

/// Frees the entry of an application.
pub fn delete(entries: &mut Vec<Entry>, slot: Slot)
    requires memory { IsMemory entries.old.items }
    requires there { IsSome (memory_named entries.old.items slot) }
    ensures left { DeleteLeft entries.old.items slot entries.new.items }
{
    check_len(entries);
    entries[slot.index() as usize].facts = None;
}
