// An application made of what a load left in a hole: zeros after its data, its record, and the atomic write of its
// block.
ghost use Rattle.std.specs.Prelude.{◌≡◌, ◌+◌, ◌-◌, ◌*◌, ◌<◌, ◌≤◌, ◌⊎◌, ◌++◌, true, None, [], ◌∷◌, length, take, drop, OnOk};
ghost use Rattle.mc_words.specs.model_device.specs.Bytes.{zeros, bytes2, lookup};
ghost use Rattle.mc_words.specs.model_device.specs.Orders.{InOrder};
ghost use Rattle.mc_words.specs.model_device.specs.Card.{means};
ghost use Rattle.mc_bank.specs.model_card.specs.Items.{Blank, Note, Enter};
ghost use Rattle.mc_bank.specs.model_card.specs.Manager.{create_items};
ghost use Rattle.mc_words.specs.Name.{IsName};
ghost use Rattle.mc_bank.specs.Bank.{FitsLimits};
ghost use Rattle.mc_bank.specs.model_card.specs.declared.card.Part.TheVariants.{Data};
ghost use Rattle.mc_store.specs.Store.{is_going, part_from, record_word, IsGoodIn, IsInWord, IsReadySite};
ghost use Rattle.mc_store.specs.StoreItems.{store_did, blank_items};

use crate::filling::{room_in_word, write_part};
use crate::place::{needed_words, part_place};
use crate::store::Store;
use mc_bank::{Part, Site, Sizes};
use mc_blocks::take_plan;
use mc_nvm::Nvm;
use mc_packed::write_words;
use mc_words::{Aid, Stop, Word};

/// Makes an application of the bytes at a site that has room, under a name that is not there.
///
/// # Errors
///
/// Returns the stop of a write; the application is there or not then.
pub fn create<N: Nvm>(store: &mut Store<N>, site: &Site, aid: &Aid) -> Result<(), Stop>
    requires going { is_going (N.state store.old.device) store.old.count ≡ true }
    requires good { IsGoodIn (N.state store.old.device).words site.now }
    requires fresh { lookup (means (N.state store.old.device).words).apps aid.now ≡ None }
    ensures items { InOrder (store_did N.state N.wrote) store.old (create_items site.now aid.now) result store.new }
{
    let _size = store.device.len();
    let _name = aid.bytes();
    clear(store, site)?;
    note(store, site, aid)?;
    enter(store, site, aid)
}

// Writes zeros after the data, as far as the static bytes go.
fn clear<N: Nvm>(store: &mut Store<N>, site: &Site) -> Result<(), Stop>
    requires going { is_going (N.state store.old.device) store.old.count ≡ true }
    requires good { IsGoodIn (N.state store.old.device).words site.now }
    ensures items { InOrder (store_did N.state N.wrote) store.old
        (blank_items site.now site.now.sizes.init (zeros (site.now.sizes.fixed - site.now.sizes.init))) result
        store.new }
    ensures going { OnOk result (is_going (N.state store.new.device) store.new.count ≡ true) }
    ensures good { OnOk result (IsGoodIn (N.state store.new.device).words site.now) }
{
    let sizes = site.sizes();
    let from = part_place(Part::Data, &sizes, site.place());
    let mut at = sizes.init;
    while at < sizes.fixed {
        let count = room_in_word(at, (sizes.fixed - at) as usize);
        put_zeros(store, site, from, at, count)?;
        at += count as u16;
    }
    Ok(())
}

// Writes zeros in one word of the static bytes, which begin in the word `from`.
fn put_zeros<N: Nvm>(
    store: &mut Store<N>,
    site: &Site,
    from: u32,
    at: u16,
    count: usize,
) -> Result<(), Stop>
    requires going { is_going (N.state store.old.device) store.old.count ≡ true }
    requires good { IsGoodIn (N.state store.old.device).words site.now }
    requires from { from ≡ part_from Data site.now.sizes site.now.place }
    requires word { IsInWord site.now.sizes.fixed at count }
    ensures did { store_did N.state N.wrote store.old (Blank site.now at count) result store.new }
    ensures going { OnOk result (is_going (N.state store.new.device) store.new.count ≡ true) }
    ensures good { OnOk result (IsGoodIn (N.state store.new.device).words site.now) }
{
    let _size = store.device.len();
    write_part(&mut store.device, from, at, &[0; 8][..count])
}

// Writes the four words of the record.
fn note<N: Nvm>(store: &mut Store<N>, site: &Site, aid: &Aid) -> Result<(), Stop>
    requires going { is_going (N.state store.old.device) store.old.count ≡ true }
    requires good { IsGoodIn (N.state store.old.device).words site.now }
    requires name { IsName aid.now }
    ensures items { InOrder (store_did N.state N.wrote) store.old (Note site.now aid.now 0 ∷ Note site.now aid.now 1
        ∷ Note site.now aid.now 2 ∷ Note site.now aid.now 3 ∷ []) result store.new }
    ensures going { OnOk result (is_going (N.state store.new.device) store.new.count ≡ true) }
    ensures good { OnOk result (IsGoodIn (N.state store.new.device).words site.now) }
{
    let name = padded(aid);
    put_note(store, site, aid, &name, 0)?;
    put_note(store, site, aid, &name, 1)?;
    put_note(store, site, aid, &name, 2)?;
    put_note(store, site, aid, &name, 3)
}

// Writes one word of the record of an application, whose name followed by zeros is `padded`.
#[inline(always)]
fn put_note<N: Nvm>(
    store: &mut Store<N>,
    site: &Site,
    aid: &Aid,
    padded: &[u8; 16],
    number: u16,
) -> Result<(), Stop>
    requires going { is_going (N.state store.old.device) store.old.count ≡ true }
    requires good { IsGoodIn (N.state store.old.device).words site.now }
    requires name { IsName aid.now }
    requires padded { padded.now ≡ aid.now ++ zeros (16 - length aid.now) }
    requires number { number < 4 }
    ensures did { store_did N.state N.wrote store.old (Note site.now aid.now number) result store.new }
    ensures going { OnOk result (is_going (N.state store.new.device) store.new.count ≡ true) }
    ensures good { OnOk result (IsGoodIn (N.state store.new.device).words site.now) }
{
    let _size = store.device.len();
    let word = entry_word(&site.sizes(), aid, padded, number);
    let place = site.place() as u32 + 1 + number as u32;
    store.device.write(place, word)
}

// Returns a word of the record of an application, whose name followed by zeros is `name`.
#[inline(always)]
fn entry_word(sizes: &Sizes, aid: &Aid, name: &[u8; 16], number: u16) -> Word
    requires limits { FitsLimits sizes.now }
    requires name { IsName aid.now }
    requires padded { name.now ≡ aid.now ++ zeros (16 - length aid.now) }
    requires number { number < 4 }
    ensures { result ≡ record_word sizes.now aid.now number }
{
    match number {
        0 => [
            name[0], name[1], name[2], name[3], name[4], name[5], name[6], name[7],
        ],
        1 => [
            name[8], name[9], name[10], name[11], name[12], name[13], name[14], name[15],
        ],
        2 => lengths_word(sizes, aid),
        _ => access_word(sizes),
    }
}

// Returns the name followed by zeros.
fn padded(aid: &Aid) -> [u8; 16]
    ensures { result ≡ aid.now ++ zeros (16 - length aid.now) }
{
    let name = aid.bytes();
    let mut bytes = [0; 16];
    bytes[..name.len()].copy_from_slice(name);
    bytes
}

// Returns the word with the lengths of the name, DIR, FCI, code and static bytes.
fn lengths_word(sizes: &Sizes, aid: &Aid) -> Word
    requires { FitsLimits sizes.now }
    ensures { result ≡ length aid.now ∷ sizes.now.dir ∷ sizes.now.fci ∷ 0
        ∷ (bytes2 sizes.now.code ++ bytes2 sizes.now.fixed) }
{
    let len = aid.bytes().len();
    [
        len as u8,
        sizes.dir as u8,
        sizes.fci as u8,
        0,
        (sizes.code / 256) as u8,
        (sizes.code % 256) as u8,
        (sizes.fixed / 256) as u8,
        (sizes.fixed % 256) as u8,
    ]
}

// Returns the word with the session size and the access list.
fn access_word(sizes: &Sizes) -> Word
    requires { FitsLimits sizes.now }
    ensures { result ≡ bytes2 sizes.now.session ++ bytes2 sizes.now.deny ++ zeros 4 }
{
    [
        (sizes.session / 256) as u8,
        (sizes.session % 256) as u8,
        (sizes.deny / 256) as u8,
        (sizes.deny % 256) as u8,
        0,
        0,
        0,
        0,
    ]
}

// Makes the application, whose record and sections are there.
fn enter<N: Nvm>(store: &mut Store<N>, site: &Site, aid: &Aid) -> Result<(), Stop>
    requires going { is_going (N.state store.old.device) store.old.count ≡ true }
    requires ready { IsReadySite (N.state store.old.device).words site.now aid.now }
    ensures did { store_did N.state N.wrote store.old (Enter site.now aid.now) result store.new }
{
    let _size = store.device.len();
    let plan = take_plan(&store.device, site.place(), needed_words(&site.sizes()));
    write_words(&mut store.device, plan.as_slice())?;
    store.count += 1;
    Ok(())
}
