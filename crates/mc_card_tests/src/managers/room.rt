// A card of 256 words: an OPEN has room exactly if a hole of the card is long enough.
ghost use Rattle.std.specs.Prelude.{◌≡◌, ◌<◌};

use crate::managers::rig::{Want, first_wrong};
use mc_blocks::format_words;
use mc_manager::Manager;
use mc_nvm::{Bench, Nvm, SimNvm};
use mc_store::Store;
use mc_words::{NoMemory, Steps};
use std::alloc::Global;
use std::marker::Brand;
use std::sync::ledger::{Blank, Ledger};
use std::test::Fail;

// Three applications with the code of a counter. With static bytes of 400, 424 and 912 they need 61, 64 and 125 words,
// and one more word with one more byte.
const ROWS: &[(&str, Want)] = &[
    // The hole of an empty card has 125 words.
    ("BE1200000C000F03910000000000090009", Want::Status(0x6A84)),
    ("BE1200000C000F03900000000000090009", Want::Status(0x9000)),
    // The first, of 61 words at 131.
    ("BE1200000C000F01900000000000090009", Want::Status(0x9000)),
    (
        "BE2400000FB90200003902000046020000060002",
        Want::Status(0x9000),
    ),
    ("BE2000000961074F05A000000001", Want::Status(0x9000)),
    ("BE220000096F078405A000000001", Want::Status(0x9000)),
    ("BE160000", Want::Status(0x9000)),
    // The hole has 64 words.
    ("BE1200000C000F01A90000000000090009", Want::Status(0x6A84)),
    ("BE1200000C000F01A80000000000090009", Want::Status(0x9000)),
    // The second, of 61 words at 192. A refused OPEN leaves its load as it is.
    ("BE1200000C000F01900000000000090009", Want::Status(0x9000)),
    (
        "BE2400000FB90200003902000046020000060002",
        Want::Status(0x9000),
    ),
    ("BE2000000961074F05A000000002", Want::Status(0x9000)),
    ("BE1200000C000F01A90000000000090009", Want::Status(0x6A84)),
    ("BE220000096F078405A000000002", Want::Status(0x9000)),
    ("BE160000", Want::Status(0x9000)),
    // The hole has three words, and an application has no fewer than six. Other causes come first.
    ("BE1200000C000F01A80000000000090009", Want::Status(0x6A84)),
    ("BE1200000C000100000000000000000000", Want::Status(0x6A84)),
    ("BE1200100C000100000000000000000000", Want::Status(0x6A86)),
    ("BE120000", Want::Status(0x6700)),
    ("BE1200000C000000000000000000000000", Want::Status(0x6A80)),
    // Without the second the hole has 64 words again.
    ("BE18000005A000000002", Want::Status(0x9000)),
    ("BE1200000C000F01A90000000000090009", Want::Status(0x6A84)),
    // The third, of 64 words.
    ("BE1200000C000F01A80000000000090009", Want::Status(0x9000)),
    (
        "BE2400000FB90200003902000046020000060002",
        Want::Status(0x9000),
    ),
    ("BE2000000961074F05A000000003", Want::Status(0x9000)),
    ("BE220000096F078405A000000003", Want::Status(0x9000)),
    ("BE160000", Want::Status(0x9000)),
    // There is no hole.
    ("BE1200000C000100000000000000000000", Want::Status(0x6A84)),
];

// The result of the session: no card at all, or its first wrong row, and words 0, 131 and 192 of the card
// after it.
#[derive(Debug, PartialEq, Eq, Drop)]
enum Session {
    NoCard,
    Played(Option<usize>, [u64; 3]),
}

fn formatted(alloc: Global) -> Result<SimNvm, NoMemory> {
    let mut device = SimNvm::new(alloc, 256)?;
    for (at, word) in format_words(256) {
        if (at as u32) < device.len() {
            device.poke(at as u32, word);
        }
    }
    Ok(device)
}

fn number_at(device: &SimNvm, at: u32) -> u64
    requires { at < 256 }
{
    let _size = device.len();
    u64::from_be_bytes(device.read(at))
}

fn played<L: Ledger>(alloc: Global, blank: Blank) -> Result<Session, NoMemory>
    requires name { blank.name ≡ L.name }
    requires parts { blank.parts ≡ L.parts }
    requires some { 0 < blank.parts }
{
    let mut device = formatted(alloc)?;
    device.power();
    let Ok((mut store, _)) = Store::power_up(device) else {
        return Ok(Session::NoCard);
    };
    let mut manager = Manager::new();
    let mut steps = Steps::<L>::new(blank);
    let wrong = first_wrong(alloc, &mut manager, &mut store, &mut steps, ROWS);
    let device = store.into_dev();
    let words = [
        number_at(&device, 0),
        number_at(&device, 131),
        number_at(&device, 192),
    ];
    Ok(Session::Played(wrong, words))
}

// The words of the first application, and of the third in the place of the second.
#[test]
fn room(rt: HostRuntime) -> Result<(), Fail> {
    assert_eq!(rt;
        played::<Brand>(rt.alloc(), Blank::new(1))?,
        Session::Played(
            None,
            [0x4D454C0201000000, 0x5500003D00000000, 0x5500004000000000]
        )
    );
    Ok(())
}
