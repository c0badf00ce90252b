// What a name stands for.
ghost use Rattle.std.specs.Prelude.{◌≡◌, ℕ, List, [], ◌∷◌, option_map, Some, None, OnOk};
ghost use Rattle.mc_text.specs.model_device.specs.Bytes.{lookup};
ghost use Rattle.desk_draft.specs.Declarations.{header_bytes, header_names, header_words, Bytes, NameMeaning};
ghost use Rattle.desk_draft.specs.Views.{meaning_of, AreNames};

use std::alloc::{AllocError, Global};
use std::collections::BTreeMap;

/// The register from which the bytes of a name are found: static, session and public bytes, and the command's header.
#[derive(Clone, Copy, Debug, PartialEq, Eq)]
pub enum Register {
    Sb,
    Db,
    Pb,
    Pt,
}

/// What a name stands for: bytes from an offset of a register on, or a number as it was written.
#[derive(Clone, Copy)]
pub enum Meaning<'a> {
    Bytes {
        register: Register,
        at: i16,
        size: u16,
    },
    Number(&'a [u8]),
}

/// The names that a section declares.
pub type Names<'a> = BTreeMap<&'a [u8], Meaning<'a>>;

impl Register {
    ghost use Rattle.std.specs.Prelude.{◌≡◌};
    ghost use Rattle.mc_text.specs.model_text.specs.Listing.{register_name};
    ghost use Rattle.desk_draft.specs.Views.{register_tag};

    /// Returns the register's name.
    pub fn name(&self) -> &'static [u8]
        ensures { result.now ≡ register_name (register_tag self.now) }
    {
        match self {
            Register::Sb => b"SB",
            Register::Db => b"DB",
            Register::Pb => b"PB",
            Register::Pt => b"PT",
        }
    }
}

// Bytes of the command's header.
fn header<'a>(at: i16, size: u16) -> Meaning<'a>
    ensures { meaning_of result ≡ Bytes 7 at size }
{
    Meaning::Bytes {
        register: Register::Pt,
        at,
        size,
    }
}

// What the names of the bytes of the command's header stand for.
fn header_byte<'a>(name: &[u8]) -> Option<Meaning<'a>>
    ensures { option_map meaning_of result ≡ lookup header_bytes name.now }
{
    match name {
        b"CLA" => Some(header(-13, 1)),
        b"INS" => Some(header(-12, 1)),
        b"P1" => Some(header(-11, 1)),
        b"P2" => Some(header(-10, 1)),
        b"P3" => Some(header(-9, 1)),
        _ => None,
    }
}

// What the names of the lengths and of the status in the command's header stand for.
fn header_word<'a>(name: &[u8]) -> Option<Meaning<'a>>
    ensures { option_map meaning_of result ≡ lookup header_words name.now }
{
    match name {
        b"Lc" => Some(header(-8, 2)),
        b"Le" => Some(header(-6, 2)),
        b"La" => Some(header(-4, 2)),
        b"SW" => Some(header(-2, 2)),
        _ => None,
    }
}

// What the nine names of the command's header stand for, which are there in every section.
#[tactic(auto, using(crate::proofs::NameLemmas::header_found))]
fn header_meaning<'a>(name: &[u8]) -> Option<Meaning<'a>>
    ensures { option_map meaning_of result ≡ lookup header_names name.now }
{
    if let Some(meaning) = header_byte(name) {
        return Some(meaning);
    }
    header_word(name)
}

/// Returns what a name stands for, or `None` if the section has no such name.
pub fn look_up<'a>(names: &Names<'a>, name: &'a [u8]) -> Option<Meaning<'a>>
    ensures { (l : List (List ℕ × NameMeaning)) → AreNames names.now l
        → option_map meaning_of result ≡ lookup l name.now }
{
    match names.get(&name).copied() {
        Some(meaning) => Some(meaning),
        None => header_meaning(name),
    }
}

/// Gives a name its meaning.
pub fn put_name<'a>(
    names: &mut Names<'a>,
    name: &'a [u8],
    meaning: Meaning<'a>,
) -> Result<(), AllocError>
    ensures { OnOk result ((l : List (List ℕ × NameMeaning)) → AreNames names.old l
        → AreNames names.new ((name.now, meaning_of meaning.entry) ∷ l)) }
{
    names.insert(name, meaning)?;
    Ok(())
}

/// Returns the names of a section before its first line, which are those of the command's header.
pub fn no_names<'a>(alloc: Global) -> Names<'a>
    ensures { AreNames result header_names }
{
    BTreeMap::new(alloc)
}
