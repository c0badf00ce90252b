// The declaration of a line.
ghost use Rattle.std.specs.Prelude.{◌≡◌, option_map, ◌∷◌};
ghost use Rattle.mc_text.specs.model_text.specs.Text.{begins};
ghost use Rattle.mc_text.specs.model_device.specs.Bytes.{lookup};
ghost use Rattle.mc_asm.specs.Items.{texts};
ghost use Rattle.desk_draft.specs.Declarations.{declaration_in, declaration_of, declaration_words, is_labelled, gives, StaticWord, SessionWord, PublicWord, ConstWord};
ghost use Rattle.desk_draft.specs.Views.{word_of, gives_by, Declares, DeclaresMaybe};

use crate::part::without_comment;
use mc_deck::fields;

/// The word of a declaration.
#[derive(Clone, Copy, Debug, PartialEq, Eq)]
pub enum DeclarationWord {
    Static,
    Session,
    Public,
    Const,
}

/// A declaration by its word and its fields; `Malformed` if it has another number of fields than its word asks for.
#[derive(Clone, Copy)]
pub enum Declaration<'a> {
    Static {
        name: &'a [u8],
        size: &'a [u8],
        hex: Option<&'a [u8]>,
    },
    Session {
        name: &'a [u8],
        size: &'a [u8],
    },
    Public {
        name: &'a [u8],
        at: &'a [u8],
        size: &'a [u8],
    },
    Const {
        name: &'a [u8],
        number: &'a [u8],
    },
    Malformed,
}

// Whether a field begins with a colon.
fn begins_with_colon(field: &[u8]) -> bool
    ensures { result ≡ begins 58 field.now }
{
    match field {
        [first, ..] => *first == b':',
        [] => false,
    }
}

// Whether a colon follows the word before these fields.
fn is_labelled(fields: &[&[u8]]) -> bool
    ensures { result ≡ is_labelled (texts fields.now) }
{
    match fields {
        [field, ..] => begins_with_colon(field),
        [] => false,
    }
}

// The word of a declaration.
fn word_named(word: &[u8]) -> Option<DeclarationWord>
    ensures { option_map word_of result ≡ lookup declaration_words word.now }
{
    match word {
        b"STATIC" => Some(DeclarationWord::Static),
        b"SESSION" => Some(DeclarationWord::Session),
        b"PUBLIC" => Some(DeclarationWord::Public),
        b"CONST" => Some(DeclarationWord::Const),
        _ => None,
    }
}

// A declaration of static bytes.
fn static_of<'a>(fields: &[&'a [u8]]) -> Declaration<'a>
    ensures { Declares result StaticWord (texts fields.now) }
{
    match fields {
        [name, size] => Declaration::Static {
            name,
            size,
            hex: None,
        },
        [name, size, hex] => Declaration::Static {
            name,
            size,
            hex: Some(hex),
        },
        _ => Declaration::Malformed,
    }
}

// A declaration of session bytes.
fn session_of<'a>(fields: &[&'a [u8]]) -> Declaration<'a>
    ensures { Declares result SessionWord (texts fields.now) }
{
    match fields {
        [name, size] => Declaration::Session { name, size },
        _ => Declaration::Malformed,
    }
}

// A declaration of public bytes.
fn public_of<'a>(fields: &[&'a [u8]]) -> Declaration<'a>
    ensures { Declares result PublicWord (texts fields.now) }
{
    match fields {
        [name, at, size] => Declaration::Public { name, at, size },
        _ => Declaration::Malformed,
    }
}

// A declaration of a number.
fn const_of<'a>(fields: &[&'a [u8]]) -> Declaration<'a>
    ensures { Declares result ConstWord (texts fields.now) }
{
    match fields {
        [name, number] => Declaration::Const { name, number },
        _ => Declaration::Malformed,
    }
}

// A declaration by its word and the fields after it.
fn worded<'a>(word: DeclarationWord, fields: &[&'a [u8]]) -> Declaration<'a>
    ensures { Declares result (word_of word) (texts fields.now) }
{
    match word {
        DeclarationWord::Static => static_of(fields),
        DeclarationWord::Session => session_of(fields),
        DeclarationWord::Public => public_of(fields),
        DeclarationWord::Const => const_of(fields),
    }
}

// The declaration of a line whose first word has these fields after it.
#[tactic(auto, using(crate::proofs::DeclarationLemmas::labelled_none, crate::proofs::DeclarationLemmas::unworded_none, crate::proofs::DeclarationLemmas::worded_some))]
fn after_word<'a>(word: &[u8], fields: &[&'a [u8]]) -> Option<Declaration<'a>>
    ensures { DeclaresMaybe result (declaration_of (word.now ∷ texts fields.now)) }
{
    if is_labelled(fields) {
        return None;
    }
    match word_named(word) {
        Some(word) => Some(worded(word, fields)),
        None => None,
    }
}

// The declaration of a line with these fields.
fn declaration_of<'a>(fields: &[&'a [u8]]) -> Option<Declaration<'a>>
    ensures { DeclaresMaybe result (declaration_of (texts fields.now)) }
{
    match fields {
        [] => None,
        [word, rest @ ..] => after_word(word, rest),
    }
}

/// Returns the declaration of a line, which a comment may follow, or `None` if it is none. A first word that a colon
/// follows is a label.
#[tactic(auto, using(crate::proofs::DeclarationLemmas::declares_five))]
pub fn declaration_in(line: &[u8]) -> Option<Declaration<'_>>
    ensures { DeclaresMaybe result (declaration_in line.now) }
{
    declaration_of(fields(without_comment(line)).as_slice())
}

// Whether a declaration is a STATIC line that gives bytes.
fn gives_bytes(declaration: &Declaration<'_>) -> bool
    ensures { result ≡ gives_by declaration.now }
{
    match *declaration {
        Declaration::Static { hex, .. } => hex.is_some(),
        _ => false,
    }
}

/// Returns whether a line is a STATIC line that gives bytes.
#[tactic(auto, using(crate::proofs::DeclarationLemmas::gives_some, crate::proofs::DeclarationLemmas::gives_none))]
pub fn gives(line: &[u8]) -> bool
    ensures { result ≡ gives (declaration_in line.now) }
{
    match declaration_in(line) {
        Some(declaration) => gives_bytes(&declaration),
        None => false,
    }
}
