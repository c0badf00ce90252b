// Statements: a line by its word and its fields.
ghost use Rattle.std.specs.Prelude.{◌≡◌, ◌<◌, ◌+◌, ℕ, Bool, false, List, [], ◌∷◌, length, option_map, Ok, Err, IfOk, MatchResult};
ghost use Rattle.std.specs.List.{AllByRecursion};
ghost use Rattle.model_play.specs.model_device.specs.Bytes.{lookup};
ghost use Rattle.model_play.specs.model_text.specs.Text.{err_as};
ghost use Rattle.model_play.specs.model_card.specs.Units.{unit_read};
ghost use Rattle.model_play.specs.declared.deck.DeckCause.TheVariants.{Unit};
ghost use Rattle.model_play.specs.DeckGrammar.{deck_words, new_name, statement_of, Context, FormatWord, PowerWord, UnitWord, AppWord, LoadWord, SelectWord, DeleteWord, DumpWord, ApduWord, BudgetWord, CutWord, FailWord, PokeWord};
ghost use Rattle.mc_asm.specs.Items.{texts};
ghost use Rattle.mc_asm.specs.Parts.{pair_of};
ghost use Rattle.mc_deck.specs.Refused.{Faulty};
ghost use Rattle.mc_deck.specs.Lines.{owned_parts, grammar_line, GoodUnit, NumberWithin};
ghost use Rattle.mc_deck.specs.Contexts.{AreNames};
ghost use Rattle.mc_deck.specs.Statements.{first_words, keyword_of, second_words, grammar_statement, StatementFits, InContext};

use crate::bytes::Bytes;
use crate::field::{
    SHORT_DIGITS, aid_field, fill_field, hex_field, name_field, number_field, short_hex_field,
};
use crate::line::OwnedLine;
use crate::names::{Names, place_of};
use crate::refusal::Fault;
use crate::unit::{OwnedUnit, copied};
use mc_unit::read_unit;
use mc_words::Aid;
use model_play::DeckCause;
use std::alloc::Global;

/// The word of a statement.
#[derive(Clone, Copy)]
pub enum Keyword {
    Format,
    Power,
    Unit,
    App,
    Load,
    Select,
    Delete,
    Dump,
    Apdu,
    Budget,
    Cut,
    Fail,
    Poke,
}

/// A statement: a line, a unit with its name, or the first line of a section with its name and AID.
#[derive(Drop)]
pub enum Statement<'a> {
    Line(OwnedLine),
    Power,
    Unit(&'a [u8], OwnedUnit),
    Section(&'a [u8], Aid),
}

// Returns the word of a statement among the first ones of the table, or `None`.
fn first_keyword(word: &[u8]) -> Option<Keyword>
    ensures { option_map keyword_of result ≡ lookup first_words word.now }
{
    match word {
        b"format" => Some(Keyword::Format),
        b"power" => Some(Keyword::Power),
        b"unit" => Some(Keyword::Unit),
        b"app" => Some(Keyword::App),
        b"load" => Some(Keyword::Load),
        b"select" => Some(Keyword::Select),
        b"delete" => Some(Keyword::Delete),
        _ => None,
    }
}

// Returns the word of a statement among the other ones of the table, or `None`.
fn second_keyword(word: &[u8]) -> Option<Keyword>
    ensures { option_map keyword_of result ≡ lookup second_words word.now }
{
    match word {
        b"dump" => Some(Keyword::Dump),
        b"apdu" => Some(Keyword::Apdu),
        b"budget" => Some(Keyword::Budget),
        b"cut" => Some(Keyword::Cut),
        b"fail" => Some(Keyword::Fail),
        b"poke" => Some(Keyword::Poke),
        _ => None,
    }
}

/// Returns the word of a statement, or `None` if it is not one.
#[tactic(auto, using(crate::proofs::StatementLemmas::by_first, crate::proofs::StatementLemmas::by_second))]
pub fn keyword_named(word: &[u8]) -> Option<Keyword>
    ensures { option_map keyword_of result ≡ lookup deck_words word.now }
{
    if let Some(keyword) = first_keyword(word) {
        return Some(keyword);
    }
    second_keyword(word)
}

// Reads `format`, which is valid only before the first `power`.
#[tactic(auto, unfolding(model_play::specs::DeckGrammar::statement_of))]
fn format_statement<'a>(powered: bool, fields: &[&'a [u8]]) -> Result<Statement<'a>, Fault>
    ensures value { (us : List OwnedUnit) (c : Context) (n : ℕ) → powered ≡ c.powered
        → MatchResult result (λ s. statement_of c n FormatWord (texts fields.now) ≡ Ok (grammar_statement us c n s))
        (λ e. Faulty (statement_of c n FormatWord (texts fields.now)) e) }
    ensures fits { (m : ℕ) → IfOk result (StatementFits m powered) }
{
    match fields {
        [] => {
            if powered {
                return Err(Fault::Cause(DeckCause::LateLine));
            }
            Ok(Statement::Line(OwnedLine::Format))
        }
        _ => Err(Fault::Cause(DeckCause::BadLine)),
    }
}

// Reads `power`.
#[tactic(auto, unfolding(model_play::specs::DeckGrammar::statement_of))]
fn power_statement<'a>(powered: bool, fields: &[&'a [u8]]) -> Result<Statement<'a>, Fault>
    ensures value { (us : List OwnedUnit) (c : Context) (n : ℕ)
        → MatchResult result (λ s. statement_of c n PowerWord (texts fields.now) ≡ Ok (grammar_statement us c n s))
        (λ e. Faulty (statement_of c n PowerWord (texts fields.now)) e) }
    ensures fits { (m : ℕ) → IfOk result (StatementFits m powered) }
{
    match fields {
        [] => Ok(Statement::Power),
        _ => Err(Fault::Cause(DeckCause::BadLine)),
    }
}

// Reads a unit in hexadecimal, with its name.
#[tactic(auto, using(crate::proofs::StatementLemmas::unit_stated))]
fn unit_line<'a>(
    alloc: Global,
    names: &Names<'a>,
    name: &'a [u8],
    hex: &[u8],
) -> Result<Statement<'a>, Fault>
    ensures value { (us : List OwnedUnit) (c : Context) (n : ℕ)
        → AreNames names.now.places names.now.units.items c.units
        → MatchResult result (λ s. statement_of c n UnitWord (name.now ∷ hex.now ∷ [])
        ≡ Ok (grammar_statement us c n s))
        (λ e. Faulty (statement_of c n UnitWord (name.now ∷ hex.now ∷ [])) e) }
    ensures fits { (m : ℕ) (powered : Bool) → IfOk result (StatementFits m powered) }
{
    let name = name_field(name)?;
    let bytes = hex_field(alloc, hex)?;
    new_name(names, name)?;
    let unit = unit_of(alloc, bytes.as_slice())?;
    Ok(Statement::Unit(name, unit))
}

// Returns the two fields of a statement, or `None` if it has another number of them.
fn two<'a>(fields: &[&'a [u8]]) -> Option<(&'a [u8], &'a [u8])>
    ensures { option_map (λ p. (p.0.now, p.1.now)) result ≡ pair_of (texts fields.now) }
{
    match fields {
        [first, second] => Some((first, second)),
        _ => None,
    }
}

// Reads `unit NAME HEX`.
#[tactic(auto, using(crate::proofs::StatementLemmas::unit_some, crate::proofs::StatementLemmas::unit_none))]
fn unit_statement<'a>(
    alloc: Global,
    names: &Names<'a>,
    fields: &[&'a [u8]],
) -> Result<Statement<'a>, Fault>
    ensures value { (us : List OwnedUnit) (c : Context) (n : ℕ)
        → AreNames names.now.places names.now.units.items c.units
        → MatchResult result (λ s. statement_of c n UnitWord (texts fields.now) ≡ Ok (grammar_statement us c n s))
        (λ e. Faulty (statement_of c n UnitWord (texts fields.now)) e) }
    ensures fits { (m : ℕ) (powered : Bool) → IfOk result (StatementFits m powered) }
{
    match two(fields) {
        Some((name, hex)) => unit_line(alloc, names, name, hex),
        None => Err(Fault::Cause(DeckCause::BadLine)),
    }
}

// Returns the unit that the bytes are.
fn unit_of(alloc: Global, bytes: &[u8]) -> Result<OwnedUnit, Fault>
    ensures value { MatchResult result (λ u. err_as Unit (unit_read bytes.now) ≡ Ok (owned_parts u))
        (λ e. Faulty (err_as Unit (unit_read bytes.now)) e) }
    ensures good { IfOk result (λ u. GoodUnit (owned_parts u)) }
{
    match read_unit(bytes) {
        Ok(unit) => Ok(copied(alloc, &unit)?),
        Err(refusal) => Err(Fault::Cause(DeckCause::Unit(refusal))),
    }
}

// Accepts a name that no unit has.
fn new_name<'a>(names: &Names<'a>, name: &'a [u8]) -> Result<(), DeckCause>
    ensures { (c : Context) → AreNames names.now.places names.now.units.items c.units
        → MatchResult result (λ _. new_name c name.now ≡ Ok name.now) (λ e. new_name c name.now ≡ Err e) }
{
    if place_of(names, name).is_some() {
        return Err(DeckCause::NameTwice);
    }
    Ok(())
}

// Reads `app NAME AID`.
#[tactic(auto, unfolding(model_play::specs::DeckGrammar::statement_of))]
fn app_statement<'a>(
    alloc: Global,
    names: &Names<'a>,
    fields: &[&'a [u8]],
) -> Result<Statement<'a>, Fault>
    ensures value { (us : List OwnedUnit) (c : Context) (n : ℕ)
        → AreNames names.now.places names.now.units.items c.units
        → MatchResult result (λ s. statement_of c n AppWord (texts fields.now) ≡ Ok (grammar_statement us c n s))
        (λ e. Faulty (statement_of c n AppWord (texts fields.now)) e) }
    ensures fits { (m : ℕ) (powered : Bool) → IfOk result (StatementFits m powered) }
{
    let [name, aid] = fields else {
        return Err(Fault::Cause(DeckCause::BadLine));
    };
    let name = name_field(name)?;
    let aid = aid_field(alloc, aid)?;
    new_name(names, name)?;
    Ok(Statement::Section(name, aid))
}

// Reads `load NAME STATIC SESSION`.
#[tactic(auto, unfolding(model_play::specs::DeckGrammar::statement_of))]
fn load_statement<'a>(names: &Names<'a>, fields: &[&'a [u8]]) -> Result<Statement<'a>, Fault>
    ensures value { (c : Context) (n : ℕ) → AreNames names.now.places names.now.units.items c.units
        → MatchResult result
        (λ s. statement_of c n LoadWord (texts fields.now) ≡ Ok (grammar_statement names.now.units.items c n s))
        (λ e. Faulty (statement_of c n LoadWord (texts fields.now)) e) }
    ensures fits { (c : Context) (powered : Bool) → AreNames names.now.places names.now.units.items c.units
        → IfOk result (StatementFits (length names.now.units.items) powered) }
{
    let [name, fixed, session] = fields else {
        return Err(Fault::Cause(DeckCause::BadLine));
    };
    let name = name_field(name)?;
    let fixed = number_field(fixed, 0, 65535)? as u16;
    let session = number_field(session, 0, 65535)? as u16;
    match place_of(names, name) {
        Some(unit) => Ok(Statement::Line(OwnedLine::Load {
            unit,
            fixed,
            session,
        })),
        None => Err(Fault::Cause(DeckCause::UnknownName)),
    }
}

// Reads `select AID`.
#[tactic(auto, unfolding(model_play::specs::DeckGrammar::statement_of))]
fn select_statement<'a>(alloc: Global, fields: &[&'a [u8]]) -> Result<Statement<'a>, Fault>
    ensures value { (us : List OwnedUnit) (c : Context) (n : ℕ)
        → MatchResult result (λ s. statement_of c n SelectWord (texts fields.now) ≡ Ok (grammar_statement us c n s))
        (λ e. Faulty (statement_of c n SelectWord (texts fields.now)) e) }
    ensures fits { (m : ℕ) (powered : Bool) → IfOk result (StatementFits m powered) }
{
    match fields {
        [aid] => Ok(Statement::Line(OwnedLine::Select(aid_field(alloc, aid)?))),
        _ => Err(Fault::Cause(DeckCause::BadLine)),
    }
}

// Reads `delete AID`.
#[tactic(auto, unfolding(model_play::specs::DeckGrammar::statement_of))]
fn delete_statement<'a>(alloc: Global, fields: &[&'a [u8]]) -> Result<Statement<'a>, Fault>
    ensures value { (us : List OwnedUnit) (c : Context) (n : ℕ)
        → MatchResult result (λ s. statement_of c n DeleteWord (texts fields.now) ≡ Ok (grammar_statement us c n s))
        (λ e. Faulty (statement_of c n DeleteWord (texts fields.now)) e) }
    ensures fits { (m : ℕ) (powered : Bool) → IfOk result (StatementFits m powered) }
{
    match fields {
        [aid] => Ok(Statement::Line(OwnedLine::Delete(aid_field(alloc, aid)?))),
        _ => Err(Fault::Cause(DeckCause::BadLine)),
    }
}

// Reads `dump AID`.
#[tactic(auto, unfolding(model_play::specs::DeckGrammar::statement_of))]
fn dump_statement<'a>(alloc: Global, fields: &[&'a [u8]]) -> Result<Statement<'a>, Fault>
    ensures value { (us : List OwnedUnit) (c : Context) (n : ℕ)
        → MatchResult result (λ s. statement_of c n DumpWord (texts fields.now) ≡ Ok (grammar_statement us c n s))
        (λ e. Faulty (statement_of c n DumpWord (texts fields.now)) e) }
    ensures fits { (m : ℕ) (powered : Bool) → IfOk result (StatementFits m powered) }
{
    match fields {
        [aid] => Ok(Statement::Line(OwnedLine::Dump(aid_field(alloc, aid)?))),
        _ => Err(Fault::Cause(DeckCause::BadLine)),
    }
}

// Reads `apdu HEX`. A field has a digit, so there is a byte.
#[tactic(auto, unfolding(model_play::specs::DeckGrammar::statement_of))]
fn apdu_statement<'a>(alloc: Global, fields: &[&'a [u8]]) -> Result<Statement<'a>, Fault>
    requires { AllByRecursion (λ t. 0 < length t.now) fields.now }
    ensures value { (us : List OwnedUnit) (c : Context) (n : ℕ)
        → MatchResult result (λ s. statement_of c n ApduWord (texts fields.now) ≡ Ok (grammar_statement us c n s))
        (λ e. Faulty (statement_of c n ApduWord (texts fields.now)) e) }
    ensures fits { (m : ℕ) (powered : Bool) → IfOk result (StatementFits m powered) }
{
    match fields {
        [hex] if hex.len() <= SHORT_DIGITS => {
            Ok(Statement::Line(OwnedLine::Short(short_hex_field(hex)?)))
        }
        [hex] => Ok(Statement::Line(OwnedLine::Apdu(Bytes::from_vec(hex_field(alloc, hex)?)))),
        _ => Err(Fault::Cause(DeckCause::BadLine)),
    }
}

// Reads `budget N`.
#[tactic(auto, unfolding(model_play::specs::DeckGrammar::statement_of))]
fn budget_statement<'a>(fields: &[&'a [u8]]) -> Result<Statement<'a>, Fault>
    ensures value { (us : List OwnedUnit) (c : Context) (n : ℕ)
        → MatchResult result (λ s. statement_of c n BudgetWord (texts fields.now) ≡ Ok (grammar_statement us c n s))
        (λ e. Faulty (statement_of c n BudgetWord (texts fields.now)) e) }
    ensures fits { (m : ℕ) (powered : Bool) → IfOk result (StatementFits m powered) }
{
    match fields {
        [count] => Ok(Statement::Line(OwnedLine::Budget(number_field(count, 1, 65536)?))),
        _ => Err(Fault::Cause(DeckCause::BadLine)),
    }
}

// Reads `cut K FILL`.
#[tactic(auto, unfolding(model_play::specs::DeckGrammar::statement_of))]
fn cut_statement<'a>(alloc: Global, fields: &[&'a [u8]]) -> Result<Statement<'a>, Fault>
    ensures value { (us : List OwnedUnit) (c : Context) (n : ℕ)
        → MatchResult result (λ s. statement_of c n CutWord (texts fields.now) ≡ Ok (grammar_statement us c n s))
        (λ e. Faulty (statement_of c n CutWord (texts fields.now)) e) }
    ensures fits { (m : ℕ) (powered : Bool) → IfOk result (StatementFits m powered) }
{
    match fields {
        [k, fill] => {
            let k = number_field(k, 1, u32::MAX)?;
            let fill = fill_field(alloc, fill)?;
            Ok(Statement::Line(OwnedLine::Cut { k, fill }))
        }
        _ => Err(Fault::Cause(DeckCause::BadLine)),
    }
}

// Reads `fail K`.
#[tactic(auto, unfolding(model_play::specs::DeckGrammar::statement_of))]
fn fail_statement<'a>(fields: &[&'a [u8]]) -> Result<Statement<'a>, Fault>
    ensures value { (us : List OwnedUnit) (c : Context) (n : ℕ)
        → MatchResult result (λ s. statement_of c n FailWord (texts fields.now) ≡ Ok (grammar_statement us c n s))
        (λ e. Faulty (statement_of c n FailWord (texts fields.now)) e) }
    ensures fits { (m : ℕ) (powered : Bool) → IfOk result (StatementFits m powered) }
{
    match fields {
        [k] => Ok(Statement::Line(OwnedLine::Fail(number_field(k, 1, u32::MAX)?))),
        _ => Err(Fault::Cause(DeckCause::BadLine)),
    }
}

// Reads `poke AT FILL`, which is valid only before the first `power`.
#[tactic(auto, unfolding(model_play::specs::DeckGrammar::statement_of))]
fn poke_statement<'a>(
    alloc: Global,
    powered: bool,
    fields: &[&'a [u8]],
) -> Result<Statement<'a>, Fault>
    ensures value { (us : List OwnedUnit) (c : Context) (n : ℕ) → powered ≡ c.powered
        → MatchResult result (λ s. statement_of c n PokeWord (texts fields.now) ≡ Ok (grammar_statement us c n s))
        (λ e. Faulty (statement_of c n PokeWord (texts fields.now)) e) }
    ensures fits { (m : ℕ) → IfOk result (StatementFits m powered) }
{
    match fields {
        [at, fill] => {
            let at = number_field(at, 0, 16383)? as u16;
            let fill = fill_field(alloc, fill)?;
            if powered {
                return Err(Fault::Cause(DeckCause::LateLine));
            }
            Ok(Statement::Line(OwnedLine::Poke { at, fill }))
        }
        _ => Err(Fault::Cause(DeckCause::BadLine)),
    }
}

/// Reads a statement by its word and the fields after it, with the units that were named before, and whether
/// a `power` came.
pub fn read_statement<'a>(
    alloc: Global,
    names: &Names<'a>,
    powered: bool,
    keyword: Keyword,
    fields: &[&'a [u8]],
) -> Result<Statement<'a>, Fault>
    requires { AllByRecursion (λ t. 0 < length t.now) fields.now }
    ensures value { (c : Context) (n : ℕ) → InContext names.now powered c
        → MatchResult result
        (λ s. statement_of c n (keyword_of keyword) (texts fields.now)
        ≡ Ok (grammar_statement names.now.units.items c n s))
        (λ e. Faulty (statement_of c n (keyword_of keyword) (texts fields.now)) e) }
    ensures fits { (c : Context) → InContext names.now powered c
        → IfOk result (StatementFits (length names.now.units.items) powered) }
{
    match keyword {
        Keyword::Format => format_statement(powered, fields),
        Keyword::Power => power_statement(powered, fields),
        Keyword::Unit => unit_statement(alloc, names, fields),
        Keyword::App => app_statement(alloc, names, fields),
        Keyword::Load => load_statement(names, fields),
        Keyword::Select => select_statement(alloc, fields),
        Keyword::Delete => delete_statement(alloc, fields),
        Keyword::Dump => dump_statement(alloc, fields),
        Keyword::Apdu => apdu_statement(alloc, fields),
        Keyword::Budget => budget_statement(fields),
        Keyword::Cut => cut_statement(alloc, fields),
        Keyword::Fail => fail_statement(fields),
        Keyword::Poke => poke_statement(alloc, powered, fields),
    }
}
