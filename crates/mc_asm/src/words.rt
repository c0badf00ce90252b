// The table of words: the form of the operands of each, and the instruction that they make.
ghost use Rattle.std.specs.Prelude.{◌≡◌, ◌<◌, ◌≤◌, ℕ, List, take, drop, option_map, IfSome, Some, None};
ghost use Rattle.model_text.specs.model_device.specs.Bytes.{lookup};
ghost use Rattle.model_text.specs.model_machine.specs.Code.{Shaped};
ghost use Rattle.model_text.specs.Assembly.{words};
ghost use Rattle.mc_asm.specs.Forms.{form_of, of_byte, of_word, of_words, by_place, addressed_byte, addressed_word, BareShaped, register_words, stack_words, call_words, memory_words, number_words, block_words};
ghost use Rattle.model_text.specs.model_machine.specs.declared.instruction.Ins.TheVariants.{Loada};

use model_text::model_machine::Ins;

/// The words with one byte.
#[derive(Clone, Copy)]
pub enum ByteWord {
    Pushz,
    Pushb,
    Popn,
    Reti,
    Reto,
}

/// The words with one two-byte number.
#[derive(Clone, Copy)]
pub enum WordWord {
    Setsw,
    Setla,
    Exitsw,
    Exitla,
    Pushw,
}

/// The words with two two-byte numbers.
#[derive(Clone, Copy)]
pub enum WordsWord {
    Setswla,
    Exitswla,
}

/// The words with a condition and an address of code.
#[derive(Clone, Copy)]
pub enum PlaceWord {
    Jump,
    Call,
}

/// The words with an address and a byte.
#[derive(Clone, Copy)]
pub enum AddressedByteWord {
    Load,
    Store,
    Loadi,
    Storei,
    Index,
    Setb,
    Cmpb,
    Addb,
    Subb,
    Clearn,
    Testn,
    Incn,
    Decn,
    Notn,
    Cmpn,
    Addn,
    Subn,
    Andn,
    Orn,
    Xorn,
}

/// The words with an address and a two-byte number.
#[derive(Clone, Copy)]
pub enum AddressedWordWord {
    Setw,
    Cmpw,
    Addw,
    Subw,
}

/// The form of the operands of a word.
#[derive(Clone, Copy)]
pub enum Form {
    Bare(Ins),
    OfByte(ByteWord),
    Retio,
    OfWord(WordWord),
    OfWords(WordsWord),
    RawByte,
    ByDistance,
    ByPlace(PlaceWord),
    Primitive,
    Addressed,
    AddressedByte(AddressedByteWord),
    AddressedWord(AddressedWordWord),
}

impl ByteWord {
    /// Returns the instruction with this byte.
    pub fn with(self, n: u8) -> Ins
        ensures value { result ≡ of_byte self n }
        ensures shaped { Shaped result }
    {
        match self {
            ByteWord::Pushz => Ins::Pushz { n },
            ByteWord::Pushb => Ins::Pushb { b: n },
            ByteWord::Popn => Ins::Popn { n },
            ByteWord::Reti => Ins::Reti { i: n },
            ByteWord::Reto => Ins::Reto { o: n },
        }
    }
}

impl WordWord {
    /// Returns the instruction with this two-byte number.
    pub fn with(self, word: u16) -> Ins
        ensures value { result ≡ of_word self word }
        ensures shaped { Shaped result }
    {
        match self {
            WordWord::Setsw => Ins::Setsw { sw: word },
            WordWord::Setla => Ins::Setla { la: word },
            WordWord::Exitsw => Ins::Exitsw { sw: word },
            WordWord::Exitla => Ins::Exitla { la: word },
            WordWord::Pushw => Ins::Pushw { w: word },
        }
    }
}

impl WordsWord {
    /// Returns the instruction with these two-byte numbers.
    pub fn with(self, sw: u16, la: u16) -> Ins
        ensures value { result ≡ of_words self sw la }
        ensures shaped { Shaped result }
    {
        match self {
            WordsWord::Setswla => Ins::Setswla { sw, la },
            WordsWord::Exitswla => Ins::Exitswla { sw, la },
        }
    }
}

impl PlaceWord {
    /// Returns the instruction with this condition, 0 for an address from the stack, and this address.
    pub fn with(self, cond: u8, to: u16) -> Ins
        requires condition { cond < 8 }
        requires stack { cond ≡ 0 → to ≡ 0 }
        ensures value { result ≡ by_place self cond to }
        ensures shaped { Shaped result }
    {
        match self {
            PlaceWord::Jump => Ins::Jump { cond, to },
            PlaceWord::Call => Ins::Call { cond, to },
        }
    }
}

impl AddressedByteWord {
    /// Returns the instruction with this tag, 0 for the top of the stack, this offset and this byte.
    pub fn with(self, tag: u8, off: i16, n: u8) -> Ins
        requires { Shaped (Loada tag off) }
        ensures value { result ≡ addressed_byte self tag off n }
        ensures shaped { Shaped result }
    {
        match self {
            AddressedByteWord::Load => Ins::Load { tag, off, n },
            AddressedByteWord::Store => Ins::Store { tag, off, n },
            AddressedByteWord::Loadi => Ins::Loadi { tag, off, n },
            AddressedByteWord::Storei => Ins::Storei { tag, off, n },
            AddressedByteWord::Index => Ins::Index { tag, off, size: n },
            AddressedByteWord::Setb => Ins::Setb { tag, off, b: n },
            AddressedByteWord::Cmpb => Ins::Cmpb { tag, off, b: n },
            AddressedByteWord::Addb => Ins::Addb { tag, off, b: n },
            AddressedByteWord::Subb => Ins::Subb { tag, off, b: n },
            AddressedByteWord::Clearn => Ins::Clearn { tag, off, n },
            AddressedByteWord::Testn => Ins::Testn { tag, off, n },
            AddressedByteWord::Incn => Ins::Incn { tag, off, n },
            AddressedByteWord::Decn => Ins::Decn { tag, off, n },
            AddressedByteWord::Notn => Ins::Notn { tag, off, n },
            AddressedByteWord::Cmpn => Ins::Cmpn { tag, off, n },
            AddressedByteWord::Addn => Ins::Addn { tag, off, n },
            AddressedByteWord::Subn => Ins::Subn { tag, off, n },
            AddressedByteWord::Andn => Ins::Andn { tag, off, n },
            AddressedByteWord::Orn => Ins::Orn { tag, off, n },
            AddressedByteWord::Xorn => Ins::Xorn { tag, off, n },
        }
    }
}

impl AddressedWordWord {
    /// Returns the instruction with this tag, 0 for the top of the stack, this offset and this two-byte
    /// number.
    pub fn with(self, tag: u8, off: i16, w: u16) -> Ins
        requires { Shaped (Loada tag off) }
        ensures value { result ≡ addressed_word self tag off w }
        ensures shaped { Shaped result }
    {
        match self {
            AddressedWordWord::Setw => Ins::Setw { tag, off, w },
            AddressedWordWord::Cmpw => Ins::Cmpw { tag, off, w },
            AddressedWordWord::Addw => Ins::Addw { tag, off, w },
            AddressedWordWord::Subw => Ins::Subw { tag, off, w },
        }
    }
}

// The words of registers and exits.
fn register_form(word: &[u8]) -> Option<Form>
    ensures value { option_map form_of result ≡ lookup register_words word.now }
    ensures shaped { IfSome result BareShaped }
{
    match word {
        b"NOP" => Some(Form::Bare(Ins::Nop)),
        b"SETSW" => Some(Form::OfWord(WordWord::Setsw)),
        b"SETLA" => Some(Form::OfWord(WordWord::Setla)),
        b"SETSWLA" => Some(Form::OfWords(WordsWord::Setswla)),
        b"EXIT" => Some(Form::Bare(Ins::Exit)),
        b"EXITSW" => Some(Form::OfWord(WordWord::Exitsw)),
        b"EXITLA" => Some(Form::OfWord(WordWord::Exitla)),
        b"EXITSWLA" => Some(Form::OfWords(WordsWord::Exitswla)),
        _ => None,
    }
}

// The words of branches, and of pushes and pops.
fn stack_form(word: &[u8]) -> Option<Form>
    ensures value { option_map form_of result ≡ lookup stack_words word.now }
    ensures shaped { IfSome result BareShaped }
{
    match word {
        b"BRANCH" => Some(Form::ByDistance),
        b"JUMP" => Some(Form::ByPlace(PlaceWord::Jump)),
        b"CALL" => Some(Form::ByPlace(PlaceWord::Call)),
        b"PUSHZ" => Some(Form::OfByte(ByteWord::Pushz)),
        b"PUSHB" => Some(Form::OfByte(ByteWord::Pushb)),
        b"PUSHW" => Some(Form::OfWord(WordWord::Pushw)),
        b"POPN" => Some(Form::OfByte(ByteWord::Popn)),
        b"POPB" => Some(Form::Bare(Ins::Popb)),
        b"POPW" => Some(Form::Bare(Ins::Popw)),
        _ => None,
    }
}

// The words of primitives and returns, and the raw byte.
fn call_form(word: &[u8]) -> Option<Form>
    ensures value { option_map form_of result ≡ lookup call_words word.now }
    ensures shaped { IfSome result BareShaped }
{
    match word {
        b"PRIM" => Some(Form::Primitive),
        b"RET" => Some(Form::Bare(Ins::Ret)),
        b"RETI" => Some(Form::OfByte(ByteWord::Reti)),
        b"RETO" => Some(Form::OfByte(ByteWord::Reto)),
        b"RETIO" => Some(Form::Retio),
        b"BYTE" => Some(Form::RawByte),
        _ => None,
    }
}

// The words of loads and stores.
fn memory_form(word: &[u8]) -> Option<Form>
    ensures value { option_map form_of result ≡ lookup memory_words word.now }
    ensures shaped { IfSome result BareShaped }
{
    match word {
        b"LOAD" => Some(Form::AddressedByte(AddressedByteWord::Load)),
        b"STORE" => Some(Form::AddressedByte(AddressedByteWord::Store)),
        b"LOADI" => Some(Form::AddressedByte(AddressedByteWord::Loadi)),
        b"STOREI" => Some(Form::AddressedByte(AddressedByteWord::Storei)),
        b"LOADA" => Some(Form::Addressed),
        b"INDEX" => Some(Form::AddressedByte(AddressedByteWord::Index)),
        _ => None,
    }
}

// The words on bytes and two-byte numbers.
fn number_form(word: &[u8]) -> Option<Form>
    ensures value { option_map form_of result ≡ lookup number_words word.now }
    ensures shaped { IfSome result BareShaped }
{
    match word {
        b"SETB" => Some(Form::AddressedByte(AddressedByteWord::Setb)),
        b"CMPB" => Some(Form::AddressedByte(AddressedByteWord::Cmpb)),
        b"ADDB" => Some(Form::AddressedByte(AddressedByteWord::Addb)),
        b"SUBB" => Some(Form::AddressedByte(AddressedByteWord::Subb)),
        b"SETW" => Some(Form::AddressedWord(AddressedWordWord::Setw)),
        b"CMPW" => Some(Form::AddressedWord(AddressedWordWord::Cmpw)),
        b"ADDW" => Some(Form::AddressedWord(AddressedWordWord::Addw)),
        b"SUBW" => Some(Form::AddressedWord(AddressedWordWord::Subw)),
        _ => None,
    }
}

// The words on blocks.
fn block_form(word: &[u8]) -> Option<Form>
    ensures value { option_map form_of result ≡ lookup block_words word.now }
    ensures shaped { IfSome result BareShaped }
{
    match word {
        b"CLEARN" => Some(Form::AddressedByte(AddressedByteWord::Clearn)),
        b"TESTN" => Some(Form::AddressedByte(AddressedByteWord::Testn)),
        b"INCN" => Some(Form::AddressedByte(AddressedByteWord::Incn)),
        b"DECN" => Some(Form::AddressedByte(AddressedByteWord::Decn)),
        b"NOTN" => Some(Form::AddressedByte(AddressedByteWord::Notn)),
        b"CMPN" => Some(Form::AddressedByte(AddressedByteWord::Cmpn)),
        b"ADDN" => Some(Form::AddressedByte(AddressedByteWord::Addn)),
        b"SUBN" => Some(Form::AddressedByte(AddressedByteWord::Subn)),
        b"ANDN" => Some(Form::AddressedByte(AddressedByteWord::Andn)),
        b"ORN" => Some(Form::AddressedByte(AddressedByteWord::Orn)),
        b"XORN" => Some(Form::AddressedByte(AddressedByteWord::Xorn)),
        _ => None,
    }
}

/// Returns the form of the operands of a word, or `None` if the text is no word.
#[tactic(auto, using(crate::proofs::FormLemmas::by_families))]
pub fn form_named(word: &[u8]) -> Option<Form>
    ensures value { option_map form_of result ≡ lookup words word.now }
    ensures shaped { IfSome result BareShaped }
{
    if let Some(form) = register_form(word) {
        return Some(form);
    }
    if let Some(form) = stack_form(word) {
        return Some(form);
    }
    if let Some(form) = call_form(word) {
        return Some(form);
    }
    if let Some(form) = memory_form(word) {
        return Some(form);
    }
    if let Some(form) = number_form(word) {
        return Some(form);
    }
    block_form(word)
}
