// The sentences of the causes: what was expected where a cause is written, and what to do. docs/CAUSES.md has the same
// sentences, which tools/causes takes from here.

use crate::kind::Kind;
use crate::warning::Warning;
use mc_asm::AsmCause;
use mc_check::CheckCause;
use mc_deck::DeckCause;
use mc_deck::model_card::UnitRefusal;

/// What was expected, and what to do.
#[derive(Clone, Copy, Debug, PartialEq, Eq)]
pub struct Sentence {
    pub expected: &'static str,
    pub advice: &'static str,
}

// A sentence.
fn say(expected: &'static str, advice: &'static str) -> Sentence {
    Sentence { expected, advice }
}

// Of a unit that is refused.
fn unit_sentence(cause: UnitRefusal) -> Sentence {
    match cause {
        UnitRefusal::Short => say(
            "all fields of a load unit, each after its length",
            "look for a length that is too great, or a field that is missing",
        ),
        UnitRefusal::NoCode => say(
            "at least one instruction",
            "write the code, or take the section away",
        ),
        UnitRefusal::TooLarge => say(
            "at most 8192 bytes of code, 4096 of data, and 128 of DIR and FCI each",
            "divide the application, or look for a length that is misplaced by a byte",
        ),
        UnitRefusal::Signed => say(
            "a signature of no bytes",
            "write its length as 0000; this card checks no signatures",
        ),
        UnitRefusal::Enciphered => say(
            "a key unit of no bytes",
            "write its length as 0000; this card deciphers no code",
        ),
        UnitRefusal::Tail => say(
            "nothing after the key unit",
            "take the bytes off, or look for a length that is too small",
        ),
        UnitRefusal::NoAid => say(
            "a name in the DIR record",
            "begin the record as 61 07 4F 05 A000000001 does",
        ),
        UnitRefusal::AidLength => say(
            "a name of 5 to 16 bytes in the DIR record",
            "give the application an AID of 5 to 16 bytes",
        ),
    }
}

// Of a line that the assembler refuses.
fn asm_sentence(cause: AsmCause) -> Sentence {
    match cause {
        AsmCause::UnknownWord => say(
            "an instruction in upper case, or a label of letters, digits and underscores before a colon",
            "look the word up in docs/MACHINE.md, or write a colon after the label",
        ),
        AsmCause::BadOperands => say(
            "the operands that the word takes, an address as REG[offset]",
            "look the word up in docs/MACHINE.md; a name has to be declared above",
        ),
        AsmCause::BadNumber => say(
            "a number, decimal or 0x and 1 to 4 digits",
            "add the length or the comma that is missing, or declare the name above",
        ),
        AsmCause::OutOfRange => say(
            "a number that fits: bytes to 255, words to 65535, offsets -32768 to 32767",
            "write a number in the range, or the word for a larger one",
        ),
        AsmCause::LabelTwice => say(
            "a label that no line above has",
            "give one of the two another name",
        ),
        AsmCause::TooLong => say(
            "at most 8192 bytes of code",
            "share routines, or divide the application and delegate",
        ),
        AsmCause::UnknownLabel => say(
            "a label of this section",
            "write the label before its line with a colon; case counts",
        ),
        AsmCause::FarBranch => say(
            "a label at most 128 bytes before or 127 after the next instruction",
            "write JUMP in place of BRANCH",
        ),
    }
}

// Of a statement that is refused.
fn statement_sentence(cause: DeckCause) -> Sentence {
    match cause {
        DeckCause::TooManyLines => say("at most 20000 lines", "divide the draft"),
        DeckCause::BadLine => say(
            "a statement in lower case with as many fields as it takes, and a comment on a line of its own",
            "look the statement up in docs/DECKS.md",
        ),
        DeckCause::BadName => say(
            "a name of 1 to 32 letters, digits and underscores",
            "write the name without other characters",
        ),
        DeckCause::BadHex => say(
            "bytes as pairs of hexadecimal digits, or the name of a section above",
            "count the digits, or mend the name",
        ),
        DeckCause::BadNumber => say(
            "a number of decimal digits alone",
            "write it in decimal, without sign and without 0x",
        ),
        DeckCause::OutOfRange => say(
            "a number, or a number of bytes, that the statement takes",
            "look the statement up in docs/DECKS.md: an AID has 5 to 16 bytes, FILL 8, writes count from 1",
        ),
        DeckCause::NameTwice => say(
            "a name that no unit or section above has",
            "give one of the two another name",
        ),
        DeckCause::UnknownName => say(
            "the name of a unit or section above",
            "move the section above this line, or mend the name",
        ),
        DeckCause::LateLine => say(
            "this statement above the first power line",
            "move it up; a second blank card is a second deck",
        ),
        DeckCause::NoEnd => say(
            "a line `end` alone below this line",
            "end the section; its `end` has no comment",
        ),
        DeckCause::Unit(unit) => unit_sentence(unit),
        DeckCause::Asm(asm) => asm_sentence(asm),
    }
}

// Of a declaration that is refused.
fn declaration_sentence(cause: DeckCause) -> Sentence {
    match cause {
        DeckCause::BadLine => say(
            "as many fields as the declaration takes, and STATIC lines or DATA lines in one section, not both",
            "look the declaration up in docs/DESK.md",
        ),
        DeckCause::BadName => say(
            "a name of letters, digits and underscores, no digit first, that is no register and no condition",
            "give it another name",
        ),
        DeckCause::BadHex => say(
            "bytes as pairs of hexadecimal digits",
            "count the digits, and write no 0x",
        ),
        DeckCause::BadNumber => say(
            "a number of decimal digits; of CONST also 0x and 1 to 4 digits, or a minus sign",
            "write the number",
        ),
        DeckCause::OutOfRange => say(
            "a size of at least 1, at most 4096 static, 256 session and 1041 public bytes, as many bytes as the size says, and -32768 to 65535",
            "write a size or number in the range",
        ),
        DeckCause::NameTwice => say(
            "a name that the section and the header of the command do not have",
            "give one of the two another name",
        ),
        other => statement_sentence(other),
    }
}

// Of a rule that is refused.
fn rule_sentence(cause: DeckCause) -> Sentence {
    match cause {
        DeckCause::BadLine => say("a closing brace after the name", "write the brace"),
        DeckCause::UnknownName => say(
            "a name that the section of the last `#@ app` line above declares, or one with a plus sign or a point and size",
            "name the section in an `#@ app` line above, or mend the name",
        ),
        DeckCause::OutOfRange => say(
            "a place among the bytes of the name, and at most 255 bytes in round brackets",
            "write a number after the plus sign that is less than the size of the name",
        ),
        other => statement_sentence(other),
    }
}

// Of bytes that are refused.
fn data_sentence(cause: DeckCause) -> Sentence {
    match cause {
        DeckCause::BadLine => say(
            "DATA and one field of bytes without a comment, in a section without STATIC lines",
            "write the bytes without blanks, and the comment on a line of its own",
        ),
        other => statement_sentence(other),
    }
}

// Of an instruction that is refused.
fn instruction_sentence(cause: DeckCause) -> Sentence {
    match cause {
        DeckCause::OutOfRange => say(
            "a place among the bytes of the name",
            "write a number after the plus sign that is less than the size of the name",
        ),
        other => statement_sentence(other),
    }
}

/// Returns the sentence of a refused line.
pub fn refusal_sentence(kind: Kind, cause: DeckCause) -> Sentence {
    match kind {
        Kind::Declaration => declaration_sentence(cause),
        Kind::Data => data_sentence(cause),
        Kind::Instruction => instruction_sentence(cause),
        Kind::Rule => rule_sentence(cause),
        Kind::Statement | Kind::App | Kind::End => statement_sentence(cause),
    }
}

/// Returns the sentence of a verdict that refuses code.
pub fn verdict_sentence(cause: CheckCause) -> Sentence {
    match cause {
        CheckCause::Undefined => say(
            "an instruction",
            "look for bytes among the code, or for a jump into the middle of an instruction",
        ),
        CheckCause::Past => say(
            "a whole instruction before the end of the code",
            "look for bytes among the code, or for a jump into the middle of an instruction",
        ),
        CheckCause::Indirect => say(
            "an address in the instruction",
            "compare, and jump to labels",
        ),
        CheckCause::Returns => say(
            "a return in a routine, and the same counts in all returns of one routine",
            "end the main code by an EXIT, and a routine by one kind of return",
        ),
        CheckCause::Under => say(
            "as many bytes on the stack as the instruction takes",
            "push them first, on each way that leads here",
        ),
        CheckCause::Target => say(
            "an instruction of this code at the place where the code goes on",
            "write an EXIT after the last instruction, and jump to labels",
        ),
        CheckCause::Recursive => say("a routine that does not reach itself", "make a loop of it"),
        CheckCause::Heights => say(
            "one routine and one height of the stack on all ways that lead here",
            "take the bytes off before the jump, by POPN; end the main code before a routine by an EXIT",
        ),
        CheckCause::Wild => say(
            "writes in code with calls at an address that the instruction names",
            "write by REG[offset], or take the calls out",
        ),
        CheckCause::Deep => say(
            "at most 512 session bytes and bytes of the stack together",
            "keep less on the stack, or declare fewer session bytes",
        ),
    }
}

/// Returns the sentence of a warning.
pub fn warning_sentence(warning: Warning) -> Sentence {
    match warning {
        Warning::Abends => say(
            "a length of at least 1, for INCN, DECN, ADDN and SUBN at most 16, or a primitive that there is",
            "mend the length: the instruction abends with 06 whenever it runs",
        ),
        Warning::WordSize => say(
            "a name of two bytes: the instruction takes a word",
            "write the word for one byte, the one with a length, or the place with a plus sign",
        ),
        Warning::UnusedName => say(
            "an instruction or a rule that has the name",
            "take the declaration away if nothing is to be read or written there",
        ),
        Warning::UnusedLabel => say(
            "a BRANCH, JUMP or CALL to the label",
            "take the label away, or go there",
        ),
        Warning::Unreached => say(
            "a way from the first instruction to this one",
            "take the code away, or give it a label and go there",
        ),
    }
}
