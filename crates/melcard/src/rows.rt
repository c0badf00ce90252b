// Worked inputs and their verdicts.
ghost use Rattle.std.specs.Prelude.{◌≡◌, [], codes, None, Some};
ghost use Rattle.mc_text.specs.model_text.specs.declared.checker.CheckCause.TheVariants.{Deep};
ghost use Rattle.mc_check.specs.declared.verdict.Verdict.TheVariants.{Accept, Refuse};
ghost use Rattle.melcard.specs.declared.job.Form.TheVariants as form;
ghost use Rattle.melcard.specs.declared.job.Job.TheVariants as job;
ghost use Rattle.melcard.specs.declared.job.Reporting.TheVariants.{Trace, Transcript};
ghost use Rattle.melcard.specs.Jobs.{generated_number, job_named, job_numbered};
ghost use Rattle.melcard.specs.Verdicts.{Plays, Refusal, Whole};
ghost use Rattle.melcard.specs.Computed.{checked_line, code_verdict, deck_verdict, listing_verdict};

/// The words of the jobs, and words that select none.
pub fn words_of_jobs()
    ensures play { job_named (codes "play") ≡ Some (job.Play Transcript) }
    ensures trace { job_named (codes "trace") ≡ Some (job.Play Trace) }
    ensures asm { job_named (codes "asm") ≡ Some (job.Write form.Code) }
    ensures list { job_named (codes "list") ≡ Some (job.Write form.Listing) }
    ensures check { job_named (codes "check") ≡ Some (job.Write form.Verdicts) }
    ensures generated { job_numbered (codes "gen") (codes "1") ≡ Some (job.Generate 1) }
    ensures alone { job_named (codes "gen") ≡ None }
    ensures upper { job_named (codes "Play") ≡ None }
    ensures twice { job_numbered (codes "play") (codes "1") ≡ None }
{}

/// The numbers of generated decks: at most ten digits, and at most 2,147,483,647.
pub fn numbers_of_decks()
    ensures most { generated_number (codes "2147483647") ≡ Some 2147483647 }
    ensures zeros { generated_number (codes "0000000001") ≡ Some 1 }
    ensures large { generated_number (codes "2147483648") ≡ None }
    ensures long { generated_number (codes "00000000001") ≡ None }
    ensures empty { generated_number [] ≡ None }
    ensures sign { generated_number (codes "-1") ≡ None }
{}

/// The lines of two verdicts of the stack checker.
#[tactic(auto, unfolding(crate::specs::Computed::checked_line))]
pub fn lines_of_verdicts()
    ensures accepted { checked_line 4 (Accept 2) ≡ codes "4 accept 2\n" }
    ensures refused { checked_line 12 (Refuse 130 Deep) ≡ codes "12 refuse 130 Deep\n" }
{}

/// The first line that is not accepted is refused by its number, and skipped lines count.
#[tactic(auto, unfolding(crate::specs::Computed::deck_verdict))]
pub fn refused_deck()
    ensures { deck_verdict (codes "format\n\n# reboot\nreboot\npower\n") ≡ Refusal (codes "line 4 BadLine\n") }
{}

/// An empty deck has no line to play, an empty assembly text gives a line without a digit, and code without a
/// byte gives an empty text.
#[tactic(auto, unfolding(crate::specs::Computed::deck_verdict, crate::specs::Computed::code_verdict, crate::specs::Computed::listing_verdict))]
pub fn empty()
    ensures deck { deck_verdict [] ≡ Plays Transcript [] }
    ensures text { code_verdict [] ≡ Whole (codes "\n") }
    ensures code { listing_verdict [] ≡ Whole [] }
{}

/// The code of a counter, and the listing of that code.
#[tactic(auto, unfolding(crate::specs::Computed::code_verdict, crate::specs::Computed::listing_verdict))]
pub fn counter_code()
    ensures code { code_verdict (codes "; one more\r\nINCN SB[0],2\nLOAD SB[0],2 ; both\nSTORE PB[0],2\n\nEXITLA 2")
        ≡ Whole (codes "B90200003902000046020000060002\n") }
    ensures listing { listing_verdict (codes "B902 0000\r\n39020000\n\n\t4602000006000\n2\n")
        ≡ Whole (codes "INCN SB[0],2\nLOAD SB[0],2\nSTORE PB[0],2\nEXITLA 0x0002\n") }
{}

/// The first refused line of an assembly text by itself, and, if there is none, the first unknown label.
#[tactic(auto, unfolding(crate::specs::Computed::code_verdict))]
pub fn refused_texts()
    ensures number { code_verdict (codes "BRANCH ALL,away\nPUSHB 256\nBYTES 1\n")
        ≡ Refusal (codes "line 2 OutOfRange\n") }
    ensures label { code_verdict (codes "here: NOP\nBRANCH ALL,away\n") ≡ Refusal (codes "line 2 UnknownLabel\n") }
{}

/// A bad digit comes before an odd number of digits, that before a bad place, and places are counted in bytes.
#[tactic(auto, unfolding(crate::specs::Computed::listing_verdict))]
pub fn refused_codes()
    ensures digit { listing_verdict (codes "01\n0x\n1\n") ≡ Refusal (codes "line 2 BadHex\n") }
    ensures odd { listing_verdict (codes "FF\n1\n\n") ≡ Refusal (codes "line 3 BadHex\n") }
    ensures undefined { listing_verdict (codes "00 30 06\n") ≡ Refusal (codes "place 1 Undefined\n") }
    ensures past { listing_verdict (codes "00 00 06 00\n") ≡ Refusal (codes "place 2 Past\n") }
{}
