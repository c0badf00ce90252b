// Worked examples of lines, written by hand.
ghost use Rattle.std.specs.Prelude.{◌≡◌, codes, false, true, negsuc, Some, None};
ghost use Rattle.model_text.specs.model_machine.specs.declared.instruction.Ins.TheVariants.{Exit, Cmpb, Jump};
ghost use Rattle.model_text.specs.model_machine.specs.declared.machine.Abend.TheVariants.{A01};
ghost use Rattle.model_text.specs.model_machine.specs.Chain.{Abended};
ghost use Rattle.model_text.specs.TurnText.{turn_line};

/// The lines of four turns, one of which is a fetch that found no instruction.
pub fn lines()
    ensures exit { turn_line (record {
      depth = 1;
      at = 0x48;
      ins = Some Exit;
      dt = 0x8000;
      c = false;
      z = false;
      end = None;
      wrote = None;
    }) ≡ codes "> 1 0048 EXIT 8000 00\n" }
    ensures compare { turn_line (record {
      depth = 1;
      at = 0;
      ins = Some (Cmpb 7 (negsuc 11) 1);
      dt = 0x8001;
      c = false;
      z = true;
      end = None;
      wrote = None;
    }) ≡ codes "> 1 0000 CMPB PT[-12],1 8001 01\n" }
    ensures jump { turn_line (record {
      depth = 3;
      at = 0x1F04;
      ins = Some (Jump 6 0x1FAC);
      dt = 0x81FF;
      c = true;
      z = false;
      end = None;
      wrote = None;
    }) ≡ codes "> 3 1F04 JUMP NE,0x1FAC 81FF 10\n" }
    ensures none { turn_line (record {
      depth = 2;
      at = 0x00A0;
      ins = None;
      dt = 0x8010;
      c = true;
      z = true;
      end = Some (Abended A01);
      wrote = None;
    }) ≡ codes "> 2 00A0 ? 8010 11\n" }
{}
