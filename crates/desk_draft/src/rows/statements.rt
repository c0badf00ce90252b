#![tactic(auto, unfolding(crate::specs::Computed::deck))]

ghost use Rattle.std.specs.Prelude.{◌≡◌, ◌++◌, codes, Ok};
ghost use Rattle.desk_draft.specs.Computed.{deck};

/// A `load` of a section's name has the sums of its lines, session bytes apart.
pub fn loads()
    ensures static_bytes { deck (codes "app a A000000100\nSTATIC x 3\nSESSION y 5\nSTATIC z 4 00000000\nend\n" ++
        codes "load a\n")
        ≡ Ok (codes "app a A000000100\nDATA 000000\n\nDATA 00000000\nend\nload a 7 5\n") }
    ensures data_bytes { deck (codes "app a A000000100\nDATA 0001\nNOP\nDATA 02\nend\nload a\n")
        ≡ Ok (codes "app a A000000100\nDATA 0001\nNOP\nDATA 02\nend\nload a 3 0\n") }
    ensures none { deck (codes "app a A000000100\nNOP\nend\nload a\n")
        ≡ Ok (codes "app a A000000100\nNOP\nend\nload a 0 0\n") }
    ensures each { deck (codes "app a A000000100\nSTATIC x 3\nend\napp b A000000101\nSTATIC x 4\nend\nload b\n" ++
        codes "load a\n")
        ≡ Ok (codes "app a A000000100\n\nend\napp b A000000101\n\nend\nload b 4 0\nload a 3 0\n") }
    ensures as_they_are { deck (codes "app a A000000100\nSTATIC x 3\nend\nload a 10 0\nload a 10\nload\n")
        ≡ Ok (codes "app a A000000100\n\nend\nload a 10 0\nload a 10\nload\n") }
    ensures blanks { deck (codes "app a A000000100\nend\n\t load \t a  \n")
        ≡ Ok (codes "app a A000000100\nend\n\t load \t a 0 0  \n") }
{}

/// A section's name stands for its AID as it was written; what is an AID already stays, and so does what is no name.
pub fn names_of_sections()
    ensures each { deck (codes "app a a00000010B\nend\nselect a\ndelete a\ndump a\n")
        ≡ Ok (codes "app a a00000010B\nend\nselect a00000010B\ndelete a00000010B\ndump a00000010B\n") }
    ensures an_aid { deck (codes "app BADCAFE100 A000000100\nend\nselect BADCAFE100\nload BADCAFE100\n")
        ≡ Ok (codes "app BADCAFE100 A000000100\nend\nselect BADCAFE100\nload BADCAFE100 0 0\n") }
    ensures four_bytes { deck (codes "app BADCAFE1 A000000100\nend\nselect BADCAFE1\n")
        ≡ Ok (codes "app BADCAFE1 A000000100\nend\nselect A000000100\n") }
    ensures no_name { deck (codes "app a A000000100\nend\nselect b\nselect A\nselect a a\nselect\nbudget a\n")
        ≡ Ok (codes "app a A000000100\nend\nselect b\nselect A\nselect a a\nselect\nbudget a\n") }
    ensures later { deck (codes "select a\napp a A000000100\nend\n")
        ≡ Ok (codes "select a\napp a A000000100\nend\n") }
    ensures blanks { deck (codes "app a A000000100\nend\n  dump\t a \t\n")
        ≡ Ok (codes "app a A000000100\nend\n  dump\t A000000100 \t\n") }
    ensures first { deck (codes "app a A000000100\nend\napp a A000000101\nend\nselect a\n")
        ≡ Ok (codes "app a A000000100\nend\napp a A000000101\nend\nselect A000000100\n") }
{}

/// The fields of a command are joined, and brackets give their number of bytes.
pub fn commands()
    ensures joined { deck (codes "apdu 80 40 0000 (0064) 02\n") ≡ Ok (codes "apdu 8040000002006402\n") }
    ensures one { deck (codes "apdu (aBcD)\n") ≡ Ok (codes "apdu 02aBcD\n") }
    ensures two { deck (codes "apdu (00) (0102)\n") ≡ Ok (codes "apdu 0100020102\n") }
    ensures as_it_is { deck (codes "apdu 80ff\napdu\n") ≡ Ok (codes "apdu 80ff\napdu\n") }
    ensures blanks { deck (codes "\tapdu \t 80  40\t00 00 \t\n") ≡ Ok (codes "\tapdu \t 80400000 \t\n") }
{}

/// Comments, empty lines and all other statements stay, and so does what has the form of no statement.
pub fn other_lines()
    ensures { deck (codes "#load a\n # apdu 8 (\n\n \t\nformat\nbudget 5\n load\nunit a 00\n" ++
        codes "cut 1 0000000000000000\nLOAD a\napp a\nSTATIC\nend\n")
        ≡ Ok (codes "#load a\n # apdu 8 (\n\n \t\nformat\nbudget 5\n load\nunit a 00\ncut 1 0000000000000000\n" ++
        codes "LOAD a\napp a\nSTATIC\nend\n") }
{}
