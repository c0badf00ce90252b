// Names of sections, and commands.
use crate::drafts::{first_unmade, makes};

const LOADS: &[(&[u8], &[u8])] = &[
    (
        b"app a A000000100\nSTATIC x 3\nSESSION y 5\nSTATIC z 4 00000000\nend\nload a\n",
        b"app a A000000100\nDATA 000000\n\nDATA 00000000\nend\nload a 7 5\n",
    ),
    (
        b"app a A000000100\nDATA 0001\nNOP\nDATA 02\nend\nload a\n",
        b"app a A000000100\nDATA 0001\nNOP\nDATA 02\nend\nload a 3 0\n",
    ),
    (
        b"app a A000000100\nNOP\nend\nload a\n",
        b"app a A000000100\nNOP\nend\nload a 0 0\n",
    ),
    (
        b"app a A000000100\nSTATIC x 3\nend\napp b A000000101\nSTATIC x 4\nend\nload b\nload a\n",
        b"app a A000000100\n\nend\napp b A000000101\n\nend\nload b 4 0\nload a 3 0\n",
    ),
    (
        b"app a A000000100\nSTATIC x 3\nend\nload a 10 0\nload a 10\nload\n",
        b"app a A000000100\n\nend\nload a 10 0\nload a 10\nload\n",
    ),
    (
        b"app a A000000100\nend\n\t load \t a  \n",
        b"app a A000000100\nend\n\t load \t a 0 0  \n",
    ),
];

#[test]
fn loads(rt: HostRuntime) {
    assert_eq!(rt; first_unmade(rt.alloc(), LOADS), None);
}

const NAMES_OF_SECTIONS: &[(&[u8], &[u8])] = &[
    (
        b"app a a00000010B\nend\nselect a\ndelete a\ndump a\n",
        b"app a a00000010B\nend\nselect a00000010B\ndelete a00000010B\ndump a00000010B\n",
    ),
    (
        b"app BADCAFE100 A000000100\nend\nselect BADCAFE100\nload BADCAFE100\n",
        b"app BADCAFE100 A000000100\nend\nselect BADCAFE100\nload BADCAFE100 0 0\n",
    ),
    (
        b"app BADCAFE1 A000000100\nend\nselect BADCAFE1\n",
        b"app BADCAFE1 A000000100\nend\nselect A000000100\n",
    ),
    (
        b"app a A000000100\nend\nselect b\nselect A\nselect a a\nselect\nbudget a\n",
        b"app a A000000100\nend\nselect b\nselect A\nselect a a\nselect\nbudget a\n",
    ),
    (
        b"select a\napp a A000000100\nend\n",
        b"select a\napp a A000000100\nend\n",
    ),
    (
        b"app a A000000100\nend\n  dump\t a \t\n",
        b"app a A000000100\nend\n  dump\t A000000100 \t\n",
    ),
    (
        b"app a A000000100\nend\napp a A000000101\nend\nselect a\n",
        b"app a A000000100\nend\napp a A000000101\nend\nselect A000000100\n",
    ),
];

#[test]
fn names_of_sections(rt: HostRuntime) {
    assert_eq!(rt; first_unmade(rt.alloc(), NAMES_OF_SECTIONS), None);
}

const COMMANDS: &[(&[u8], &[u8])] = &[
    (b"apdu 80 40 0000 (0064) 02\n", b"apdu 8040000002006402\n"),
    (b"apdu (aBcD)\n", b"apdu 02aBcD\n"),
    (b"apdu (00) (0102)\n", b"apdu 0100020102\n"),
    (b"apdu 80ff\napdu\n", b"apdu 80ff\napdu\n"),
    (b"\tapdu \t 80  40\t00 00 \t\n", b"\tapdu \t 80400000 \t\n"),
];

#[test]
fn commands(rt: HostRuntime) {
    assert_eq!(rt; first_unmade(rt.alloc(), COMMANDS), None);
}

#[test]
fn other_lines(rt: HostRuntime) {
    assert!(rt;
        makes(
            rt.alloc(),
            b"#load a\n # apdu 8 (\n\n \t\nformat\nbudget 5\n load\nunit a 00\ncut 1 0000000000000000\nLOAD a\napp a\nSTATIC\nend\n",
            b"#load a\n # apdu 8 (\n\n \t\nformat\nbudget 5\n load\nunit a 00\ncut 1 0000000000000000\nLOAD a\napp a\nSTATIC\nend\n"
        )
    );
}
