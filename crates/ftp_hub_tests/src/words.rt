//! Lines with words beside the profile's.

use crate::lines::compare;
use crate::talk_values::storage;
use ftp_extras::{FileExtras, Offers};

const OFFERS: Offers = Offers {
    is_behind_tls: false,
    can_restart: false,
};

/// Lines of a client, and what it is sent behind the greeting.
type Row<'a> = (&'a [u8], &'a [u8]);

const ROWS: [Row<'static>; 7] = [
    (
        b"PWD\r\nSYST\r\nUSER ann\r\nPASS x\r\nPWD\r\nCWD up\r\nXPWD\r\nCDUP\r\nPWD\r\n",
        b"530 Please authenticate\r\n215 UNIX Type: L8\r\n331 Password Required\r\n\
          230 User logged in, proceed\r\n257 \"/\" is the current directory\r\n\
          250 Successfully changed working directory\r\n257 \"/up\" is the current directory\r\n\
          250 Successfully changed working directory\r\n257 \"/\" is the current directory\r\n",
    ),
    // A rename follows its look at once.
    (
        b"USER ann\r\nPASS x\r\nRNFR up\r\nRNTO down\r\nRNFR down\r\nNOOP\r\nRNTO up\r\n",
        b"331 Password Required\r\n230 User logged in, proceed\r\n350 Ready for RNTO\r\n250 Renamed\r\n\
          350 Ready for RNTO\r\n200 Successfully did nothing\r\n503 Use RNFR first\r\n",
    ),
    (
        b"FEAT\r\nNOPE\r\nQUIT\r\n",
        b"211-Extensions supported\r\n EPSV\r\n MDTM\r\n MFMT\r\n MLST type*;size*;modify*;\r\n SIZE\r\n UTF8\r\n211 End\r\n\
          500 Command not implemented\r\n221 Bye!\r\n",
    ),
    // A port is shown as RFC 2428 has it, behind a 229, and only over IP version 4.
    (
        b"EPSV\r\nUSER ann\r\nPASS x\r\nEPSV 2\r\nEPSV ALL\r\nepsv\r\nQUIT\r\n",
        b"530 Please authenticate\r\n331 Password Required\r\n230 User logged in, proceed\r\n\
          522 Network protocol not supported, use (1)\r\n200 Noted\r\n\
          229 Entering Extended Passive Mode (|||50000|)\r\n221 Bye!\r\n",
    ),
    // A PASV beside it is answered as ever, and keeps its port until the EPSV has another.
    (
        b"USER ann\r\nPASS x\r\nPASV\r\nEPSV 1\r\nQUIT\r\n",
        b"331 Password Required\r\n230 User logged in, proceed\r\n227 Entering Passive Mode (10,0,0,9,195,80)\r\n\
          229 Entering Extended Passive Mode (|||50001|)\r\n221 Bye!\r\n",
    ),
    // A STOU with a name is one without; other commands still need their parameters, and a rename its RNFR right before.
    (
        b"STOU a\r\nUSER ann\r\nPASS x\r\nSTOU a\r\nSTOU\r\nRNFR up\r\nPASV x\r\nRNTO down\r\nRETR\r\nQUIT\r\n",
        b"530 Please authenticate\r\n331 Password Required\r\n230 User logged in, proceed\r\n\
          425 No data connection established\r\n425 No data connection established\r\n350 Ready for RNTO\r\n\
          501 Invalid Parameter\r\n503 Use RNFR first\r\n501 Invalid Parameter\r\n221 Bye!\r\n",
    ),
    // What is not there is refused before any data connection.
    (
        b"USER ann\r\nPASS x\r\nRETR none\r\n",
        b"331 Password Required\r\n230 User logged in, proceed\r\n550 File not found\r\n",
    ),
];

#[test]
fn words_of_clients_are_answered_in_their_order(rt: HostRuntime) {
    for (lines, replies) in &ROWS {
        for chunk in [1, 65536] {
            let files = storage(rt.alloc()).expect(&rt, "files");
            let words = FileExtras::new(rt.alloc(), OFFERS, files);
            compare(&rt, rt.alloc(), (lines, replies, b""), chunk, Some(words));
        }
    }
}
