// What `pair --help` prints, and the usage, which stands in it and follows an error.
use crate::scenes::SCENES;
use std::{fmt, io};

#[derive(Clone, Copy)]
pub(crate) struct Usage;

impl fmt::Display for Usage {
    fn fmt<W: fmt::Write>(&self, f: &mut fmt::Formatter<W>) -> fmt::Result {
        f.write_str(
            "Usage: pair [--late] [--btsnoop] SCENE\n       \
             pair [--late] [--btsnoop] TERMINAL HEAD\n       \
             pair --help, or -h\n\n\
             SCENE is one of these:",
        )?;
        for scene in SCENES {
            write!(f, "\n  {:<9}{}", scene.name, scene.shows)?;
        }
        Ok(())
    }
}

const WHAT: &str = "\
pair plays one legacy pairing of a quay terminal (the central) and the radio head of a scale (the
peripheral). It prints each packet, each event and each question to a host, and the states of both
machines. The values of the hosts are fixed: addresses, keys, nonces, the passkey and the OOB data.
";

const RECORDS: &str = "
TERMINAL and HEAD are feature records: the one in the terminal's request, and the one that the head
starts with. A record has 12 hexadecimal digits, two for each of these fields, in this order:
  I/O             00 DisplayOnly, 01 DisplayYesNo, 02 KeyboardOnly, 03 NoInputNoOutput,
                  04 KeyboardDisplay
  OOB             01 where OOB data is there, 00 where not
  AuthReq         the sum of 01 bonding, 04 MITM, 08 SC, 10 keypress, 20 CT2
  key size        07 to 10, which is 7 to 16 octets
  initiator keys  the sum of 01 EncKey, 02 IdKey, 04 SignKey, 08 LinkKey
  responder keys  the same
The head's initiator keys name no EncKey and no IdKey that the terminal's lack.
";

const OPTIONS: &str = "\
--late     gives a machine its events after packets, not before: `pair --late passkey` shows a
           Confirm that comes while the passkey is still being typed.
--btsnoop  writes a btsnoop file in place of the text, which Wireshark, tshark and btmon open:
             pair --btsnoop clerk > clerk.btsnoop
           It has the packets that the terminal sends and receives, in the order of the text. Input n
           of the text stands n seconds after the start of the year 2000; no clock is read. Three HCI
           packets come first, at second 0. pair makes them up, so that both addresses are shown.

The exit status is 0 after a pairing, however it ends, and after this help; 2 where the arguments are
wrong; 1 where the output cannot be written.";

pub(crate) fn print_help(rt: &impl Print) -> io::Result<()> {
    println!(rt; "{WHAT}")?;
    println!(rt; "{Usage}")?;
    println!(rt; "{RECORDS}")?;
    println!(rt; "{OPTIONS}")
}
