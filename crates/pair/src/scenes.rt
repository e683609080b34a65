// The scenes, and the title that a pairing is printed under.
use crate::ends::Ends;
use crate::print::Octets;
use smp_types::PairingFeatures;
use std::fmt;

// A pairing with a name: what it shows, and the digits of both records.
#[derive(Clone, Copy)]
pub(crate) struct Scene {
    pub name: &'static str,
    pub shows: &'static str,
    pub digits: Ends<&'static str>,
}

pub(crate) const SCENES: [Scene; 6] = [
    // no common wish to bond, and the request names the terminal's identity key
    Scene {
        name: "clerk",
        shows: "the pairing of the lost landings",
        digits: Ends {
            terminal: "030001100303",
            head: "030000100003",
        },
    },
    Scene {
        name: "bonded",
        shows: "both ends bond and pass all their keys",
        digits: Ends {
            terminal: "030001100303",
            head: "030001100303",
        },
    },
    Scene {
        name: "passkey",
        shows: "the terminal shows a passkey, the head types it",
        digits: Ends {
            terminal: "000005100303",
            head: "020005100303",
        },
    },
    Scene {
        name: "typed",
        shows: "both ends type the passkey",
        digits: Ends {
            terminal: "020005100303",
            head: "020005100303",
        },
    },
    Scene {
        name: "oob",
        shows: "both ends have OOB data",
        digits: Ends {
            terminal: "030101100303",
            head: "030101100303",
        },
    },
    Scene {
        name: "plain",
        shows: "no end bonds, no key is passed",
        digits: Ends {
            terminal: "030000100000",
            head: "030000100000",
        },
    },
];

pub(crate) fn find_scene(name: &[u8]) -> Option<Scene> {
    for scene in SCENES {
        if scene.name.as_bytes() == name {
            return Some(scene);
        }
    }
    None
}

// What is played.
#[derive(Clone, Copy)]
pub(crate) enum Title {
    Scene(Scene),
    ByHand(Ends<PairingFeatures>),
}

impl fmt::Display for Title {
    fn fmt<W: fmt::Write>(&self, f: &mut fmt::Formatter<W>) -> fmt::Result {
        match self {
            Title::Scene(scene) => write!(f, "{}: {}", scene.name, scene.shows),
            Title::ByHand(records) => write!(
                f,
                "two records given by hand: {} {}",
                Octets(records.terminal.encode()),
                Octets(records.head.encode())
            ),
        }
    }
}
