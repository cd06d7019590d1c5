//! The values of the constants that definitions name, so that who reads definitions alone finds them in one place. Each law holds by
//! the constants' own values: where one of these changes, this crate isn't proved any more.
ghost use Rattle.std.specs.Prelude.{◌≡◌, ◌+◌, ◌*◌, ◌^◌};
ghost use Rattle.rds_wire.specs.declared.header.TheConstants.{ACK_REQUIRED, CONG_BITMAP, RETRANSMITTED};
ghost use Rattle.rds_wire.specs.declared.kind.TheConstants.{MAP_LENGTH, MAX_LENGTH};
ghost use Rattle.rds_model.specs.declared.entry.TheConstants.{MAX_SLOTS, NO_SLOT};
ghost use Rattle.rds_model.specs.declared.journal.TheConstants.{MAX_ENTRIES, MIN_ENTRIES};
ghost use Rattle.rds_model.specs.declared.owed.TheConstants.{MAX_UNASKED, MAX_UNASKED_BYTES};
ghost use Rattle.rds_msgs.specs.declared.store.TheConstants.{MAX_MESSAGES};
ghost use Rattle.rds_text.specs.declared.host.TheConstants.{MAX_HOSTS};
ghost use Rattle.rds_text.specs.declared.addresses.TheConstants.{FIRST_ADDRESS};
ghost use Rattle.rds_script.specs.declared.script.TheConstants.{MAX_CUTS, MAX_LINES, MAX_PAYLOAD, MAX_TEXT, MAX_TOTAL};

/// The flags of a header (rds.h), and the most bytes of a payload.
pub fn a_header()
    ensures congestion { CONG_BITMAP ≡ 1 }
    ensures asking { ACK_REQUIRED ≡ 2 }
    ensures again { RETRANSMITTED ≡ 4 }
    ensures most { MAX_LENGTH ≡ 1048576 }
{}

/// The bytes of a congestion map (rds.h): a bit for each of 65,536 ports.
pub fn a_map()
    ensures bytes { MAP_LENGTH ≡ 8192 }
    ensures ports { MAP_LENGTH * 8 ≡ 65536 }
{}

/// How many datagrams, and how many bytes of payload, may go before one asks for an acknowledgement.
pub fn what_is_asked()
    ensures frames { MAX_UNASKED ≡ 7 }
    ensures bytes { MAX_UNASKED_BYTES ≡ 16777216 }
{}

/// The slots of a host, and the entries and messages of a connection. This project's own.
pub fn a_journal()
    ensures slots { MAX_SLOTS ≡ 1024 }
    ensures no_slot { NO_SLOT ≡ 65535 }
    ensures least { MIN_ENTRIES ≡ 4 }
    ensures most { MAX_ENTRIES ≡ 4294967294 }
    ensures messages { MAX_MESSAGES ≡ 4294967294 }
{}

/// The hosts of a script, and the address of the first: 10.0.0.1. This project's own.
pub fn a_host()
    ensures most { MAX_HOSTS ≡ 8 }
    ensures first { FIRST_ADDRESS ≡ 167772161 }
    ensures dotted { FIRST_ADDRESS ≡ 10 * 2 ^ 24 + 1 }
{}

/// The limits of a script. This project's own.
pub fn a_script()
    ensures text { MAX_TEXT ≡ 16777216 }
    ensures lines { MAX_LINES ≡ 200000 }
    ensures payload { MAX_PAYLOAD ≡ 2097152 }
    ensures total { MAX_TOTAL ≡ 16777216 }
    ensures cuts { MAX_CUTS ≡ 1024 }
{}
