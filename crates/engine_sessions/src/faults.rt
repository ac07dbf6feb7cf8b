//! What is said about a session and a turn that failed.

use crate::session::SessionFault;
use crate::turning::TurnFault;
use std::error::Error;
use std::fmt;

impl fmt::Display for SessionFault {
    ghost use Rattle.std.specs.Prelude.{Some};
    ghost use Rattle.engine_sessions.specs.FaultTexts.{session_text};

    ghost output = { λ fault. Some (session_text fault) };

    fn fmt<W: fmt::Write>(&self, f: &mut fmt::Formatter<W>) -> fmt::Result {
        match self {
            SessionFault::Block(number, fault) => write!(f, "block {number}, {fault}"),
            SessionFault::Memory => f.write_str("out of memory"),
            SessionFault::Ended => f.write_str("session has ended"),
        }
    }
}

impl Error for SessionFault {}

impl fmt::Display for TurnFault {
    ghost use Rattle.std.specs.Prelude.{Some};
    ghost use Rattle.engine_sessions.specs.FaultTexts.{turn_text};

    ghost output = { λ fault. Some (turn_text fault) };

    fn fmt<W: fmt::Write>(&self, f: &mut fmt::Formatter<W>) -> fmt::Result {
        match self {
            TurnFault::Read => f.write_str("read failed"),
            TurnFault::Write => f.write_str("write failed"),
            TurnFault::Session(fault) => write!(f, "{fault}"),
        }
    }
}

impl Error for TurnFault {}
