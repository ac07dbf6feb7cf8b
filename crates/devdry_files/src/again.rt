//! Calls of the system that are made again if a signal interrupts them.
ghost use Rattle.std.specs.IoError.{error_kind};
ghost use Rattle.std.specs.Prelude.{◌≡◌, ◌↔◌, IsTrue, MatchResult, false};
ghost use Rattle.std.specs.declared.io.ErrorKind.TheVariants.{Interrupted};

use std::io::{self, ErrorKind};

/// How often a call is made that a signal interrupts each time.
pub const MAX_TRIES: u32 = 1000;

/// Whether a signal interrupted a call.
pub fn is_interrupted<T>(answer: &io::Result<T>) -> bool
    ensures { MatchResult answer.now (λ _. result ≡ false) (λ error. IsTrue result ↔ (error_kind error ≡ Interrupted)) }
{
    match answer {
        Ok(_) => false,
        Err(error) => error.kind() == ErrorKind::Interrupted,
    }
}

/// Makes a call, and makes it again if a signal interrupts it, 1,000 times at most.
pub(crate) fn again<T: Drop, C: Fn() -> io::Result<T>>(call: C) -> io::Result<T>
    requires { C.IsAlwaysCallable call }
    ensures { C.post call result }
{
    for _ in 1..MAX_TRIES {
        let answer = call();
        if !is_interrupted(&answer) {
            return answer;
        }
    }
    call()
}
