//! What is true of the advice on faulty blocks. Each law is the contract of a function with an empty body.
ghost use Rattle.std.specs.Prelude.{◌≡◌, ◌++◌, ◌||◌, ℕ, false, true};
ghost use Rattle.text_bytes.specs.Texts.{is_empty};
ghost use Rattle.device_core.specs.declared.faults.BlockFault.{BlockFault};
ghost use Rattle.device_core.specs.declared.faults.BlockFaultKind.{BlockFaultKind};
ghost use Rattle.engine_sessions.specs.BlockAdvice.{advice_on, wrong_in};
ghost use Rattle.engine_sessions.specs.BlockFaults.{advice_lines, block_line, block_said};

/// Each fault of a block has a sentence of its own on what is wrong, and one on what to do, and none of them is empty.
pub fn each_fault_has_its_own_advice()
    ensures wrong { (a b : BlockFaultKind) → wrong_in a ≡ wrong_in b → a ≡ b }
    ensures advice { (a b : BlockFaultKind) → advice_on a ≡ advice_on b → a ≡ b }
    ensures some { (kind : BlockFaultKind) → (is_empty (wrong_in kind) || is_empty (advice_on kind)) ≡ false }
{}

/// The line on a faulty block stays as it is, and advice follows it for people alone.
pub fn advice_follows_the_line()
    ensures plain { (number : ℕ) (fault : BlockFault) → block_said false number fault ≡ block_line number fault }
    ensures people { (number : ℕ) (fault : BlockFault) → block_said true number fault ≡ block_line number fault ++ advice_lines fault.kind }
{}
