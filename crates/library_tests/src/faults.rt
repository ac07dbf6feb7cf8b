//! Faults as a caller prints them.
use devdry_files::{DiskFault, ReadFault};
use device_core::{BlockFault, BlockFaultKind, SplitFault};
use engine_sessions::{DeviceFault, LineFault, SessionFault, TurnFault};
use hwdb_core::HwdbFault;
use rule_core::{RulesFault, TemplateFault, TokenFault, TokenFaultKind};
use std::alloc::{AllocError, Global};
use std::error::Error;
use std::test::Fail;
use text_core::GlobFault;
use trie_build::{IndexFault, TrieFault};

/// Whether a fault is printed as this text.
fn says<F: Error>(alloc: Global, fault: &F, wanted: &str) -> Result<bool, AllocError> {
    Ok(fault.to_string(alloc)?.as_str() == wanted)
}

/// The second block's third line has no path.
const PATH: SessionFault = SessionFault::Block(
    2,
    BlockFault {
        line: 3,
        kind: BlockFaultKind::Path,
    },
);

/// Whether faults with places say them.
fn places_are_said(alloc: Global) -> Result<bool, AllocError> {
    let token = TokenFault {
        at: 7,
        kind: TokenFaultKind::Prefix,
    };
    let class = GlobFault::Class { at: 3 };
    Ok(
        says(alloc, &class, "class not supported at byte 3")?
            && says(alloc, &token, "bad quote prefix at byte 7")?
            && says(alloc, &SplitFault::TooLong { line: 3 }, "line 3: too long")?
            && says(alloc, &PATH, "block 2, line 3: path")?
            && says(alloc, &TurnFault::Session(PATH), "block 2, line 3: path")?,
    )
}

/// Whether faults without a place say what is wrong.
fn words_are_said(alloc: Global) -> Result<bool, AllocError> {
    Ok(
        says(alloc, &HwdbFault::TooMany, "too many entries")?
            && says(alloc, &TrieFault::TooLarge, "trie too large")?
            && says(alloc, &IndexFault::Magic, "magic")?
            && says(alloc, &TemplateFault::Unknown, "unknown substitution")?
            && says(alloc, &RulesFault::TooMany, "too many tokens")?
            && says(alloc, &DeviceFault, "device failed")?
            && says(alloc, &DiskFault::Absent, "not found")?,
    )
}

/// Whether faults say the texts that they hold.
fn texts_are_said(alloc: Global) -> Result<bool, AllocError> {
    let usage = LineFault::Usage(format!(in alloc; "no such option")?);
    let path = ReadFault::Path(format!(in alloc; "/etc/udev/rules.d")?);
    Ok(
        says(alloc, &usage, "no such option")?
            && says(alloc, &path, "cannot read /etc/udev/rules.d")?,
    )
}

#[test]
fn faults_are_printed(rt: HostRuntime) -> Result<(), Fail> {
    let alloc = rt.alloc();
    assert!(rt; places_are_said(alloc)?);
    assert!(rt; words_are_said(alloc)?);
    assert!(rt; texts_are_said(alloc)?);
    Ok(())
}
