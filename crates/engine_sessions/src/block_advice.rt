//! What people are told about a faulty block.
ghost use Rattle.std.specs.Prelude.{◌≡◌};
ghost use Rattle.engine_sessions.specs.BlockAdvice.{advice_on, wrong_in};

use device_core::BlockFaultKind;

/// What is wrong with a line of a block, in a sentence.
pub(crate) fn wrong_in(kind: BlockFaultKind) -> &'static [u8]
    ensures { result.now ≡ wrong_in kind }
{
    match kind {
        BlockFaultKind::NoAction => {
            b"The first line of a block is C: and the action, and this one is not."
        }
        BlockFaultKind::NoDevice => {
            b"No P: above this line says which device it is about, or the block ends without one."
        }
        BlockFaultKind::Letter => {
            b"The line is not a letter of a block, a colon, one space and a text."
        }
        BlockFaultKind::Twice => {
            b"A line above gives this already, and it can be given only once."
        }
        BlockFaultKind::Path => {
            b"The path does not begin with a slash, or is not that of a parent of the device above."
        }
        BlockFaultKind::Number => {
            b"The device number is not MAJOR:MINOR, or the answer does not begin with an exit status."
        }
        BlockFaultKind::Pair => {
            b"A part of the line is missing, or the line that it belongs to."
        }
        BlockFaultKind::Nul => { b"The line has a NUL byte, which no text of a device has." }
        BlockFaultKind::TooLong => { b"In this line the block gets longer than 65,536 bytes." }
        BlockFaultKind::TooDeep => {
            b"The line begins the 65th device, and a block has at most 64."
        }
        BlockFaultKind::Memory => { b"There was no memory for the block." }
    }
}

/// What to do about it, in a sentence.
pub(crate) fn advice_on(kind: BlockFaultKind) -> &'static [u8]
    ensures { result.now ≡ advice_on kind }
{
    match kind {
        BlockFaultKind::NoAction => {
            b"Begin the block with a line such as C: add, and end the block before it with an empty line."
        }
        BlockFaultKind::NoDevice => {
            b"Put P: and the path of the device below C:, above all that is about the device."
        }
        BlockFaultKind::Letter => {
            b"Write one of the letters in devdry-events(1), and no comment; devdry-capture prints whole blocks."
        }
        BlockFaultKind::Twice => {
            b"Remove one of the two lines, or put an empty line between two blocks."
        }
        BlockFaultKind::Path => {
            b"Write paths as below /sys, such as P: /devices/virtual/mem/null, each parent below its child."
        }
        BlockFaultKind::Number => {
            b"Write a number such as D: 8:0, or an answer such as R: 0 TEXT, and no carriage return after it."
        }
        BlockFaultKind::Pair => {
            b"Write NAME=TEXT after A:, E: and K:, a text after the other letters, and R: right below its Q:."
        }
        BlockFaultKind::Nul => {
            b"Remove the byte: of an attribute that has one, udev sees what comes before it."
        }
        BlockFaultKind::TooLong => {
            b"Leave out attributes that no rule asks for, or put an empty line between two blocks."
        }
        BlockFaultKind::TooDeep => {
            b"Leave out the devices at the end of the block, which are the farthest parents."
        }
        BlockFaultKind::Memory => { b"Give the program more memory, or make the block shorter." }
    }
}
