//! What may be reported for a line of a database besides its faults.

/// Why a line is most likely not the one that was meant, though hwdb(7) finds no fault with it.
#[derive(Clone, Copy, PartialEq, Eq)]
pub enum DatabaseLint {
    /// D1: a hexadecimal digit has the case that no modalias of the match's prefix has.
    DigitCase,
    /// D2: no modalias of the match's prefix fits it.
    NoModalias,
    /// D3: the match ends where no modalias of its prefix does.
    EndMissing,
    /// D4: nothing is known to look up matches of this prefix.
    UnknownPrefix,
    /// D5: the match is in the file already.
    MatchTwice,
    /// D6: the property is in the record already.
    PropertyTwice,
    /// D7: a blank is beside the `=` of a property.
    BlankAtEquals,
    /// D8: a property has a name that no program asks for.
    OddName,
    /// D9: blanks follow a match.
    BlankAtEnd,
    /// D10: the file begins with a byte order mark.
    ByteOrderMark,
    /// D11: a `#` cuts a word.
    CutWord,
    /// D12: a set has no `]`.
    OpenSet,
    /// D13: the property does not take this value.
    WrongValue,
}
