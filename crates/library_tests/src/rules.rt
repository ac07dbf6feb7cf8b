//! What tokens, templates and rules show only to a caller.
use rule_core::{ReadRules, Rule, read_rules};
use rule_tokens::{
    Operator, Piece, Quote, Span, Template, TemplateFault, Token, TokenFault, TokenFaultKind,
    Tokens,
};
use std::alloc::{AllocError, Global};
use std::test::Fail;
use text_bytes::{Bytes, FileKind, SourceFile};

/// How many tokens a line begins with, and the fault that ends them.
fn ending(line: &[u8]) -> (u32, Option<TokenFault>) {
    let mut count: u32 = 0;
    let mut fault = None;
    for item in Tokens::new(line) {
        match item {
            Ok(_) => count = count.wrapping_add(1),
            Err(found) => fault = Some(found),
        }
    }
    (count, fault)
}

/// Whether a line ends after so many tokens with a fault of this kind at this place.
fn ends_with(line: &[u8], tokens: u32, at: usize, kind: TokenFaultKind) -> bool {
    ending(line) == (tokens, Some(TokenFault { at, kind }))
}

/// How many bytes of a line its tokens take up, each cut from the line by its span; if a span leaves the line, a
/// number that no line reaches.
fn token_bytes(line: &[u8]) -> usize {
    let mut count: usize = 0;
    for item in Tokens::new(line) {
        let Ok(token) = item else {
            return count;
        };
        let span = token.span();
        match line.get(span.start..span.end) {
            Some(text) => count = count.wrapping_add(text.len()),
            None => return usize::MAX,
        }
    }
    count
}

/// Whether a token is a match of the kernel's name `a"b`, from the first byte of the line on.
fn is_match(token: &Token<'_>) -> bool {
    token.key() == b"KERNEL".as_slice()
        && token.attribute().is_none()
        && token.operator() == Operator::Equal
        && token.quote() == Quote::Plain
        && token.value() == br#"a\"b"#.as_slice()
        && token.span() == Span { start: 0, end: 14 }
}

/// Whether a token assigns a text with escapes to the property k.
fn is_assignment(token: &Token<'_>) -> bool {
    token.key() == b"ENV".as_slice()
        && token.attribute() == Some(b"k".as_slice())
        && token.operator() == Operator::Assign
        && token.quote() == Quote::Escaped
        && token.span() == Span { start: 16, end: 36 }
}

/// Whether a line has these two tokens and no other.
fn has_two_tokens(line: &[u8]) -> bool {
    let mut tokens = Tokens::new(line);
    let (Some(Ok(first)), Some(Ok(second))) = (tokens.next(), tokens.next()) else {
        return false;
    };
    is_match(&first) && is_assignment(&second) && tokens.next().is_none()
}

/// How the value of a line's first token is quoted, if there is one.
fn first_quote(line: &[u8]) -> Option<Quote> {
    match Tokens::new(line).next() {
        Some(Ok(token)) => Some(token.quote()),
        _ => None,
    }
}

#[test]
fn tokens_show_their_parts_and_the_place_of_a_fault(rt: HostRuntime) {
    assert!(rt; has_two_tokens(br#"KERNEL=="a\"b", ENV{k}=e"\x41\102\n""#));
    assert!(rt; first_quote(br#"KERNEL==ie"\x41""#) == Some(Quote::BlindEscaped));
    assert!(rt; first_quote(br#"KERNEL==ei"\x41""#) == Some(Quote::BlindEscaped));
    assert!(rt; first_quote(br#"KERNEL!=i"\x41""#) == Some(Quote::Blind));
    assert!(rt; token_bytes(br#"A="1", B=="22" ,"#) == 12);
    assert!(rt; token_bytes(br#"A="1", B="#) == 5);
    for line in [
        b"".as_slice(),
        br#" A="x""#,
        br#"KERNEL=="a"#,
        br#"A=e"\400""#,
    ] {
        assert!(rt; ends_with(line, 0, 0, TokenFaultKind::Syntax));
    }
    assert!(rt; ends_with(br#"KERNEL==x"a""#, 0, 0, TokenFaultKind::Prefix));
    assert!(rt; ends_with(br#"KERNEL=="a" "b""#, 1, 12, TokenFaultKind::Syntax));
}

/// Whether a template lends its text and its five pieces.
fn template_is_lent(alloc: Global, text: &[u8]) -> Result<bool, Fail> {
    let template = Template::read(alloc, text)?;
    Ok(
        template.written() == text
            && template.pieces().len() == 5
            && matches!(template.pieces().first(), Some(Piece::From(2)))
            && matches!(template.pieces().last(), Some(Piece::Word(2))),
    )
}

/// Whether a text is no template, for this reason.
fn template_has_fault(alloc: Global, text: &[u8], fault: TemplateFault) -> bool {
    Template::read(alloc, text).err() == Some(fault)
}

/// One file of rules.
fn files(alloc: Global, name: &[u8], text: &[u8]) -> Result<Vec<SourceFile>, AllocError> {
    let mut files = Vec::new(alloc);
    files.push(SourceFile {
        kind: FileKind::Rules,
        rank: 0,
        name: Bytes::copy_of(alloc, name)?,
        bytes: Bytes::copy_of(alloc, text)?,
    })?;
    Ok(files)
}

fn is_name(name: Option<&[u8]>, wanted: &[u8]) -> bool {
    match name {
        None => false,
        Some(text) => text == wanted,
    }
}

/// Whether a rule has one part in each of its lists.
fn has_one_of_each(rule: &Rule) -> bool {
    rule.plain.len() == 1
        && rule.up.len() == 1
        && rule.acts.len() == 1
        && rule.results.len() == 1
        && rule.sets.len() == 1
}

/// What is read of one file of rules.
fn read(alloc: Global, name: &[u8], text: &[u8]) -> Result<ReadRules, Fail> {
    match read_rules(alloc, &files(alloc, name, text)?) {
        Ok(read) => Ok(read),
        Err(_fault) => Err(Fail::from("no rules")),
    }
}

/// A rule with a part of each kind, and the rule that it jumps to.
const WITH_EACH: &[u8] =
    b"\nLABEL=\"l\", GOTO=\"g\", KERNEL==\"a\", KERNELS==\"b\", TEST==\"c\", RESULT==\"d\", ENV{A}=\"1\"\nLABEL=\"g\"";

/// Whether a rule lends all that it holds.
fn rule_is_lent(alloc: Global) -> Result<bool, Fail> {
    let read = read(alloc, b"p.rules", WITH_EACH)?;
    Ok(match read.rules().rules() {
        [rule, _] => {
            rule.file() == b"p.rules".as_slice()
                && rule.line == 2
                && is_name(rule.label(), b"l")
                && is_name(rule.goto(), b"g")
                && has_one_of_each(rule)
        }
        _ => false,
    })
}

/// Whether rules are given away, the one with a jump that is reported without it.
fn rules_are_given(alloc: Global) -> Result<bool, Fail> {
    let read = read(alloc, b"g.rules", b"GOTO=\"y\", ENV{D}=\"1\"")?;
    let count = read.messages().len();
    let rules = read.into_rules().into_rules();
    Ok(match rules.as_slice() {
        [rule] => count == 1 && rule.goto().is_none() && rule.sets.len() == 1,
        _ => false,
    })
}

#[test]
fn templates_and_rules_lend_what_they_hold(rt: HostRuntime) -> Result<(), Fail> {
    let alloc = rt.alloc();
    assert!(rt; template_is_lent(alloc, b"%c{2+}$kernelx%%%c{02}")?);
    for (text, fault) in [
        (b"$nope".as_slice(), TemplateFault::Unknown),
        (b"$sysfs", TemplateFault::Unknown),
        (b"50%", TemplateFault::Unknown),
        (b"$attr", TemplateFault::Brace),
        (b"$env{}", TemplateFault::Brace),
        (b"%s{a", TemplateFault::Brace),
        (b"%c{2", TemplateFault::Brace),
        (b"%c{0}", TemplateFault::Number),
        (b"%c{65536}", TemplateFault::Number),
        (b"%c{+}", TemplateFault::Number),
        (b"%k$env{}$nope", TemplateFault::Brace),
    ] {
        assert!(rt; template_has_fault(alloc, text, fault));
    }
    assert!(rt; rule_is_lent(alloc)?);
    assert!(rt; rules_are_given(alloc)?);
    Ok(())
}
