//! The law of lines.
ghost use Rattle.rule_laws.specs.LineLaws.{OneWay};

/// A text has its lines in just one way: one after another, each with the newline that ends it,
/// they are the text; only the last may lack its newline, and is then not empty.
pub fn a_text_has_its_lines_in_one_way()
    ensures { OneWay }
{}
