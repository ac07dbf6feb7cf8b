//! Operators that are read as `=`, which should have been written.
ghost use Rattle.std.specs.Prelude.{◌≡◌};
ghost use Rattle.rule_types.specs.Operators.{is_add, is_add_or_final, is_final, is_read_as_assign, read_as};

use crate::keys::Key;
use rule_tokens::Operator;

/// Whether an operator is read as `=` after a key.
#[tactic(auto, unfolding(crate::specs::Operators::is_read_as_assign))]
pub fn is_read_as_assign(key: Key, operator: Operator) -> bool
    ensures { result ≡ is_read_as_assign key operator }
{
    match key {
        Key::Name | Key::Owner | Key::Group | Key::Mode => is_add(operator),
        Key::Tag | Key::Env | Key::Seclabel => is_final(operator),
        Key::Attr | Key::Sysctl => is_add_or_final(operator),
        _ => false,
    }
}

/// The operator as which an operator is read after a key.
pub fn read_as(key: Key, operator: Operator) -> Operator
    ensures { result ≡ read_as key operator }
{
    if is_read_as_assign(key, operator) {
        Operator::Assign
    } else {
        operator
    }
}

/// Whether an operator is `+=`.
fn is_add(operator: Operator) -> bool
    ensures { result ≡ is_add operator }
{
    matches!(operator, Operator::Add)
}

/// Whether an operator is `:=`.
fn is_final(operator: Operator) -> bool
    ensures { result ≡ is_final operator }
{
    matches!(operator, Operator::AssignFinal)
}

/// Whether an operator is `+=` or `:=`; no other is read as `=`.
pub fn is_add_or_final(operator: Operator) -> bool
    ensures { result ≡ is_add_or_final operator }
{
    matches!(operator, Operator::Add | Operator::AssignFinal)
}
