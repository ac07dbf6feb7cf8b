//! Texts looked for among others that no table holds.
ghost use Rattle.std.specs.Prelude.{◌≡◌, map};
ghost use Rattle.text_tables.specs.Texts.{is_among};

/// Whether a text is one of these.
pub fn is_among(texts: &[&[u8]], text: &[u8]) -> bool
    ensures { result ≡ is_among (map (λ t. t.now) texts.now) text.now }
{
    for other in texts {
        if text == *other {
            return true;
        }
    }
    false
}

/// Whether a name is one of these.
pub fn is_name_among(names: &[&str], name: &str) -> bool
    ensures { result ≡ is_among (map (λ n. n.now) names.now) name.now }
{
    for other in names {
        if name.as_bytes() == other.as_bytes() {
            return true;
        }
    }
    false
}
