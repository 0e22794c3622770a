// Cuts a text at a byte, and a line feed from its end.
ghost use Rattle.std.specs.Prelude.{◌≡◌, ◌==◌, position};
ghost use Rattle.card_text.specs.Parts.{Cuts, without_feed};

// Where the first byte `at` stands.
fn place_of(text: &[u8], at: u8) -> Option<usize>
    ensures { result ≡ position (λ b. b == at) text.now }
{
    text.iter().position(|byte| *byte == at)
}

/// What stands before the first byte `at`, and what stands after it, where there is one.
pub fn cut(text: &[u8], at: u8) -> (&[u8], Option<&[u8]>)
    ensures { Cuts at text.now result }
{
    match place_of(text, at) {
        Some(place) => (&text[..place], Some(&text[place + 1..])),
        None => (text, None),
    }
}

/// A text without the line feed that ends its last line.
pub fn without_feed(text: &[u8]) -> &[u8]
    ensures { result.now ≡ without_feed text.now }
{
    if text.is_empty() || text[text.len() - 1] != b'\n' {
        text
    } else {
        &text[..text.len() - 1]
    }
}
