// Tokens: the longest runs of bytes that are no separators.
ghost use Rattle.std.specs.Prelude.{◌≡◌, ◌≤◌, ◌<◌, false, true, length, get_or, position};
ghost use Rattle.std.specs.Iterator.{YieldsFirstBy, item_count};
ghost use Rattle.import.specs.Bytes.{leading};
ghost use Rattle.import.specs.Tokens.{separator, other, starts_token, tokens_from};

// Space, tab, line feed and carriage return.
#[tactic(auto, unfolding(crate::specs::Tokens::separator))]
fn is_separator(b: u8) -> bool
    ensures { result ≡ separator b }
{
    matches!(b, b' ' | b'\t' | b'\n' | b'\r')
}

// A token: the byte of the text that it starts at, and its bytes.
#[derive(Clone, Copy)]
pub struct Token<'a> {
    pub start: usize,
    pub bytes: &'a [u8],
}

// The tokens of a text from byte `at` on.
#[derive(Clone, Copy)]
pub struct Tokens<'a> {
    text: &'a [u8],
    at: usize,
    ghost inside: { at ≤ length text.now },
    ghost between: { at < length text.now → separator (get_or text.now at 0) ≡ false → starts_token text.now at ≡ true },
}

impl<'a> Tokens<'a> {
    // All tokens of a text.
    #[tactic(auto, unfolding(crate::specs::Tokens::starts_token))]
    pub fn of(text: &'a [u8]) -> Self
        ensures { (result.text.now ≡ text.now) × (result.at ≡ 0) }
    {
        Tokens { text, at: 0 }
    }
}

// The length of the token at the front.
fn token_length(bytes: &[u8]) -> usize
    ensures { result ≡ length (leading other bytes.now) }
{
    bytes.iter().take_while(|b| !is_separator(**b)).count()
}

// The place of the first byte that is no separator.
fn first_start(bytes: &[u8]) -> Option<usize>
    ensures { result ≡ position other bytes.now }
{
    bytes.iter().position(|b| !is_separator(*b))
}

impl<'a> Iterator for Tokens<'a> {
    type Item = Token<'a>;

    ghost next_gives = { YieldsFirstBy (λ x. (x.start, x.bytes.now)) (λ s. tokens_from s.text.now s.at) };

    ghost remaining = { item_count (λ s. tokens_from s.text.now s.at) };

    fn next(&mut self) -> Option<Token<'a>> {
        let tail = &self.text[self.at..];
        let start = self.at + first_start(tail)?;
        let bytes = &self.text[start..];
        let length = token_length(bytes);
        self.at = start + length;
        Some(Token {
            start,
            bytes: &bytes[..length],
        })
    }
}
