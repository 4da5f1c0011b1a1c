//! The keywords: which one lower-case letters are, if any.

ghost use Rattle.std.specs.Prelude.{◌≡◌, map};
ghost use Rattle.pay_lexer.specs.Tokens.{key_in, key_of};

use crate::token::Key;

/// The keywords, each with its letters.
const KEYWORDS: [(&[u8], Key); 23] = [
    (b"schedule", Key::Schedule),
    (b"from", Key::From),
    (b"to", Key::To),
    (b"every", Key::Every),
    (b"following", Key::Following),
    (b"preceding", Key::Preceding),
    (b"modified", Key::Modified),
    (b"do", Key::Do),
    (b"end", Key::End),
    (b"if", Key::If),
    (b"then", Key::Then),
    (b"else", Key::Else),
    (b"endif", Key::Endif),
    (b"pays", Key::Pays),
    (b"min", Key::Min),
    (b"max", Key::Max),
    (b"abs", Key::Abs),
    (b"spot", Key::Spot),
    (b"period", Key::Period),
    (b"days", Key::Days),
    (b"not", Key::Not),
    (b"and", Key::And),
    (b"or", Key::Or),
];

/// The keyword that these lower-case letters are, if they are one.
#[tactic(auto, unfolding(crate::specs::Tokens::key_of))]
pub fn key_of(word: &[u8]) -> Option<Key>
    ensures { result ≡ key_of word.now }
{
    let keywords: [(&[u8], Key); 23] = KEYWORDS;
    key_among(keywords.as_slice(), word)
}

/// The keyword with these letters, if there is one.
fn key_among(keywords: &[(&[u8], Key)], word: &[u8]) -> Option<Key>
    ensures { result ≡ key_in (map (λ entry. (entry.0.now, entry.1)) keywords.now) word.now }
{
    let mut rest = keywords;
    while let [(letters, key), tail @ ..] = rest {
        if word == *letters {
            return Some(*key);
        }
        rest = tail;
    }
    None
}
