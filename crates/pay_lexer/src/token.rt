//! The tokens of a script.

use pay_dates::Day;
use std::marker::Model;

/// The digits of a number token, with the point if there is one.
#[derive(Drop)]
pub struct Digits {
    bytes: Vec<u8>,
}

impl Model for Digits {
    ghost use Rattle.std.specs.Prelude.{ℕ, List};
    ghost use Rattle.pay_lexer.specs.Forms.{IsNumber};

    ghost Value = { List ℕ };

    ghost view = { λ digits. digits.bytes.items };

    ghost invariant = { λ digits. IsNumber digits.bytes.items };
}

impl Digits {
    ghost use Rattle.std.specs.Prelude.{◌≡◌};
    ghost use Rattle.pay_lexer.specs.Forms.{IsNumber};

    /// The digits `bytes`, which are a number's.
    pub(crate) fn new(bytes: Vec<u8>) -> Digits
        requires { IsNumber bytes.items }
        ensures { result ≡ bytes.items }
    {
        Digits { bytes }
    }

    /// The digits, and the point if there is one.
    pub fn bytes(&self) -> &[u8]
        ensures value { result.now ≡ self.now }
        ensures number { IsNumber result.now }
    {
        self.bytes.as_slice()
    }
}

/// The letters of a word token that is no keyword, in lower case.
#[derive(Drop)]
pub struct Letters {
    bytes: Vec<u8>,
}

impl Model for Letters {
    ghost use Rattle.std.specs.Prelude.{ℕ, List};
    ghost use Rattle.pay_lexer.specs.Forms.{IsPlainWord};

    ghost Value = { List ℕ };

    ghost view = { λ letters. letters.bytes.items };

    ghost invariant = { λ letters. IsPlainWord letters.bytes.items };
}

impl Letters {
    ghost use Rattle.std.specs.Prelude.{◌≡◌};
    ghost use Rattle.pay_lexer.specs.Forms.{IsPlainWord};

    /// The letters `bytes`, which are a word that is no keyword.
    pub(crate) fn new(bytes: Vec<u8>) -> Letters
        requires { IsPlainWord bytes.items }
        ensures { result ≡ bytes.items }
    {
        Letters { bytes }
    }

    /// The letters.
    pub fn bytes(&self) -> &[u8]
        ensures value { result.now ≡ self.now }
        ensures word { IsPlainWord result.now }
    {
        self.bytes.as_slice()
    }
}

/// A word that the language keeps for itself.
#[derive(Clone, Copy, PartialEq, Eq, Debug)]
pub enum Key {
    Schedule,
    From,
    To,
    Every,
    Following,
    Preceding,
    Modified,
    Do,
    End,
    If,
    Then,
    Else,
    Endif,
    Pays,
    Min,
    Max,
    Abs,
    Spot,
    Period,
    Days,
    Not,
    And,
    Or,
}

/// A sign of the grammar.
#[derive(Clone, Copy, PartialEq, Eq, Debug)]
pub enum Sign {
    Plus,
    Minus,
    Star,
    Slash,
    ParenLeft,
    ParenRight,
    Comma,
    Semicolon,
    Equals,
    Differs,
    Less,
    LessEq,
    More,
    MoreEq,
}

/// What a token is.
#[derive(Drop)]
pub enum TokenKind {
    /// `@YYYY-MM-DD`.
    Date(Day),
    /// Digits, with a point between two of them or none.
    Number(Digits),
    /// A word that is no keyword.
    Word(Letters),
    /// A keyword.
    Key(Key),
    /// A sign.
    Sign(Sign),
}

/// A token of a text, and where it stands.
#[derive(Drop)]
pub struct Token {
    /// What it is.
    pub kind: TokenKind,
    /// The place of its first byte, from 0.
    pub start: u32,
    /// The place after its last byte.
    pub end: u32,
}
