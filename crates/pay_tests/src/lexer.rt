//! Tests of the lexer: tokens with their places, and the first place where nothing begins.

use pay_lexer::{Key, LexFault, Sign, Token, TokenKind, lex};
use std::test::Fail;

/// What a token of a test has to be.
#[derive(Clone, Copy)]
enum Seen {
    Date(u16, u8, u8),
    Number(&'static [u8]),
    Word(&'static [u8]),
    Key(Key),
    Sign(Sign),
}

// Texts, and their tokens with their places.
const TEXTS: &[(&[u8], &[(Seen, u32, u32)])] = &[
    (b"", &[]),
    (b"\xef\xbb\xbf \t\r\n", &[]),
    (
        b"\xef\xbb\xbf@2024-02-29 A=1.50",
        &[
            (Seen::Date(2024, 2, 29), 3, 14),
            (Seen::Word(b"a"), 15, 16),
            (Seen::Sign(Sign::Equals), 16, 17),
            (Seen::Number(b"1.50"), 17, 21),
        ],
    ),
    (
        b"+-*/(),;=!=<<=>>=",
        &[
            (Seen::Sign(Sign::Plus), 0, 1),
            (Seen::Sign(Sign::Minus), 1, 2),
            (Seen::Sign(Sign::Star), 2, 3),
            (Seen::Sign(Sign::Slash), 3, 4),
            (Seen::Sign(Sign::ParenLeft), 4, 5),
            (Seen::Sign(Sign::ParenRight), 5, 6),
            (Seen::Sign(Sign::Comma), 6, 7),
            (Seen::Sign(Sign::Semicolon), 7, 8),
            (Seen::Sign(Sign::Equals), 8, 9),
            (Seen::Sign(Sign::Differs), 9, 11),
            (Seen::Sign(Sign::Less), 11, 12),
            (Seen::Sign(Sign::LessEq), 12, 14),
            (Seen::Sign(Sign::More), 14, 15),
            (Seen::Sign(Sign::MoreEq), 15, 17),
        ],
    ),
    (
        b"PAYS Pays_9x _ endif1",
        &[
            (Seen::Key(Key::Pays), 0, 4),
            (Seen::Word(b"pays_9x"), 5, 12),
            (Seen::Word(b"_"), 13, 14),
            (Seen::Word(b"endif1"), 15, 21),
        ],
    ),
    (
        b"1a 2.5b",
        &[
            (Seen::Number(b"1"), 0, 1),
            (Seen::Word(b"a"), 1, 2),
            (Seen::Number(b"2.5"), 3, 6),
            (Seen::Word(b"b"), 6, 7),
        ],
    ),
    (
        b"1 // \xff ! @ . \xef\xbb\xbf",
        &[(Seen::Number(b"1"), 0, 1)],
    ),
    (b"//\r1\n2//", &[(Seen::Number(b"2"), 5, 6)]),
    (
        b"1/ /2///3",
        &[
            (Seen::Number(b"1"), 0, 1),
            (Seen::Sign(Sign::Slash), 1, 2),
            (Seen::Sign(Sign::Slash), 3, 4),
            (Seen::Number(b"2"), 4, 5),
        ],
    ),
    (
        b"@1900-01-01@2199-12-311",
        &[
            (Seen::Date(1900, 1, 1), 0, 11),
            (Seen::Date(2199, 12, 31), 11, 22),
            (Seen::Number(b"1"), 22, 23),
        ],
    ),
];

// Texts, and their first place where neither a blank, a comment nor a token begins.
const BAD_TEXTS: &[(&[u8], u32)] = &[
    (b"@2024-02-30", 0),
    (b"@2024-02-2", 0),
    (b"@1899-12-31", 0),
    (b"a @2200-01-01", 2),
    (b"!", 0),
    (b"a ! = b", 2),
    (b"1.", 1),
    (b"1.x", 1),
    (b"1.1.1", 3),
    (b".5", 0),
    (b"a.b", 1),
    (b" \xef\xbb\xbf", 1),
    (b"\xef\xbb\xbf\xef\xbb\xbf", 3),
    (b"\xef\xbb", 0),
    (b"// \xc3\xa4\n\xc3\xa4", 6),
    (b"a\x00", 1),
];

/// Whether the token is the one to be seen.
fn is_seen(token: &Token, seen: &(Seen, u32, u32)) -> bool {
    let is_kind = match (&token.kind, &seen.0) {
        (TokenKind::Date(day), Seen::Date(year, month, number)) => {
            day.year() == *year && day.month() == *month && day.day() == *number
        }
        (TokenKind::Number(digits), Seen::Number(bytes)) => digits.bytes() == *bytes,
        (TokenKind::Word(letters), Seen::Word(bytes)) => letters.bytes() == *bytes,
        (TokenKind::Key(key), Seen::Key(other)) => key == other,
        (TokenKind::Sign(sign), Seen::Sign(other)) => sign == other,
        _ => false,
    };
    is_kind && token.start == seen.1 && token.end == seen.2
}

#[test]
fn tokens_have_their_places(rt: HostRuntime) -> Result<(), Fail> {
    for &(text, tokens) in TEXTS {
        assert!(rt; text.len() <= 1_048_576);
        let found = lex(rt.alloc(), text)?;
        assert_eq!(rt; found.len(), tokens.len());
        assert!(rt;
            found
                .iter()
                .zip(tokens)
                .all(|(token, seen)| is_seen(token, seen))
        );
    }
    Ok(())
}

#[test]
fn the_first_bad_place_is_told(rt: HostRuntime) -> Result<(), Fail> {
    for &(text, place) in BAD_TEXTS {
        assert!(rt; text.len() <= 1_048_576);
        match lex(rt.alloc(), text) {
            Ok(_) => assert!(rt; false),
            Err(fault) => assert_eq!(rt; fault, LexFault::BadByte { at: place }),
        }
    }
    Ok(())
}
