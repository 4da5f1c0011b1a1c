//! Tests of the parser: which script a text spells, by its canonical text, and which fault its tokens have, with its place.

use crate::script::script_of;
use crate::text::{Text, text_of};
use crate::tree::LINES;
use pay_parser::ParseFault;
use pay_text::print_script;
use std::alloc::Global;
use std::test::Fail;

// A canonical text of schedules.
const SCHEDULES: &[u8] = b"schedule from @2024-01-31 to @2024-05-15 every 7 d do
  a pays 1;
end
schedule from @2024-01-31 to @2024-05-15 every 10 w following do
  a pays 1;
end
schedule from @2024-01-31 to @2024-05-15 every 1 m preceding do
  a pays 1;
end
schedule from @2024-01-31 to @2024-05-15 every 205 y modified do
  a pays 1;
end
";

// Texts of scripts, each with its canonical text: of no items and of a few, numbers, conditions, statements and schedules.
const SCRIPTS: &[(&[u8], &[u8])] = &[
    (b"", b""),
    (LINES, LINES),
    (SCHEDULES, SCHEDULES),
    (
        b"@2024-06-28 A pays -(1+2)*x - 3",
        b"@2024-06-28
  a pays ((-(1 + 2) * x) - 3);
",
    ),
    (
        b"\xef\xbb\xbf@2024-06-28 X = MIN(1, 2.50, spot()) // last\n@2024-06-27 leg pays 1/(2-abs(x));",
        b"@2024-06-28
  x = min(min(1, 2.5), spot());
@2024-06-27
  leg pays (1 / (2 - abs(x)));
",
    ),
    (
        b"@2024-06-28 a = 1; a = 1; a = 1; b pays a @2024-06-28 c = a b = -spot()",
        b"@2024-06-28
  a = 1;
  a = 1;
  a = 1;
  b pays a;
@2024-06-28
  c = a;
  b = -spot();
",
    ),
    (
        b"@2024-06-28
  leg pays -(a + b) * x - c;
  leg pays a - b - c;
  leg pays a / b / c * x;
  leg pays a + b * c;
  leg pays - - a * -b;
  leg pays min(a, b, c);
  leg pays max(spot(), abs(period() - days()));
",
        b"@2024-06-28
  leg pays ((-(a + b) * x) - c);
  leg pays ((a - b) - c);
  leg pays (((a / b) / c) * x);
  leg pays (a + (b * c));
  leg pays (--a * -b);
  leg pays min(min(a, b), c);
  leg pays max(spot(), abs((period() - days())));
",
    ),
    (
        b"@2024-06-28
  if a < 1 then endif
  if ((1 < 2)) then endif
  if (1 + 1) * 2 > 3 then endif
  if ((1) + 1) * 2 >= (3) then endif
  if -(1 + 1) <= -2 then endif
  if 3 != (((2))) then endif
  if a = 1 and b = 2 or c = 3 then endif
  if a = 1 or b = 2 and c = 3 then endif
  if a = 1 or b = 2 or c = 3 then endif
  if a = 1 and (b = 2 and c = 3) then endif
  if not a = 1 and b = 2 then endif
  if not (a = 1 and b = 2) then endif
  if not not (not a = 1) then endif
  if (not min(a, (1), 2) < abs((b))) then endif",
        b"@2024-06-28
  if a < 1 then
  endif
  if 1 < 2 then
  endif
  if ((1 + 1) * 2) > 3 then
  endif
  if ((1 + 1) * 2) >= 3 then
  endif
  if -(1 + 1) <= -2 then
  endif
  if 3 != 2 then
  endif
  if ((a = 1 and b = 2) or c = 3) then
  endif
  if (a = 1 or (b = 2 and c = 3)) then
  endif
  if ((a = 1 or b = 2) or c = 3) then
  endif
  if (a = 1 and (b = 2 and c = 3)) then
  endif
  if (not a = 1 and b = 2) then
  endif
  if not (a = 1 and b = 2) then
  endif
  if not not not a = 1 then
  endif
  if not min(min(a, 1), 2) < abs(b) then
  endif
",
    ),
    (
        b"@2024-06-28
  d = 1 w pays d; m = y y = m
  x = 1 if a < 1 then if b < 1 then x = 2 else x = 3 endif else x = 4 endif y = 5
  if a < 1 then if b < 1 then x = 2 endif else x = 4 endif
  if a < 1 then else if b < 1 then endif; endif
  if a < 1 then else endif if b < 1 then endif
  if a < 1 then b = 1 c = 2; else a pays 1; endif;",
        b"@2024-06-28
  d = 1;
  w pays d;
  m = y;
  y = m;
  x = 1;
  if a < 1 then
    if b < 1 then
      x = 2;
    else
      x = 3;
    endif
  else
    x = 4;
  endif
  y = 5;
  if a < 1 then
    if b < 1 then
      x = 2;
    endif
  else
    x = 4;
  endif
  if a < 1 then
  else
    if b < 1 then
    endif
  endif
  if a < 1 then
  endif
  if b < 1 then
  endif
  if a < 1 then
    b = 1;
    c = 2;
  else
    a pays 1;
  endif
",
    ),
    (
        b"schedule from @2024-01-31 to @2024-07-31 every 0 d do a pays 1 end
schedule from @2024-01-31 to @2024-07-31 every 2 w following do a pays 1 end
schedule from @2024-01-31 to @2024-07-31 every 012 M preceding do a pays 1 end
schedule from @2024-01-31 to @2024-07-31 every 1000 y Modified do a pays 1 end
schedule from @2024-01-31 to @2024-07-31 every 1 m do d = 1 w pays d; end
@2024-06-28 a = 1; schedule from @2024-01-31 to @2024-07-31 every 1 m do end
@2024-06-28 if a < 1 then endif schedule from @2024-01-31 to @2024-07-31 every 1 m do if d < 1 then endif; end
@2024-06-28 a = 1 schedule from @2024-01-31 to @2024-07-31 every 1 y do if d < 1 then endif end @2024-06-28",
        b"schedule from @2024-01-31 to @2024-07-31 every 0 d do
  a pays 1;
end
schedule from @2024-01-31 to @2024-07-31 every 2 w following do
  a pays 1;
end
schedule from @2024-01-31 to @2024-07-31 every 12 m preceding do
  a pays 1;
end
schedule from @2024-01-31 to @2024-07-31 every 1000 y modified do
  a pays 1;
end
schedule from @2024-01-31 to @2024-07-31 every 1 m do
  d = 1;
  w pays d;
end
@2024-06-28
  a = 1;
schedule from @2024-01-31 to @2024-07-31 every 1 m do
end
@2024-06-28
  if a < 1 then
  endif
schedule from @2024-01-31 to @2024-07-31 every 1 m do
  if d < 1 then
  endif
end
@2024-06-28
  a = 1;
schedule from @2024-01-31 to @2024-07-31 every 1 y do
  if d < 1 then
  endif
end
@2024-06-28
",
    ),
];

// Texts that are no scripts: of items, numbers, conditions, statements and schedules.
const NO_SCRIPTS: &[&[u8]] = &[
    b"a = 1",
    b"@2024-06-28 a",
    b"@2024-06-28 a = ;",
    b"@2024-06-28 a = (1",
    b"@2024-06-28 a = (1 b = 2)",
    b"@2024-06-28 a = (1, 2)",
    b"@2024-06-28 a = min(1)",
    b"@2024-06-28 a = abs(1, 2)",
    b"@2024-06-28 a = spot(1)",
    b"@2024-06-28 a = 1;;",
    b"@2024-06-28 if  then endif",
    b"@2024-06-28 if 1 then endif",
    b"@2024-06-28 if (1) then endif",
    b"@2024-06-28 if not 1 then endif",
    b"@2024-06-28 if (1 < 2) + 3 > 0 then endif",
    b"@2024-06-28 if -(1 < 2) > 0 then endif",
    b"@2024-06-28 if 1 < 2 < 3 then endif",
    b"@2024-06-28 if 1 < (2 < 3) then endif",
    b"@2024-06-28 if (not (1)) < 2 then endif",
    b"@2024-06-28 if (1 and 2) < 3 then endif",
    b"@2024-06-28 if 1 < 2 and then endif",
    b"@2024-06-28 if 1 < 2 not 3 < 4 then endif",
    b"@2024-06-28 if (1 < 2, 3) then endif",
    b"@2024-06-28 if min(1 < 2, 3) < 4 then endif",
    b"@2024-06-28 a pays 1 < 2",
    b"@2024-06-28 a = (1 < 2)",
    b"@2024-06-28 a = not 1",
    b"@2024-06-28 if a < 1 x = 1 endif",
    b"@2024-06-28 if a < 1 then x = 1",
    b"@2024-06-28 if a < 1 then x = 1 else",
    b"@2024-06-28 if a < 1 then else else endif",
    b"@2024-06-28 else",
    b"@2024-06-28 x = 1 endif",
    b"@2024-06-28 if a < 1 then endif endif",
    b"@2024-06-28 if a < 1 then endif;;",
    b"@2024-06-28 if a < 1 then @2024-06-29 endif",
    b"@2024-06-28 if a < 1 then x = 1 @2024-06-29",
    b"@2024-06-28 if a < 1 then schedule from @2024-01-31 to @2024-07-31 every 1 m do end endif",
    b"@2024-06-28 end",
    b"@2024-06-28 x = 1 end",
    b"schedule from @2024-01-31 to @2024-07-31 1 m do end",
    b"schedule from @2024-01-31 to @2024-07-31 every m do end",
    b"schedule from @2024-01-31 to @2024-07-31 every 1.0 m do end",
    b"schedule from @2024-01-31 to @2024-07-31 every x m do end",
    b"schedule from @2024-01-31 to @2024-07-31 every -1 m do end",
    b"schedule from @2024-01-31 to @2024-07-31 every 1 do end",
    b"schedule from @2024-01-31 to @2024-07-31 every 1 q do end",
    b"schedule from @2024-01-31 to @2024-07-31 every 1 mm do end",
    b"schedule from @2024-01-31 to @2024-07-31 every 1 m following modified do end",
    b"schedule from @2024-01-31 to @2024-07-31 every 1 m a pays 1 end",
    b"schedule from @2024-01-31 to @2024-07-31 every 1 m do a pays 1",
    b"schedule from @2024-01-31 to @2024-07-31 every 1 m do a pays 1 @2024-06-28",
    b"schedule from @2024-01-31 to @2024-07-31 every 1 m do a pays 1 @2024-06-28 end",
    b"schedule from @2024-01-31 to @2024-07-31 every 1 m do schedule from @2024-01-31 to @2024-07-31 every 1 m do end end",
    b"schedule from @2024-01-31 to @2024-07-31 every 1 m do if a < 1 then end endif",
    b"schedule from @2024-01-31 to @2024-07-31 every 1 m do end end",
    b"schedule from @2024-01-31 to @2024-07-31 every 1 m do end;",
];

// Texts at each limit and one beyond it, and the fault of each, if it has one.
const AT_LIMITS: &[(Text, Option<ParseFault>)] = &[
    ((b"@2024-06-28 a pays ", b"(", 100, b"1", b")"), None),
    (
        (b"@2024-06-28 a pays ", b"(", 100, b"", b""),
        Some(ParseFault::NotScript),
    ),
    (
        (b"@2024-06-28 a pays ", b"(", 101, b"", b""),
        Some(ParseFault::TooDeep { at: 119 }),
    ),
    (
        (b"@2024-06-28 a pays 1", b"+1", 96, b"; b = 1+1", b""),
        None,
    ),
    (
        (b"@2024-06-28 a pays 1", b"+1", 97, b"", b""),
        Some(ParseFault::TooDeep { at: 212 }),
    ),
    (
        (b"@2024-06-28 ", b"if a < 1 then ", 96, b"x = 1 ", b"endif "),
        None,
    ),
    (
        (b"@2024-06-28 ", b"if a < 1 then ", 97, b"x = 1 ", b"endif "),
        Some(ParseFault::TooDeep { at: 12 + 96 * 14 }),
    ),
    (
        (b"@2024-06-28 ", b"if ", 96, b"", b""),
        Some(ParseFault::NotScript),
    ),
    (
        (b"@2024-06-28 ", b"if ", 97, b"", b""),
        Some(ParseFault::TooDeep { at: 300 }),
    ),
    ((b"@2024-06-28 a pays 0.", b"0", 38, b"", b""), None),
    (
        (b"@2024-06-28 a pays 0.", b"0", 39, b"", b""),
        Some(ParseFault::TooLarge { at: 19 }),
    ),
    (
        (b"@2024-06-28 a pays 100000000000000.0001", b"", 0, b"", b""),
        Some(ParseFault::TooLarge { at: 19 }),
    ),
    ((b"@2024-06-28 ", b"n", 64, b" = 1", b""), None),
    (
        (b"@2024-06-28 ", b"n", 65, b" = 1", b""),
        Some(ParseFault::TooLarge { at: 12 }),
    ),
    (
        (b"", b"(", 101, b"100000000000000.0001", b""),
        Some(ParseFault::TooLarge { at: 101 }),
    ),
    (
        (b"a ", b"(", 101, b"", b""),
        Some(ParseFault::TooDeep { at: 102 }),
    ),
];

// The canonical text of the script that a text spells, or the fault of its tokens.
fn printed(alloc: Global, text: &[u8]) -> Result<Result<Vec<u8>, ParseFault>, Fail> {
    match script_of(alloc, text)? {
        Ok(script) => Ok(Ok(print_script(alloc, &script)?)),
        Err(fault) => Ok(Err(fault)),
    }
}

#[test]
fn scripts_are_read_and_their_canonical_texts_are_read_back(rt: HostRuntime) -> Result<(), Fail> {
    let alloc = rt.alloc();
    for &(text, canonical) in SCRIPTS {
        for text in [text, canonical] {
            let script = printed(alloc, text)??;
            assert_eq!(rt; script.as_slice(), canonical);
        }
    }
    Ok(())
}

#[test]
fn other_texts_are_no_scripts(rt: HostRuntime) -> Result<(), Fail> {
    for text in NO_SCRIPTS {
        assert_eq!(rt;
            printed(rt.alloc(), text)?.err(),
            Some(ParseFault::NotScript)
        );
    }
    Ok(())
}

#[test]
fn limits_are_asked_first(rt: HostRuntime) -> Result<(), Fail> {
    let alloc = rt.alloc();
    for &(text, fault) in AT_LIMITS {
        let text = text_of(alloc, text)?;
        assert_eq!(rt; printed(alloc, &text)?.err(), fault);
    }
    Ok(())
}
