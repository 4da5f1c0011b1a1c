//! The canonical text of a script.

ghost use Rattle.std.specs.Prelude.{◌≡◌, ◌<◌, ◌++◌, codes, length, IfOk, OnErr, OnOk};
ghost use Rattle.std.specs.Fmt.{decimal};
ghost use Rattle.pay_dates.specs.Days.{day_text};
ghost use Rattle.pay_meaning.specs.Words.{unit_word};
ghost use Rattle.pay_text.specs.Text as text_of;
ghost use Rattle.pay_tree.specs.Views as view;

use pay_dates::{Day, Rule, Unit, write_day};
use pay_fixed::NoMemory;
use pay_tree::{Binary, Compare, Cond, Expr, Item, Name, Script, Stmt, Unary};
use std::alloc::Global;

/// The indent of the statements of an item.
const ITEM_INDENT: &[u8] = b"  ";

/// What stands before two numbers under an operator.
fn opening(op: Binary) -> &'static [u8]
    ensures { result.now ≡ text_of.opening (view.operator op) }
{
    match op {
        Binary::Add | Binary::Sub | Binary::Mul | Binary::Div => b"(",
        Binary::Min => b"min(",
        Binary::Max => b"max(",
    }
}

/// What stands between two numbers under an operator.
fn between(op: Binary) -> &'static [u8]
    ensures { result.now ≡ text_of.between (view.operator op) }
{
    match op {
        Binary::Add => b" + ",
        Binary::Sub => b" - ",
        Binary::Mul => b" * ",
        Binary::Div => b" / ",
        Binary::Min | Binary::Max => b", ",
    }
}

/// Appends a number; where there is no memory, perhaps a part of it.
fn print_number(text: &mut Vec<u8>, number: &Expr) -> Result<(), NoMemory>
    ensures { OnOk result (text.new.items ≡ text.old.items ++ text_of.number_text (view.number number.now)) }
{
    match number {
        Expr::Number(literal) => literal.write_decimal(text)?,
        Expr::Name(name) => text.extend_from_slice(name.bytes())?,
        Expr::Spot => text.extend_from_slice(b"spot()")?,
        Expr::Period => text.extend_from_slice(b"period()")?,
        Expr::Days => text.extend_from_slice(b"days()")?,
        Expr::Unary(Unary::Neg, side) => {
            text.extend_from_slice(b"-")?;
            print_number(text, side)?;
        }
        Expr::Unary(Unary::Abs, side) => {
            text.extend_from_slice(b"abs(")?;
            print_number(text, side)?;
            text.extend_from_slice(b")")?;
        }
        Expr::Binary(op, left, right) => {
            text.extend_from_slice(opening(*op))?;
            print_number(text, left)?;
            text.extend_from_slice(between(*op))?;
            print_number(text, right)?;
            text.extend_from_slice(b")")?;
        }
    }
    Ok(())
}

/// The sign of a comparison, as it stands between two numbers.
fn comparing(op: Compare) -> &'static [u8]
    ensures { result.now ≡ text_of.comparing (view.comparison op) }
{
    match op {
        Compare::Less => b" < ",
        Compare::LessEq => b" <= ",
        Compare::More => b" > ",
        Compare::MoreEq => b" >= ",
        Compare::Same => b" = ",
        Compare::Differs => b" != ",
    }
}

/// Appends a condition; where there is no memory, perhaps a part of it.
fn print_condition(text: &mut Vec<u8>, condition: &Cond) -> Result<(), NoMemory>
    ensures { OnOk result (text.new.items ≡ text.old.items ++ text_of.condition_text (view.condition condition.now)) }
{
    match condition {
        Cond::Compare(op, left, right) => {
            print_number(text, left)?;
            text.extend_from_slice(comparing(*op))?;
            print_number(text, right)?;
        }
        Cond::Not(side) => {
            text.extend_from_slice(b"not ")?;
            print_condition(text, side)?;
        }
        Cond::And(left, right) => {
            text.extend_from_slice(b"(")?;
            print_condition(text, left)?;
            text.extend_from_slice(b" and ")?;
            print_condition(text, right)?;
            text.extend_from_slice(b")")?;
        }
        Cond::Or(left, right) => {
            text.extend_from_slice(b"(")?;
            print_condition(text, left)?;
            text.extend_from_slice(b" or ")?;
            print_condition(text, right)?;
            text.extend_from_slice(b")")?;
        }
    }
    Ok(())
}

/// Appends a line: the indent, the name, the text between it and its number, the number and `;`.
fn print_line(
    text: &mut Vec<u8>,
    indent: &[u8],
    name: &Name,
    middle: &[u8],
    number: &Expr,
) -> Result<(), NoMemory>
    ensures { OnOk result (text.new.items ≡ text.old.items ++ text_of.line_text indent.now name.now middle.now (view.number number.now)) }
{
    text.extend_from_slice(indent)?;
    text.extend_from_slice(name.bytes())?;
    text.extend_from_slice(middle)?;
    print_number(text, number)?;
    text.extend_from_slice(b";\n")?;
    Ok(())
}

/// Appends a line: the indent, `if`, the condition and `then`.
fn print_if_line(text: &mut Vec<u8>, indent: &[u8], condition: &Cond) -> Result<(), NoMemory>
    ensures { OnOk result (text.new.items ≡ text.old.items ++ text_of.if_line indent.now (view.condition condition.now)) }
{
    text.extend_from_slice(indent)?;
    text.extend_from_slice(b"if ")?;
    print_condition(text, condition)?;
    text.extend_from_slice(b" then\n")?;
    Ok(())
}

/// Appends a line: the indent and a word.
fn print_word_line(text: &mut Vec<u8>, indent: &[u8], word: &[u8]) -> Result<(), NoMemory>
    ensures { OnOk result (text.new.items ≡ text.old.items ++ text_of.word_line indent.now word.now) }
{
    text.extend_from_slice(indent)?;
    text.extend_from_slice(word)?;
    text.extend_from_slice(b"\n")?;
    Ok(())
}

/// The indent of the branches of an `if`: two spaces more.
fn deeper(alloc: Global, indent: &[u8]) -> Result<Vec<u8>, NoMemory>
    ensures { IfOk result (λ inner. inner.items ≡ text_of.deeper indent.now) }
{
    let mut inner = Vec::from_slice(alloc, indent)?;
    inner.extend_from_slice(b"  ")?;
    Ok(inner)
}

/// Appends the lines of a statement.
#[cycle(statements)]
fn print_statement(
    alloc: Global,
    text: &mut Vec<u8>,
    indent: &[u8],
    statement: &Stmt,
) -> Result<(), NoMemory>
    ensures { OnOk result (text.new.items ≡ text.old.items ++ text_of.statement_text indent.now (view.statement statement.now)) }
{
    match statement {
        Stmt::Assign { name, value } => print_line(text, indent, name, b" = ", value),
        Stmt::Pay { leg, amount } => print_line(text, indent, leg, b" pays ", amount),
        Stmt::If { cond, yes, no } => {
            print_if_line(text, indent, cond)?;
            let inner = deeper(alloc, indent)?;
            print_statements(alloc, text, &inner, yes)?;
            print_else(alloc, text, indent, no)?;
            print_word_line(text, indent, b"endif")
        }
    }
}

/// Appends the line `else` and the lines of the statements after it, if there are any.
#[cycle(statements)]
fn print_else(
    alloc: Global,
    text: &mut Vec<u8>,
    indent: &[u8],
    statements: &[Stmt],
) -> Result<(), NoMemory>
    ensures { OnOk result (text.new.items ≡ text.old.items ++ text_of.unless_empty (view.body statements.now)
        (text_of.word_line indent.now (codes "else") ++ text_of.body_text (text_of.deeper indent.now) (view.body statements.now))) }
{
    match statements {
        [] => Ok(()),
        [_, ..] => {
            print_word_line(text, indent, b"else")?;
            let inner = deeper(alloc, indent)?;
            print_statements(alloc, text, &inner, statements)?;
            Ok(())
        }
    }
}

/// Appends the lines of statements.
#[cycle(statements)]
fn print_statements(
    alloc: Global,
    text: &mut Vec<u8>,
    indent: &[u8],
    statements: &[Stmt],
) -> Result<(), NoMemory>
    ensures { OnOk result (text.new.items ≡ text.old.items ++ text_of.body_text indent.now (view.body statements.now)) }
{
    for statement in statements {
        print_statement(alloc, text, indent, statement)?;
    }
    Ok(())
}

/// Appends the line of a date.
fn print_date(text: &mut Vec<u8>, date: Day) -> Result<(), NoMemory>
    ensures { OnOk result (text.new.items ≡ text.old.items ++ text_of.date_line date) }
{
    text.extend_from_slice(b"@")?;
    print_day(text, date)?;
    text.extend_from_slice(b"\n")?;
    Ok(())
}

/// Appends a date.
fn print_day(text: &mut Vec<u8>, date: Day) -> Result<(), NoMemory>
    ensures { OnOk result (text.new.items ≡ text.old.items ++ day_text date) }
{
    match write_day(date, text) {
        Ok(()) => Ok(()),
        Err(_) => Err(NoMemory),
    }
}

/// Appends the digits of a count.
fn print_count(text: &mut Vec<u8>, count: u64) -> Result<(), NoMemory>
    ensures { OnOk result (text.new.items ≡ text.old.items ++ decimal count) }
{
    if count >= 10 {
        print_count(text, count / 10)?;
    }
    text.push(b'0' + (count % 10) as u8)?;
    Ok(())
}

/// The word of a unit.
fn unit_word(unit: Unit) -> &'static [u8]
    ensures { result.now ≡ unit_word unit }
{
    match unit {
        Unit::Days => b"d",
        Unit::Weeks => b"w",
        Unit::Months => b"m",
        Unit::Years => b"y",
    }
}

/// The word of a rule after a space; nothing without a rule.
fn rule_text(rule: Rule) -> &'static [u8]
    ensures { result.now ≡ text_of.rule_text rule }
{
    match rule {
        Rule::Stay => b"",
        Rule::Following => b" following",
        Rule::Preceding => b" preceding",
        Rule::Modified => b" modified",
    }
}

/// Appends the words and the dates that a schedule begins with.
fn print_dates(text: &mut Vec<u8>, first: Day, last: Day) -> Result<(), NoMemory>
    ensures { OnOk result (text.new.items ≡ text.old.items ++ text_of.dates_text first last) }
{
    text.extend_from_slice(b"schedule from @")?;
    print_day(text, first)?;
    text.extend_from_slice(b" to @")?;
    print_day(text, last)?;
    Ok(())
}

/// Appends the step of a schedule, and its rule.
fn print_step(text: &mut Vec<u8>, every: u64, unit: Unit, rule: Rule) -> Result<(), NoMemory>
    ensures { OnOk result (text.new.items ≡ text.old.items ++ text_of.step_text every unit rule) }
{
    text.extend_from_slice(b" every ")?;
    print_count(text, every)?;
    text.extend_from_slice(b" ")?;
    text.extend_from_slice(unit_word(unit))?;
    text.extend_from_slice(rule_text(rule))?;
    Ok(())
}

/// Appends the line that a schedule begins with.
#[tactic(auto, using(std::proofs::Common::append_assoc))]
fn print_schedule_line(
    text: &mut Vec<u8>,
    first: Day,
    last: Day,
    every: u64,
    unit: Unit,
    rule: Rule,
) -> Result<(), NoMemory>
    ensures { OnOk result (text.new.items ≡ text.old.items
        ++ text_of.schedule_line (record { first = first; last = last; every = every; unit = unit; rule = rule })) }
{
    print_dates(text, first, last)?;
    print_step(text, every, unit, rule)?;
    text.extend_from_slice(b" do\n")?;
    Ok(())
}

/// Appends the lines of an item.
fn print_item(alloc: Global, text: &mut Vec<u8>, item: &Item) -> Result<(), NoMemory>
    ensures { OnOk result (text.new.items ≡ text.old.items ++ text_of.item_text (view.item item.now)) }
{
    match item {
        Item::Plain { date, body } => {
            print_date(text, *date)?;
            print_statements(alloc, text, ITEM_INDENT, body)
        }
        Item::Schedule {
            first,
            last,
            every,
            unit,
            rule,
            body,
        } => {
            print_schedule_line(text, *first, *last, *every, *unit, *rule)?;
            print_statements(alloc, text, ITEM_INDENT, body)?;
            text.extend_from_slice(b"end\n")?;
            Ok(())
        }
    }
}

/// The canonical text of a script, in memory of `alloc`. Equal scripts have one text.
///
/// Each line ends with a line feed. A plain item is a line `@2024-06-28`, and then the lines of its statements, two spaces
/// further in. A schedule is a line `schedule from @2024-01-31 to @2024-05-15 every 1 m following do`, the lines of its
/// statements, two spaces further in, and a line `end`; its unit is one of `d`, `w`, `m`, `y`, and a rule stands only where
/// the schedule has one. An assignment and a payment are one line, `name = 1.5;` or `leg pays 1.5;`. A number is written
/// with the fewest decimals and a name as it is. Each operation has brackets of its own: `(a + b)`, `(a - b)`, `(a * b)`,
/// `(a / b)`, `min(a, b)`, `max(a, b)`, `abs(a)`, `spot()`, `period()`, `days()`; a minus stands right before its number, as
/// `-a`. An `if` is a line `if a < b then`, the lines of its first branch two spaces further in, where its second has
/// statements a line `else` and theirs, and a line `endif`. Conditions are `a < b` and its like, `not c`, `(c and d)`,
/// `(c or d)`.
///
/// # Errors
///
/// [`NoMemory`] where there was no memory for the text; a script without items wants none.
pub fn print_script(alloc: Global, script: &Script) -> Result<Vec<u8>, NoMemory>
    ensures printed { IfOk result (λ text. text.items ≡ text_of.script_text (view.script script.now)) }
    ensures no_memory { OnErr result (0 < length (text_of.script_text (view.script script.now))) }
{
    let mut text = Vec::new(alloc);
    for item in &script.items {
        print_item(alloc, &mut text, item)?;
    }
    Ok(text)
}
