//! Texts of events and of domains.

ghost use Rattle.std.specs.Prelude.{◌≡◌, ◌++◌, OnOk, length};
ghost use Rattle.std.specs.Fmt.{decimal};
ghost use Rattle.pay_dates.specs.Days.{day_text};
ghost use Rattle.pay_domains.specs.Pieces.{AreRaws, IsDomain};
ghost use Rattle.pay_analysis.specs.Walking.{AreAllRaws};
ghost use Rattle.pay_explain.specs.Explaining.{domain_line, domain_lines, domain_text, further_pieces_text, piece_text, tree_heading};
ghost use Rattle.pay_explain.specs.Known.{HaveRawEnds, HasRawEnds};
ghost use Rattle.pay_fixed.specs.Decimal.{decimal_text};
ghost use Rattle.pay_fixed.specs.Round.{IsRaw};
ghost use Rattle.pay_tree.specs.OwnedViews.{event_tree};

use pay_dates::{Day, write_day};
use pay_domains::{Domain, Piece};
use pay_fixed::{Fixed, NoMemory};
use pay_tree::{Event, Name};
use std::alloc::Global;

/// Appends the line of an event.
#[tactic(auto, using(std::proofs::Common::append_assoc))]
pub fn write_heading(alloc: Global, event: &Event, text: &mut Vec<u8>) -> Result<(), NoMemory>
    ensures { OnOk result (text.new.items ≡ text.old.items ++ tree_heading (event_tree event.now)) }
{
    write_text(b"event ", text)?;
    write_date(event.date, text)?;
    write_text(b" period ", text)?;
    write_count(alloc, event.period as usize, text)?;
    write_text(b" days ", text)?;
    write_count(alloc, event.days as usize, text)?;
    write_text(b"\n", text)
}

/// Appends a line for each variable.
#[tactic(auto, using(std::proofs::Common::append_assoc))]
pub fn write_domain_lines(
    names: &[Name],
    domains: &[Domain],
    text: &mut Vec<u8>,
) -> Result<(), NoMemory>
    requires { AreAllRaws domains.now }
    ensures { OnOk result (text.new.items ≡ text.old.items ++ domain_lines names.now domains.now) }
{
    for (name, domain) in names.iter().zip(domains) {
        write_domain_line(name, domain, text)?;
    }
    Ok(())
}

/// Appends the line of a variable.
#[tactic(auto, using(std::proofs::Common::append_assoc))]
fn write_domain_line(name: &Name, domain: &Domain, text: &mut Vec<u8>) -> Result<(), NoMemory>
    requires { AreRaws domain.now }
    ensures { OnOk result (text.new.items ≡ text.old.items ++ domain_line name.now domain.now) }
{
    write_text(b"  domain ", text)?;
    write_text(name.bytes(), text)?;
    write_text(b": ", text)?;
    write_domain(domain, text)?;
    write_text(b"\n", text)
}

/// Appends the pieces of a domain.
#[tactic(auto, using(std::proofs::Common::append_assoc, crate::proofs::KnownLemmas::raw_ends))]
fn write_domain(domain: &Domain, text: &mut Vec<u8>) -> Result<(), NoMemory>
    requires { AreRaws domain.now }
    ensures { OnOk result (text.new.items ≡ text.old.items ++ domain_text domain.now) }
{
    match domain.pieces().split_first() {
        Some((first, further)) => {
            write_piece(*first, text)?;
            write_further_pieces(further, text)
        }
        None => write_text(b"none", text),
    }
}

/// Appends further pieces, each after ` | `.
#[tactic(auto, using(std::proofs::Common::append_assoc))]
fn write_further_pieces(pieces: &[Piece], text: &mut Vec<u8>) -> Result<(), NoMemory>
    requires { HaveRawEnds pieces.now }
    ensures { OnOk result (text.new.items ≡ text.old.items ++ further_pieces_text pieces.now) }
{
    for piece in pieces {
        write_text(b" | ", text)?;
        write_piece(*piece, text)?;
    }
    Ok(())
}

/// Appends a piece: its one raw, or `LOW to HIGH`.
#[tactic(auto, using(std::proofs::Common::append_assoc))]
fn write_piece(piece: Piece, text: &mut Vec<u8>) -> Result<(), NoMemory>
    requires { HasRawEnds piece }
    ensures { OnOk result (text.new.items ≡ text.old.items ++ piece_text piece) }
{
    write_raw(piece.low, text)?;
    if !piece.is_point() {
        write_text(b" to ", text)?;
        write_raw(piece.high, text)?;
    }
    Ok(())
}

/// Appends a raw as a decimal.
fn write_raw(raw: i64, text: &mut Vec<u8>) -> Result<(), NoMemory>
    requires { IsRaw raw }
    ensures { OnOk result (text.new.items ≡ text.old.items ++ decimal_text raw) }
{
    Fixed::from_raw(raw).unwrap().write_decimal(text)
}

/// Appends a text.
fn write_text(words: &[u8], text: &mut Vec<u8>) -> Result<(), NoMemory>
    ensures { OnOk result (text.new.items ≡ text.old.items ++ words.now) }
{
    text.extend_from_slice(words)?;
    Ok(())
}

/// Appends a count.
fn write_count(alloc: Global, count: usize, text: &mut Vec<u8>) -> Result<(), NoMemory>
    ensures { OnOk result (text.new.items ≡ text.old.items ++ decimal count) }
{
    let digits = count.to_string(alloc)?;
    text.extend_from_slice(digits.as_bytes())?;
    Ok(())
}

/// Appends a date.
fn write_date(date: Day, text: &mut Vec<u8>) -> Result<(), NoMemory>
    ensures { OnOk result (text.new.items ≡ text.old.items ++ day_text date) }
{
    match write_day(date, text) {
        Ok(()) => Ok(()),
        Err(_) => Err(NoMemory),
    }
}
