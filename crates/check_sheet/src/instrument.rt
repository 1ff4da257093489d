//! An instrument in words.
use layers::{Member, Pair};
use message::{Identity, Row};
use sheet::Sheet;
use std::io;
use std::io::Write;
use wording::{Hex, Place};

fn write_identity<W: Write>(out: &mut W, identity: Identity) -> io::Result<()> {
    let bytes = &identity.bytes;
    writeln!(out, "manufacturer {}", Hex(&bytes[0..3]))?;
    writeln!(
        out,
        "family {}, model {}",
        Hex(&bytes[3..5]),
        Hex(&bytes[5..7])
    )?;
    writeln!(out, "revision {}", Hex(&bytes[7..11]))?;
    let block = identity.block;
    writeln!(out, "Function Block number {block}")
}

fn write_rows<W: Write>(out: &mut W, rows: &[Row]) -> io::Result<()> {
    let count = rows.len();
    writeln!(out, "rows: {count}")?;
    for row in rows {
        let place = Place(row.address);
        let id = Hex(&row.id);
        let state = if row.on { "on" } else { "off" };
        writeln!(out, "  {place}: {id} {state}")?;
    }
    Ok(())
}

fn write_members<W: Write>(out: &mut W, members: &[Member]) -> io::Result<()> {
    let count = members.len();
    writeln!(out, "members of sets: {count}")?;
    // set by set, since the sheet has its members by ID
    for set in 1..=8u8 {
        for member in members.iter().filter(|m| m.set == set) {
            let id = Hex(&member.id);
            writeln!(out, "  set {set}: {id}")?;
        }
    }
    Ok(())
}

fn write_pairs<W: Write>(out: &mut W, pairs: &[Pair]) -> io::Result<()> {
    let count = pairs.len();
    writeln!(out, "held rows: {count}")?;
    for pair in pairs {
        let place = Place(pair.address);
        let id = Hex(&pair.id);
        writeln!(out, "  {place}: {id}")?;
    }
    Ok(())
}

/// Writes what the sheet says: identity, rows by address with their state, sets, and held rows.
pub fn write_instrument<W: Write>(out: &mut W, sheet: &Sheet) -> io::Result<()> {
    write_identity(out, sheet.identity)?;
    write_rows(out, sheet.rows())?;
    write_members(out, sheet.members())?;
    write_pairs(out, sheet.pairs())
}
