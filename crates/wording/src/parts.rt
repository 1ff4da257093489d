//! Parts of a message in words.
use crate::names::message_name;
use message::{Address, Muid};
use std::fmt;

/// A Sub-ID by the name of its message, or by its number where it is reserved.
#[derive(Clone, Copy)]
pub struct Kind(pub u8);

impl fmt::Display for Kind {
    fn fmt<W: fmt::Write>(&self, f: &mut fmt::Formatter<W>) -> fmt::Result {
        let Kind(sub_id) = *self;
        match message_name(sub_id) {
            Some(name) => write!(f, "{name}"),
            None => write!(f, "Sub-ID {sub_id:02X}h"),
        }
    }
}

/// The address of a message by its name, or by its number where it has none.
#[derive(Clone, Copy)]
pub struct Place(pub u8);

impl fmt::Display for Place {
    fn fmt<W: fmt::Write>(&self, f: &mut fmt::Formatter<W>) -> fmt::Result {
        let Place(byte) = *self;
        match Address::new(byte) {
            Some(address) => write!(f, "{address}"),
            None => write!(f, "address {byte:02X}h"),
        }
    }
}

/// A device by its MUID.
#[derive(Clone, Copy)]
pub struct Device(pub u32);

impl fmt::Display for Device {
    fn fmt<W: fmt::Write>(&self, f: &mut fmt::Formatter<W>) -> fmt::Result {
        let Device(number) = *self;
        match Muid::new(number) {
            Some(muid) => write!(f, "{muid}"),
            None => write!(f, "{number}"),
        }
    }
}

/// The hexadecimal digits, each a text of one byte. From a table of sixteen texts, whose lengths are read with them, `trace` takes three
/// tenths longer to tell long messages, and with `{byte:02X}` longer still (docs/DESIGN-PASS.md).
const DIGITS: &str = "0123456789ABCDEF";

/// The digit of a number below 16.
fn digit(n: u8) -> &'static str {
    let place = usize::from(n);
    DIGITS.get(place..=place).unwrap_or_default()
}

/// Bytes in hexadecimal.
#[derive(Clone, Copy)]
pub struct Hex<'a>(pub &'a [u8]);

impl fmt::Display for Hex<'_> {
    fn fmt<W: fmt::Write>(&self, f: &mut fmt::Formatter<W>) -> fmt::Result {
        let Hex(bytes) = *self;
        let mut gap = "";
        for byte in bytes {
            f.write_str(gap)?;
            f.write_str(digit(byte / 0x10))?;
            f.write_str(digit(byte % 0x10))?;
            gap = " ";
        }
        Ok(())
    }
}

/// How many Profile IDs there are, in which state, and which.
#[derive(Clone, Copy)]
pub struct Ids<'a>(pub &'a [u8], pub &'static str);

impl fmt::Display for Ids<'_> {
    fn fmt<W: fmt::Write>(&self, f: &mut fmt::Formatter<W>) -> fmt::Result {
        let Ids(bytes, state) = *self;
        let count = bytes.len() / 5;
        write!(f, "{count} {state}")?;
        for (i, id) in bytes.chunks(5).enumerate() {
            let before = if i == 0 { ": " } else { ", " };
            write!(f, "{before}{}", Hex(id))?;
        }
        Ok(())
    }
}
