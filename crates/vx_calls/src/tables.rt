//! Small structures with each kind of row, at the ends of each range.
#![allow(non_upper_case_globals)]

use crate::structures::Structure;
use anyhow::{Result, bail};
use std::alloc::Global;
use vx_table::{Row, parts, table};

const width_minus1: u16 = 1;

const number: u16 = 2;

const flag: u16 = 3;

const size: u16 = 4;

const delta: u16 = 5;

const other: u16 = 6;

const filler: u16 = 7;

const refused: u16 = 8;

const last: u16 = 9;

const front: u16 = 10;

const alignment: u16 = 11;

const trailing_bits: u16 = 12;

const places: u16 = 13;

const place: u16 = 14;

const place_before: u16 = 15;

const entries: u16 = 16;

const entry: u16 = 17;

const again: u16 = 18;

const unknown_id: u16 = 19;

const TURN: u16 = 900;

const BITS: u16 = 901;

const SMALL: [Row; 16] = table! {
    width_minus1: u(2);
    let BITS = (width_minus1 + 1);
    number: u(BITS) in 0..=(12 - width_minus1);
    flag;
    if flag {
        size: ue multiple 8 upto 64 else Limit(6);
        for TURN in 2 { delta*: se in -2..=2 else Profile(4); }
    }
    default other = 7;
    if (not flag) { other: u(3); }
    fill filler;
    if (other == 5) { refuse refused; }
    zeros last;
    last: ue in 0..=1;
};

const ENDS: [Row; 3] = table! {
    front;
    one_and_zeros alignment;
    trailing trailing_bits;
};

/// Ranges below a number that may be 0.
const PLACES: [Row; 3] = table! {
    places: u(3);
    place: u(4) below places;
    place_before: ue below (places - 1) else Limit(9);
};

const ENTRIES: [Row; 1] = table! { entries*: ue; };

/// It comes in turns, and once more after them.
const ENTRY: [Row; 1] = table! { entry: u(TURN + 1); };

const AGAIN: [Row; 2] = table! { again; let TURN = 2; };

/// The number of a rule.
const UNKNOWN_ID: u8 = 5;

/// A refusal by a name of its own, which takes no bits.
const IDS: [Row; 3] =
    table! { place: u(4); if (place > 2) { refuse unknown_id else Structure(UNKNOWN_ID); } };

const bits_1: u16 = 701;

const bits_2: u16 = 702;

const bits_3: u16 = 703;

const bits_4: u16 = 704;

const bits_5: u16 = 705;

const bits_6: u16 = 706;

const bits_7: u16 = 707;

const bits_8: u16 = 708;

const plain_flag: u16 = 709;

const plain_code: u16 = 717;

/// A sixth structure takes its table and one call: forty plain rows.
const PLAIN: [Row; 40] = table! {
    bits_1; bits_2: u(2); bits_3: u(3); bits_4: u(4); bits_5: u(5); bits_6: u(6); bits_7: u(7); bits_8: u(8);
    plain_flag; plain_flag; plain_flag; plain_flag; plain_flag; plain_flag; plain_flag; plain_flag;
    plain_code: ue; plain_code: se; plain_code: ue; plain_code: se; plain_code: ue; plain_code: se; plain_code: ue; plain_code: se;
    bits_1: u(1); bits_2: u(2); bits_3: u(3); bits_4: u(4); bits_5: u(5); bits_6: u(6); bits_7: u(7); bits_8: u(8);
    plain_flag; plain_flag; plain_flag; plain_flag; plain_flag; plain_flag; plain_flag; plain_flag;
};

/// Returns the structure of a name.
pub(crate) fn coded(alloc: Global, name: &str) -> Result<Structure> {
    match name {
        "turns" => {
            let parts = parts![ENTRIES, TURN in entries => ENTRY, AGAIN, again => ENTRY];
            Ok(Structure::Parts(Vec::from_array(alloc, parts)?))
        }
        "composite" => Ok(Structure::Composite),
        _ => Ok(Structure::Table(table_of(name)?)),
    }
}

/// Returns the table of a name.
fn table_of(name: &str) -> Result<&'static [Row]> {
    match name {
        "small" => Ok(&SMALL),
        "ends" => Ok(&ENDS),
        "places" => Ok(&PLACES),
        "ids" => Ok(&IDS),
        "plain" => Ok(&PLAIN),
        _ => bail!("no such table"),
    }
}
