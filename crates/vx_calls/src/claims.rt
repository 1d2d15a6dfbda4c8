//! Tables, with claims on what their fields depend on, and which fields have a star.
#![allow(non_upper_case_globals)]

use crate::structures::Structure;
use anyhow::{Result, bail};
use std::alloc::Global;
use vx_table::{Row, parts, table};

const kept: u16 = 1;

const flag: u16 = 2;

const wide: u16 = 3;

const size: u16 = 4;

const wider: u16 = 5;

const other: u16 = 6;

const last: u16 = 7;

const most: u16 = 102;

const TURN: u16 = 900;

const SUM: u16 = 901;

const MIXED: [Row; 12] = table! {
    kept: u(2);
    flag*;
    wide: u(kept + 1) in 0..=(9 - kept);
    if flag { size*: ue; wider*: u(size); }
    for TURN in size { other*; }
    let SUM = (kept + most);
    if SUM { last: ue below most; }
    zeros last;
};

const WIDTH: [Row; 2] = table! { flag*; wide: u(flag + 1); };

const RANGE: [Row; 2] = table! { flag*; wide: ue in 0..=flag; };

const CONDITION: [Row; 3] = table! { flag*; if flag { wide; } };

const REPEAT: [Row; 3] = table! { flag*; for TURN in flag { wide; } };

const COUNTER: [Row; 4] = table! { flag*; for TURN in flag { size*; } wide: u(TURN); };

const NAME: [Row; 3] = table! { flag*; let SUM = (flag + 1); wide: u(SUM); };

const WITHIN: [Row; 4] = table! { kept; if kept { size; } wide: u(size); };

const BEFORE: [Row; 2] = table! { wide: u(size); size; };

const row_a: u16 = 20;

const row_b: u16 = 21;

const row_c: u16 = 22;

const row_d: u16 = 23;

const row_e: u16 = 24;

const row_f: u16 = 25;

const row_g: u16 = 26;

const row_h: u16 = 27;

const row_i: u16 = 28;

const row_j: u16 = 29;

const row_k: u16 = 30;

const row_l: u16 = 31;

const row_m: u16 = 32;

const row_n: u16 = 33;

const row_o: u16 = 34;

const row_p: u16 = 35;

const row_q: u16 = 36;

const row_r: u16 = 37;

const DEEP: [Row; 29] = table! {
    flag*;
    if flag {
        row_a*; row_b*: ue in 0..=3; row_c*: u(flag + 1) below 9 else Limit(3); zeros row_c;
        for TURN in 2 {
            row_d*; row_e*; row_f*: se;
            if (flag and row_a) {
                row_g*; default row_q = 1; row_h*; let SUM = (flag + 1);
                if row_b {
                    row_i*: ue multiple 8 upto 64 else Limit(6); row_j*; row_k*; fill row_r;
                    if row_c { row_l*; row_m*; row_n*; row_o*; }
                    row_p*;
                }
                row_q*;
            }
            row_r*;
        }
    }
    wide;
};

/// Returns the structure of a name.
pub(crate) fn claimed(alloc: Global, name: &str) -> Result<Structure> {
    let parts = match name {
        "on-the-flag" => parts![WIDTH, flag => NAME],
        "behind-a-condition" => parts![kept => WIDTH, flag => NAME],
        "in-turns" => parts![MIXED, TURN in flag => REPEAT],
        "in-kept-turns" => parts![MIXED, TURN in kept => REPEAT],
        _ => return Ok(Structure::Table(table_of(name)?)),
    };
    Ok(Structure::Parts(Vec::from_array(alloc, parts)?))
}

/// Returns the table of a name.
fn table_of(name: &str) -> Result<&'static [Row]> {
    match name {
        "deep" => Ok(&DEEP),
        "mixed" => Ok(&MIXED),
        "width" => Ok(&WIDTH),
        "range" => Ok(&RANGE),
        "condition" => Ok(&CONDITION),
        "repeat" => Ok(&REPEAT),
        "counter" => Ok(&COUNTER),
        "name" => Ok(&NAME),
        "within" => Ok(&WITHIN),
        "before" => Ok(&BEFORE),
        _ => bail!("no such table"),
    }
}
