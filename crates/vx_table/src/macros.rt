//! `table!` writes rows in the form of H.266's syntax tables, `parts!` puts tables together, and `rows!` writes a table as
//! a type.

/// Writes a term: `4`, or `cbr_flag` for the latest number of that field, and `LOWER` for that of a name.
#[macro_export]
macro_rules! term {
    ($number:literal) => { $crate::Term::Number($number) };
    ($of:ident) => { $crate::Term::Latest($of) };
}

/// Writes a formula of its terms, as a value or as the type that represents it.
#[macro_export]
macro_rules! formula_of {
    (value $variant:ident $($terms:tt)+) => { $crate::Formula::$variant($($crate::term!($terms)),+) };
    (by_type $variant:ident $($terms:tt)+) => { $crate::formula_of!(@ $variant [] $($terms)+) };
    (@ $variant:ident [$($numbers:tt)*] $number:literal $($terms:tt)*) => {
        $crate::formula_of!(@ $variant [$($numbers)* { $crate::by_type::NO_FIELD }, $number,] $($terms)*)
    };
    (@ $variant:ident [$($numbers:tt)*] $of:ident $($terms:tt)*) => {
        $crate::formula_of!(@ $variant [$($numbers)* $of, 0,] $($terms)*)
    };
    (@ $variant:ident [$($numbers:tt)*]) => { $crate::by_type::$variant::<$($numbers)*> };
}

/// Writes a formula: a term, or one in parentheses, such as `(sps_log2_ctu_size_minus5 + 5)` and `(not cbr_flag)`.
#[macro_export]
macro_rules! formula {
    ($as:ident ($($inner:tt)+)) => { $crate::formula!(@ $as $($inner)+) };
    ($as:ident $a:tt) => { $crate::formula!(@ $as $a) };
    (@ $as:ident $a:tt) => { $crate::formula_of!($as Plain $a) };
    (@ $as:ident not $a:tt) => { $crate::formula_of!($as Equal $a 0) };
    (@ $as:ident pow2 $a:tt) => { $crate::formula_of!($as PowerOfTwo $a) };
    (@ $as:ident ceil_log2 $a:tt) => { $crate::formula_of!($as CeilLog2 $a) };
    (@ $as:ident $a:tt + $b:tt) => { $crate::formula_of!($as Plus $a $b) };
    (@ $as:ident $a:tt - $b:tt) => { $crate::formula_of!($as Minus $a $b) };
    (@ $as:ident $a:tt * $b:tt) => { $crate::formula_of!($as Times $a $b) };
    (@ $as:ident $a:tt / $b:tt) => { $crate::formula_of!($as Quotient $a $b) };
    (@ $as:ident $a:tt min $b:tt) => { $crate::formula_of!($as Least $a $b) };
    (@ $as:ident $a:tt == $b:tt) => { $crate::formula_of!($as Equal $a $b) };
    (@ $as:ident $a:tt != $b:tt) => { $crate::formula_of!($as Differs $a $b) };
    (@ $as:ident $a:tt < $b:tt) => { $crate::formula_of!($as Below $a $b) };
    (@ $as:ident $a:tt <= $b:tt) => { $crate::formula_of!($as AtMost $a $b) };
    (@ $as:ident $a:tt > $b:tt) => { $crate::formula_of!($as Below $b $a) };
    (@ $as:ident $a:tt and $b:tt) => { $crate::formula_of!($as Both $a $b) };
    (@ $as:ident $a:tt or $b:tt) => { $crate::formula_of!($as Either $a $b) };
}

/// Writes the fault of a broken range: `OutOfRange`, or one with a number, such as `Limit(TOO_LARGE)`.
#[macro_export]
macro_rules! fault {
    (value $fault:ident $(($code:tt))?) => { $crate::Fault::$fault $(($code))? };
    (by_type $fault:ident $(($code:tt))?) => { $crate::by_type::$fault $(::<$code>)? };
}

/// Writes the range of a row: `in 0..=6` or `below SLICES`, with `else Profile(CHROMA_FORMAT)` if the fault has a name, and
/// `multiple 8 upto 16384 else Limit(TOO_LARGE)` for a picture's size.
#[macro_export]
macro_rules! limits {
    (value) => { $crate::Limits::Any };
    ($as:ident in $low:literal ..= $high:tt) => {
        $crate::limits!($as in $low ..= $high else OutOfRange)
    };
    (value in $low:literal ..= $high:tt else $($fault:tt)+) => {
        $crate::Limits::Within {
            low: $low,
            high: $crate::formula!(value $high),
            fault: $crate::fault!(value $($fault)+),
        }
    };
    (by_type in $low:literal ..= $high:tt else $($fault:tt)+) => {
        $crate::by_type::InRange::<$low, _, _>(
            $crate::formula!(by_type $high),
            $crate::fault!(by_type $($fault)+),
        )
    };
    ($as:ident below $bound:tt) => {
        $crate::limits!($as below $bound else OutOfRange)
    };
    (value below $bound:tt else $($fault:tt)+) => {
        $crate::Limits::Below {
            bound: $crate::formula!(value $bound),
            fault: $crate::fault!(value $($fault)+),
        }
    };
    (by_type below $bound:tt else $($fault:tt)+) => {
        $crate::by_type::BelowBound(
            $crate::formula!(by_type $bound),
            $crate::fault!(by_type $($fault)+),
        )
    };
    (value multiple $unit:literal upto $high:literal else $($fault:tt)+) => {
        $crate::Limits::Multiple { unit: $unit, high: $high, fault: $crate::fault!(value $($fault)+) }
    };
}

/// Writes a field or a gap by its number, whether it is kept, and its coding: `Golomb`, or `Fixed` with a formula.
#[macro_export]
macro_rules! coded {
    (value $field:ident, $kept:literal, $coding:ident $(($width:tt))?, [$($limits:tt)*]) => {
        $crate::Cell {
            field: $field,
            kept: $kept,
            coding: $crate::Coding::$coding $(($crate::formula!(value $width)))?,
            limits: $crate::limits!(value $($limits)*),
        }
    };
    (by_type $field:ident, $kept:literal, $coding:ident $(($width:tt))?, [$($limits:tt)+]) => {
        $crate::by_type::Limited(
            $crate::coded!(by_type $field, $kept, $coding $(($width))?, []),
            $crate::limits!(by_type $($limits)+),
        )
    };
    (by_type $field:ident, $kept:literal, $coding:ident, []) => {
        $crate::by_type::$coding::<$field, $kept>
    };
    (by_type $field:ident, $kept:literal, $coding:ident($width:tt), []) => {
        $crate::by_type::$coding::<$field, $kept, _>($crate::formula!(by_type $width))
    };
}

/// Writes a field as its row codes it: `u(7)`, `u(sps_subpic_id_len_minus1 + 1)`, `ue`, `se`, or one bit by default.
#[macro_export]
macro_rules! cell {
    ($as:ident $field:ident, $kept:literal, [], $limits:tt) => {
        $crate::coded!($as $field, $kept, Fixed(1), $limits)
    };
    ($as:ident $field:ident, $kept:literal, [ue], $limits:tt) => {
        $crate::coded!($as $field, $kept, Golomb, $limits)
    };
    ($as:ident $field:ident, $kept:literal, [se], $limits:tt) => {
        $crate::coded!($as $field, $kept, SignedGolomb, $limits)
    };
    ($as:ident $field:ident, $kept:literal, [u $width:tt], $limits:tt) => {
        $crate::coded!($as $field, $kept, Fixed($width), $limits)
    };
}

/// Writes a gap or a field without bits, by the first word of its row.
#[macro_export]
macro_rules! gap {
    ($as:ident zeros $field:ident) => { $crate::coded!($as $field, false, Zeros, []) };
    ($as:ident one_and_zeros $field:ident) => { $crate::coded!($as $field, false, OneAndZeros, []) };
    ($as:ident trailing $field:ident) => { $crate::coded!($as $field, false, Trailing, []) };
    ($as:ident fill $field:ident) => { $crate::coded!($as $field, true, Absent, []) };
    ($as:ident refuse $field:ident) => { $crate::coded!($as $field, false, Refused, []) };
    ($as:ident refuse $field:ident else $($fault:tt)+) => {
        $crate::coded!($as $field, false, Absent, [below 0 else $($fault)+])
    };
}

/// Counts rows, with those inside blocks: a row is counted once for each block that contains it.
#[macro_export]
macro_rules! count_rows {
    (@ {} [$($done:tt)*]) => { [$($done)*].len() };
    (@ { if $holds:tt { $($block:tt)* } $($rest:tt)* } [$($done:tt)*]) => {
        $crate::count_rows!(@ { $($block)* $($rest)* } [$($done)* (),])
    };
    (@ { for $counter:ident in $times:tt { $($block:tt)* } $($rest:tt)* } [$($done:tt)*]) => {
        $crate::count_rows!(@ { $($block)* $($rest)* } [$($done)* (),])
    };
    (@ { $word:ident $name:ident $(= $formula:tt)?; $($rest:tt)* } [$($done:tt)*]) => {
        $crate::count_rows!(@ { $($rest)* } [$($done)* (),])
    };
    (@ { refuse $field:ident else $fault:ident $(($code:tt))?; $($rest:tt)* } [$($done:tt)*]) => {
        $crate::count_rows!(@ { $($rest)* } [$($done)* (),])
    };
    (@ {
        $field:ident $(*)?
        $(: $coding:ident $(($($width:tt)+))?)?
        $(in $low:literal ..= $high:tt $(else $fault:ident $(($code:tt))?)?)?
        $(below $bound:tt $(else $beyond:ident $(($number:tt))?)?)?
        $(multiple $unit:literal upto $most:literal else $above:ident ($limit:tt))?
        ; $($rest:tt)*
    } [$($done:tt)*]) => {
        $crate::count_rows!(@ { $($rest)* } [$($done)* (),])
    };
    ($($rows:tt)*) => { $crate::count_rows!(@ { $($rows)* } []) };
}

/// Writes a table's rows as one flat array.
#[macro_export]
macro_rules! table {
    (@ {} [$($done:expr,)*]) => { [$($done),*] };
    (@ { $word:ident $field:ident $(else $fault:ident $(($code:tt))?)?; $($rest:tt)* } [$($done:expr,)*]) => {
        $crate::table!(@ { $($rest)* } [$($done,)*
            $crate::Row::Field($crate::gap!(value $word $field $(else $fault $(($code))?)?)),
        ])
    };
    (@ { default $name:ident = $formula:tt; $($rest:tt)* } [$($done:expr,)*]) => {
        $crate::table!(@ { $($rest)* } [$($done,)*
            $crate::Row::Name { name: $name, formula: $crate::formula!(value $formula) },
        ])
    };
    (@ { let $name:ident = $formula:tt; $($rest:tt)* } [$($done:expr,)*]) => {
        $crate::table!(@ { $($rest)* } [$($done,)*
            $crate::Row::Name { name: $name, formula: $crate::formula!(value $formula) },
        ])
    };
    (@ { if $holds:tt { $($block:tt)* } $($rest:tt)* } [$($done:expr,)*]) => {
        $crate::table!(@ { $($block)* $($rest)* } [$($done,)*
            $crate::Row::Block {
                presence: $crate::Presence::When($crate::formula!(value $holds)),
                rows: $crate::count_rows!($($block)*),
            },
        ])
    };
    (@ { for $counter:ident in $times:tt { $($block:tt)* } $($rest:tt)* } [$($done:expr,)*]) => {
        $crate::table!(@ { $($block)* $($rest)* } [$($done,)*
            $crate::Row::Block {
                presence: $crate::Presence::Repeat {
                    counter: $counter,
                    times: $crate::formula!(value $times),
                },
                rows: $crate::count_rows!($($block)*),
            },
        ])
    };
    (@ {
        $field:ident * $(: $coding:ident $(($($width:tt)+))?)?
        $(in $low:literal ..= $high:tt $(else $fault:ident $(($code:tt))?)?)?
        $(below $bound:tt $(else $beyond:ident $(($number:tt))?)?)?
        $(multiple $unit:literal upto $most:literal else $above:ident ($limit:tt))?
        ; $($rest:tt)*
    } [$($done:expr,)*]) => {
        $crate::table!(@ { $($rest)* } [$($done,)*
            $crate::Row::Field($crate::cell!(value $field, false, [$($coding $(($($width)+))?)?],
                [$(in $low ..= $high $(else $fault $(($code))?)?)?
                 $(below $bound $(else $beyond $(($number))?)?)?
                 $(multiple $unit upto $most else $above($limit))?])),
        ])
    };
    (@ {
        $field:ident $(: $coding:ident $(($($width:tt)+))?)?
        $(in $low:literal ..= $high:tt $(else $fault:ident $(($code:tt))?)?)?
        $(below $bound:tt $(else $beyond:ident $(($number:tt))?)?)?
        $(multiple $unit:literal upto $most:literal else $above:ident ($limit:tt))?
        ; $($rest:tt)*
    } [$($done:expr,)*]) => {
        $crate::table!(@ { $($rest)* } [$($done,)*
            $crate::Row::Field($crate::cell!(value $field, true, [$($coding $(($($width)+))?)?],
                [$(in $low ..= $high $(else $fault $(($code))?)?)?
                 $(below $bound $(else $beyond $(($number))?)?)?
                 $(multiple $unit upto $most else $above($limit))?])),
        ])
    };
    ($($rows:tt)*) => { $crate::table!(@ { $($rows)* } []) };
}

/// Writes the parts of a structure. A part is a table, always present; or one that is present if a formula isn't 0, such as
/// `sps_timing_hrd_params_present_flag => TIMING`; or one that is repeated under a counter, such as `INDEX in
/// sps_num_ref_pic_lists => STRUCTURE`.
#[macro_export]
macro_rules! parts {
    (@ [$($done:tt)*]) => { [$($done)*] };
    (@ [$($done:tt)*] $counter:ident in $times:tt => $rows:ident $(, $($rest:tt)*)?) => {
        $crate::parts!(@ [$($done)*
            $crate::Part {
                presence: $crate::Presence::Repeat {
                    counter: $counter,
                    times: $crate::formula!(value $times),
                },
                rows: &$rows,
            },
        ] $($($rest)*)?)
    };
    (@ [$($done:tt)*] $holds:tt => $rows:ident $(, $($rest:tt)*)?) => {
        $crate::parts!(@ [$($done)*
            $crate::Part {
                presence: $crate::Presence::When($crate::formula!(value $holds)),
                rows: &$rows,
            },
        ] $($($rest)*)?)
    };
    (@ [$($done:tt)*] $rows:ident $(, $($rest:tt)*)?) => {
        $crate::parts!(@ [$($done)*] 1 => $rows $(, $($rest)*)?)
    };
    ($($parts:tt)*) => { $crate::parts!(@ [] $($parts)*) };
}

/// Writes a table's rows as a type, from the text of which [`table!`] makes an array.
#[macro_export]
macro_rules! rows {
    () => { $crate::by_type::NoRow };
    ($word:ident $field:ident $(else $fault:ident $(($code:tt))?)?; $($rest:tt)*) => {
        $crate::by_type::FieldThen {
            field: $crate::gap!(by_type $word $field $(else $fault $(($code))?)?),
            rest: $crate::rows!($($rest)*),
        }
    };
    (default $name:ident = $formula:tt; $($rest:tt)*) => {
        $crate::rows!(let $name = $formula; $($rest)*)
    };
    (let $name:ident = $formula:tt; $($rest:tt)*) => {
        $crate::by_type::NameThen::<$name, _, _> {
            formula: $crate::formula!(by_type $formula),
            rest: $crate::rows!($($rest)*),
        }
    };
    (if $holds:tt { $($block:tt)* } $($rest:tt)*) => {
        $crate::by_type::WhenThen {
            holds: $crate::formula!(by_type $holds),
            block: $crate::rows!($($block)*),
            rest: $crate::rows!($($rest)*),
        }
    };
    (for $counter:ident in $times:tt { $($block:tt)* } $($rest:tt)*) => {
        $crate::by_type::RepeatThen::<$counter, _, _, _> {
            times: $crate::formula!(by_type $times),
            block: $crate::rows!($($block)*),
            rest: $crate::rows!($($rest)*),
        }
    };
    ($field:ident; $($rest:tt)*) => {
        $crate::by_type::FlagThen::<$field, true, _> { rest: $crate::rows!($($rest)*) }
    };
    ($field:ident *; $($rest:tt)*) => {
        $crate::by_type::FlagThen::<$field, false, _> { rest: $crate::rows!($($rest)*) }
    };
    (
        $field:ident * $(: $coding:ident $(($($width:tt)+))?)?
        $(in $low:literal ..= $high:tt $(else $fault:ident $(($code:tt))?)?)?
        $(below $bound:tt $(else $beyond:ident $(($number:tt))?)?)?
        $(multiple $unit:literal upto $most:literal else $above:ident ($limit:tt))?
        ; $($rest:tt)*
    ) => {
        $crate::by_type::FieldThen {
            field: $crate::cell!(by_type $field, false, [$($coding $(($($width)+))?)?],
                [$(in $low ..= $high $(else $fault $(($code))?)?)?
                 $(below $bound $(else $beyond $(($number))?)?)?
                 $(multiple $unit upto $most else $above($limit))?]),
            rest: $crate::rows!($($rest)*),
        }
    };
    (
        $field:ident $(: $coding:ident $(($($width:tt)+))?)?
        $(in $low:literal ..= $high:tt $(else $fault:ident $(($code:tt))?)?)?
        $(below $bound:tt $(else $beyond:ident $(($number:tt))?)?)?
        $(multiple $unit:literal upto $most:literal else $above:ident ($limit:tt))?
        ; $($rest:tt)*
    ) => {
        $crate::by_type::FieldThen {
            field: $crate::cell!(by_type $field, true, [$($coding $(($($width)+))?)?],
                [$(in $low ..= $high $(else $fault $(($code))?)?)?
                 $(below $bound $(else $beyond $(($number))?)?)?
                 $(multiple $unit upto $most else $above($limit))?]),
            rest: $crate::rows!($($rest)*),
        }
    };
}
