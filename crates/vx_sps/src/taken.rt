//! The fields that a rewritten set copies from its source.
ghost use Rattle.std.specs.Prelude.{◌≡◌, ◌++◌, OnOk, IfOk};
ghost use Rattle.vx_table.specs.Unstarred.{unstarred};
ghost use Rattle.vx_sps.specs.Structure.{tools};
ghost use Rattle.vx_sps.specs.Depends.{taken_sps_fields};

use crate::tables::*;
use std::alloc::{AllocError, Global};
use vx_rpl::REF_PIC_LIST_STRUCT;
use vx_table::{NameList, push_unstarred};

/// Appends the fields of the tools that have no star.
fn push_tools(names: &mut NameList) -> Result<(), AllocError>
    ensures { OnOk result (names.new ≡ names.old ++ unstarred tools) }
{
    push_unstarred(names, &PARTITIONS)?;
    push_unstarred(names, &TRANSFORMS)?;
    push_unstarred(names, &CHROMA_QP)?;
    push_unstarred(names, &FILTERS)?;
    push_unstarred(names, &REFERENCES)?;
    push_unstarred(names, &REF_PIC_LIST_STRUCT)?;
    push_unstarred(names, &LIST_1)?;
    push_unstarred(names, &REF_PIC_LIST_STRUCT)?;
    push_unstarred(names, &INTER)?;
    push_unstarred(names, &INTRA)?;
    push_unstarred(names, &SCALING)?;
    Ok(())
}

/// Returns the fields that a rewritten set copies from its source, with the names that their tables use.
///
/// They are those without a star, which are in these tables, and [`TAKEN_BESIDES`].
///
/// # Errors
///
/// `AllocError` if memory runs out.
pub(crate) fn taken_fields(alloc: Global) -> Result<NameList, AllocError>
    ensures { IfOk result (λ names. names ≡ taken_sps_fields) }
{
    let mut names = NameList::new(alloc);
    names.extend_from_slice(&TAKEN_BESIDES)?;
    push_unstarred(&mut names, &START)?;
    push_unstarred(&mut names, &RESAMPLING)?;
    push_unstarred(&mut names, &COUNTS)?;
    push_tools(&mut names)?;
    push_unstarred(&mut names, &END)?;
    Ok(names)
}
