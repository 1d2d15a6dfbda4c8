//! Laws of what is written for a whole stream. Each function does nothing and has its law as its contract.
ghost use Rattle.vx_extract.specs.Whole.{ExtractedUnitsReadAgain, ExtractionReadsAgain};

use crate::laws::{extracted_reads_again, rewritten_make_region};
use crate::laws_kept::all_keep_inputs;
use crate::laws_ready::pictures_are_ready;
use vx_annexb::{escaped_is_unique, escaped_splits};
use vx_pic::{kept_are_finished, pictures_are_finished, written_has_pictures};

/// If units are written for a subpicture of a stream's pictures, then exactly these pictures are read again.
///
/// The pictures are those up to a TemporalId. Each has the subpicture, and no IRAP or GDR picture is left out (H.266 C.6). Read again,
/// they have the source's kinds, counts, decoding inputs and messages, and no rule refuses them.
pub fn extracted_units_read_again()
    ensures { ExtractedUnitsReadAgain }
{
    rewritten_make_region();
    pictures_are_finished();
    kept_are_finished();
    pictures_are_ready();
    extracted_reads_again();
    all_keep_inputs();
}

/// If bytes are written for a subpicture of a stream's pictures, then exactly these pictures are read again.
///
/// The premises, and what the pictures have, are those of [`extracted_units_read_again`].
pub fn extraction_reads_again()
    ensures { ExtractionReadsAgain }
{
    escaped_is_unique();
    escaped_splits();
    pictures_are_finished();
    kept_are_finished();
    written_has_pictures();
    extracted_units_read_again();
    vx_sps::spelling_is_short();
    vx_pps::spelling_is_short();
}
