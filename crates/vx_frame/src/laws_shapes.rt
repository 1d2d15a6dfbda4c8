//! Laws of the shapes of frames. Each function does nothing and has its law as its contract.
ghost use Rattle.vx_frame.specs.inner.Geometry.{FramesHaveShapes};

use vx_fit::frame_of_regions;

/// If a round's sets make a frame, then it is a layout, and sets can describe it.
///
/// The clauses are H.266 7.4.3.4, 7.4.3.5 and 6.3.1.
pub(crate) fn frames_have_shapes()
    ensures { FramesHaveShapes }
{
    frame_of_regions();
}
